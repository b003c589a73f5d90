//! The outside in memory: what its calls answer, and what its log tells.

use dns_message::{Bytes, NoMemory};
use net_addr::{Addr, ServerAddr};
use net_world::{
    FileRead, Files, Got, MemFiles, MemSink, PutCall, PutEnd, ReadCall, ScriptWorld, Sent, Sink,
    Timed, Waited, World, WorldCall, Wrote,
};
use std::alloc::Global;
use std::collections::BTreeMap;
use std::test::Fail;

const SERVER: ServerAddr = ServerAddr {
    address: Addr::V4(0xc0000235),
    port: 53,
};

/// What is received, as a table has it.
#[derive(Clone, Copy)]
enum Came {
    Datagram(u32, &'static [u8]),
    Piece(u64, &'static [u8]),
    Ended(u64),
    Nothing,
    Failed(u32, u64),
}

/// A call and its answer, as a table has them. Server 0 is served at the address of `SERVER`.
#[derive(Clone, Copy)]
enum Row {
    Serve,
    Now(u64),
    Word(u16),
    Send(u32, &'static [u8], Sent),
    Connect(u32, u64, Sent),
    Write(u64, &'static [u8], Wrote),
    Receive(Came),
    Close(u64),
    Wait(u64, Waited),
}

/// What is received.
fn got_of(alloc: Global, came: Came) -> Result<Got, NoMemory> {
    Ok(match came {
        Came::Datagram(server, bytes) => Got::Datagram(server, Bytes::of(alloc, bytes)?),
        Came::Piece(link, bytes) => Got::Piece(link, Bytes::of(alloc, bytes)?),
        Came::Ended(link) => Got::Ended(link),
        Came::Nothing => Got::Nothing,
        Came::Failed(server, link) => Got::Failed(server, link),
    })
}

/// A datagram that is sent.
fn sending(alloc: Global, server: u32, bytes: &[u8], sent: Sent) -> Result<WorldCall, NoMemory> {
    let bytes = Bytes::of(alloc, bytes)?;
    Ok(WorldCall::Send {
        server,
        bytes,
        sent,
    })
}

/// Bytes that are written.
fn writing(alloc: Global, link: u64, bytes: &[u8], wrote: Wrote) -> Result<WorldCall, NoMemory> {
    let bytes = Bytes::of(alloc, bytes)?;
    Ok(WorldCall::Write { link, bytes, wrote })
}

/// The call of a row, with the answer that is expected.
fn call_of(alloc: Global, row: Row) -> Result<WorldCall, NoMemory> {
    Ok(match row {
        Row::Serve => WorldCall::Serve {
            server: 0,
            address: SERVER,
        },
        Row::Now(reading) => WorldCall::Now { reading },
        Row::Word(word) => WorldCall::Word { word },
        Row::Send(server, bytes, sent) => sending(alloc, server, bytes, sent)?,
        Row::Connect(server, link, sent) => WorldCall::Connect { server, link, sent },
        Row::Write(link, bytes, wrote) => writing(alloc, link, bytes, wrote)?,
        Row::Receive(came) => WorldCall::Receive {
            got: got_of(alloc, came)?,
        },
        Row::Close(link) => WorldCall::Close { link },
        Row::Wait(until, waited) => WorldCall::Wait { until, waited },
    })
}

/// Makes the call of a row, and gives the row with the answer that came, but for what is received.
fn made<W: World>(world: &mut W, row: Row) -> Result<Row, NoMemory> {
    Ok(match row {
        Row::Serve => {
            world.serve(0, &SERVER)?;
            Row::Serve
        }
        Row::Now(_) => Row::Now(world.now()?),
        Row::Word(_) => Row::Word(world.word()?),
        Row::Send(server, bytes, _) => Row::Send(server, bytes, world.send(server, bytes)?),
        Row::Connect(server, link, _) => Row::Connect(server, link, world.connect(server, link)?),
        Row::Write(link, bytes, _) => Row::Write(link, bytes, world.write(link, bytes)?),
        Row::Receive(came) => Row::Receive(came),
        Row::Close(link) => {
            world.close(link)?;
            Row::Close(link)
        }
        Row::Wait(until, _) => Row::Wait(until, world.wait(until)?),
    })
}

/// Receives.
fn received<W: World>(world: &mut W) -> Result<WorldCall, NoMemory> {
    let got = world.receive()?;
    Ok(WorldCall::Receive { got })
}

/// Makes the call of a row, and gives it with the answer that came.
fn again<W: World>(alloc: Global, world: &mut W, row: Row) -> Result<WorldCall, NoMemory> {
    match row {
        Row::Receive(_) => received(world),
        row => call_of(alloc, made(world, row)?),
    }
}

/// Whether a script that is lent answers the call of a row so.
fn answers(alloc: Global, world: &mut ScriptWorld, row: Row) -> Result<bool, NoMemory> {
    let mut lent = world;
    let call = again(alloc, &mut lent, row)?;
    Ok(call == call_of(alloc, row)?)
}

/// The calls of a table.
fn calls_of(alloc: Global, rows: &[Row]) -> Result<Vec<WorldCall>, NoMemory> {
    let mut calls = Vec::new(alloc);
    for row in rows {
        calls.push(call_of(alloc, *row)?)?;
    }
    Ok(calls)
}

/// Whether the log has the calls of a table.
fn has_logged(alloc: Global, world: &ScriptWorld, rows: &[Row]) -> Result<bool, NoMemory> {
    let calls = calls_of(alloc, rows)?;
    Ok(world.log().calls() == calls.as_slice())
}

/// Whether a script answers each call of a table so, and has them in its log.
fn plays(alloc: Global, world: &mut ScriptWorld, rows: &[Row]) -> Result<bool, NoMemory> {
    for row in rows {
        if !answers(alloc, world, *row)? {
            return Ok(false);
        }
    }
    has_logged(alloc, world, rows)
}

/// Each call once: an empty datagram that is there from 0, and no failure.
const EACH: &[Row] = &[
    Row::Serve,
    Row::Now(0),
    Row::Word(0x1234),
    Row::Word(0),
    Row::Send(0, b"", Sent::Sent),
    Row::Connect(0, 1, Sent::Sent),
    Row::Write(1, b"query", Wrote::Count(5)),
    Row::Receive(Came::Datagram(0, b"")),
    Row::Receive(Came::Nothing),
    Row::Close(1),
    Row::Wait(20, Waited::Woken),
    Row::Now(20),
];

/// A script of one random word and that datagram.
fn short_script(alloc: Global) -> Result<ScriptWorld, NoMemory> {
    let words = vec![in alloc; 0x1234]?;
    let items = vec![in alloc;
        Timed {
            from: 0,
            got: Got::Datagram(0, Bytes::new(alloc))
        },
    ]?;
    Ok(ScriptWorld::make(words, items, Vec::new(alloc)))
}

/// Whether it answers so.
fn plays_short(alloc: Global) -> Result<bool, NoMemory> {
    let mut world = short_script(alloc)?;
    plays(alloc, &mut world, EACH)
}

#[test]
fn a_world_answers(rt: HostRuntime) -> Result<(), Fail> {
    assert!(rt; plays_short(rt.alloc())?);
    Ok(())
}

/// A byte of link 1 is there from 8 on, and its end from 5; link 2 ends at 6, and an empty datagram is there from 3.
/// Link 2 is closed, and the calls with the numbers 1, 3 and 6 fail.
const LATER: &[Row] = &[
    Row::Receive(Came::Nothing),
    Row::Wait(100, Waited::Failed),
    Row::Wait(100, Waited::Woken),
    Row::Receive(Came::Failed(0, 0)),
    Row::Wait(200, Waited::Woken),
    Row::Now(3),
    Row::Connect(4, 2, Sent::Failed),
    Row::Receive(Came::Datagram(4, b"")),
    Row::Close(2),
    Row::Wait(5, Waited::Woken),
    Row::Receive(Came::Ended(1)),
    Row::Wait(200, Waited::Woken),
    Row::Now(8),
    Row::Receive(Came::Piece(1, b"\x09")),
    Row::Receive(Came::Nothing),
    Row::Wait(7, Waited::Woken),
    Row::Now(8),
];

/// A script of those.
fn long_script(alloc: Global) -> Result<ScriptWorld, NoMemory> {
    let fails = vec![in alloc; 1, 3, 6]?;
    let byte = Bytes::of(alloc, &[9])?;
    let items = vec![in alloc;
        Timed {
            from: 8,
            got: Got::Piece(1, byte)
        },
        Timed {
            from: 6,
            got: Got::Ended(2)
        },
        Timed {
            from: 3,
            got: Got::Datagram(4, Bytes::new(alloc))
        },
        Timed {
            from: 5,
            got: Got::Ended(1)
        },
    ]?;
    Ok(ScriptWorld::make(Vec::new(alloc), items, fails))
}

/// Whether it answers so.
fn plays_long(alloc: Global) -> Result<bool, NoMemory> {
    let mut world = long_script(alloc)?;
    plays(alloc, &mut world, LATER)
}

#[test]
fn a_script_goes_on(rt: HostRuntime) -> Result<(), Fail> {
    assert!(rt; plays_long(rt.alloc())?);
    Ok(())
}

/// Paths, how many bytes are read at most, and the length of the content, or the answer in its place.
const READS: &[(&str, u64, ReadEnd)] = &[
    ("/etc/hosts", 5, ReadEnd::Content(b"::1 a")),
    ("/etc/hosts", 4, ReadEnd::Large),
    ("/etc/host", 5, ReadEnd::Absent),
    ("", 0, ReadEnd::Absent),
    ("/etc/hosts", 5, ReadEnd::Failed),
    ("/etc/hosts", 4, ReadEnd::Large),
];

/// What a read gives, as a table has it.
#[derive(Clone, Copy)]
enum ReadEnd {
    Content(&'static [u8]),
    Absent,
    Large,
    Failed,
}

/// Files of which one has a text, and the read with the number 4 fails.
fn one_file(alloc: Global) -> Result<MemFiles, Fail> {
    let mut map = BTreeMap::new(alloc);
    map.insert(
        String::from_str(alloc, "/etc/hosts")?,
        Bytes::of(alloc, b"::1 a")?,
    )?;
    Ok(MemFiles::make(map, vec![in alloc; 4]?))
}

/// Whether a read gives this.
fn is_read(read: &FileRead, end: ReadEnd) -> bool {
    match (read, end) {
        (FileRead::Content(bytes), ReadEnd::Content(text)) => bytes.as_slice() == text,
        (FileRead::Absent, ReadEnd::Absent) => true,
        (FileRead::Large, ReadEnd::Large) => true,
        (FileRead::Failed, ReadEnd::Failed) => true,
        _ => false,
    }
}

/// Whether each read of a table gives what it has.
fn reads_so<F: Files>(files: &mut F, rows: &[(&str, u64, ReadEnd)]) -> Result<bool, NoMemory> {
    for (path, most, end) in rows {
        if !is_read(&files.read(path, *most)?, *end) {
            return Ok(false);
        }
    }
    Ok(true)
}

/// Whether those files do.
fn one_file_reads(alloc: Global) -> Result<bool, Fail> {
    let mut files = one_file(alloc)?;
    Ok(reads_so(&mut files, READS)?)
}

#[test]
fn files_are_read(rt: HostRuntime) -> Result<(), Fail> {
    assert!(rt; one_file_reads(rt.alloc())?);
    Ok(())
}

/// What a read gives.
fn read_of(alloc: Global, end: ReadEnd) -> Result<FileRead, NoMemory> {
    Ok(match end {
        ReadEnd::Content(text) => FileRead::Content(Bytes::of(alloc, text)?),
        ReadEnd::Absent => FileRead::Absent,
        ReadEnd::Large => FileRead::Large,
        ReadEnd::Failed => FileRead::Failed,
    })
}

/// The read of a row, with what it gives.
fn read_call(alloc: Global, path: &str, most: u64, end: ReadEnd) -> Result<ReadCall, NoMemory> {
    let path = Bytes::of(alloc, path.as_bytes())?;
    let read = read_of(alloc, end)?;
    Ok(ReadCall { path, most, read })
}

/// The reads of a table.
fn reads_of(alloc: Global, rows: &[(&str, u64, ReadEnd)]) -> Result<Vec<ReadCall>, NoMemory> {
    let mut calls = Vec::new(alloc);
    for (path, most, end) in rows {
        calls.push(read_call(alloc, path, *most, *end)?)?;
    }
    Ok(calls)
}

/// Whether those files tell these reads behind them, and none before.
fn one_file_tells(alloc: Global) -> Result<bool, Fail> {
    let mut files = one_file(alloc)?;
    let told = reads_of(alloc, READS)?;
    let none = files.reads().is_empty();
    let is_so = none && reads_so(&mut files, READS)?;
    Ok(is_so && files.reads() == told.as_slice())
}

// One of them fails, and is told as such.
#[test]
fn files_tell_their_reads(rt: HostRuntime) -> Result<(), Fail> {
    assert!(rt; one_file_tells(rt.alloc())?);
    Ok(())
}

/// Whether a put ends so.
fn ends<K: Sink>(sink: &mut K, text: &[u8], end: PutEnd) -> Result<bool, NoMemory> {
    Ok(sink.put(text)? == end)
}

/// Whether of three puts the second fails, and the others are kept.
fn keeps<K: Sink>(sink: &mut K) -> Result<bool, NoMemory> {
    Ok(
        ends(sink, b"a", PutEnd::Done)?
            && ends(sink, b"b", PutEnd::Failed)?
            && ends(sink, b"c", PutEnd::Done)?,
    )
}

/// Whether a sink whose second put fails does so.
fn keeps_two(alloc: Global) -> Result<bool, NoMemory> {
    let mut sink = MemSink::make(vec![in alloc; 1]?);
    Ok(keeps(&mut sink)? && sink.bytes() == b"ac".as_slice())
}

#[test]
fn a_sink_keeps_what_was_put(rt: HostRuntime) -> Result<(), Fail> {
    assert!(rt; keeps_two(rt.alloc())?);
    Ok(())
}

/// Puts and their ends. The second fails, and the third is of no byte.
const PUTS: &[(&[u8], PutEnd)] = &[
    (b"a", PutEnd::Done),
    (b"bc", PutEnd::Failed),
    (b"", PutEnd::Done),
    (b"d", PutEnd::Done),
];

/// Whether each put of a table ends so.
fn puts_so<K: Sink>(sink: &mut K, rows: &[(&[u8], PutEnd)]) -> Result<bool, NoMemory> {
    for (text, end) in rows {
        if !ends(sink, text, *end)? {
            return Ok(false);
        }
    }
    Ok(true)
}

/// The puts of a table.
fn puts_of(alloc: Global, rows: &[(&[u8], PutEnd)]) -> Result<Vec<PutCall>, NoMemory> {
    let mut calls = Vec::new(alloc);
    for (text, end) in rows {
        let text = Bytes::of(alloc, text)?;
        calls.push(PutCall { text, end: *end })?;
    }
    Ok(calls)
}

/// Whether a sink tells these puts behind them, and none before.
fn tells_puts(alloc: Global) -> Result<bool, NoMemory> {
    let mut sink = MemSink::make(vec![in alloc; 1]?);
    let told = puts_of(alloc, PUTS)?;
    let none = sink.puts().is_empty();
    let is_so = none && puts_so(&mut sink, PUTS)?;
    Ok(is_so && sink.puts() == told.as_slice() && sink.bytes() == b"ad".as_slice())
}

#[test]
fn a_sink_tells_its_puts(rt: HostRuntime) -> Result<(), Fail> {
    assert!(rt; tells_puts(rt.alloc())?);
    Ok(())
}
