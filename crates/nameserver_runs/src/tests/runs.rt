//! Runs of the nameserver over a listener in memory.

ghost use Rattle.std.specs.Prelude.{IfOk};
ghost use Rattle.test_nameserver.specs.MemListener.{IsMessage};

use net_world::{MemFiles, MemSink, Sent};
use std::alloc::Global;
use std::collections::BTreeMap;
use std::test::Fail;
use test_nameserver::*;

/// A query for the address of h3.load.test. (RFC 1035, section 4.1), and the reply of a zone without that name.
const QUERY: &[u8] = b"\x12\x34\x01\0\0\x01\0\0\0\0\0\0\x02h3\x04load\x04test\0\0\x01\0\x01";

const REPLY: &[u8] = b"\x12\x34\x85\x83\0\x01\0\0\0\0\0\0\x02h3\x04load\x04test\0\0\x01\0\x01";

/// The lines that are understood, with a count.
const ONE: &str = "--port 5353 --zone z --count 1";

const THREE: &str = "--port 5353 --zone z --count 3";

const FOUR: &str = "--port 5353 --zone z --count 4";

/// What a run is made of: its command line, the text of the file `z`, and the numbers of the calls of files, output and
/// listener that fail.
#[derive(Clone, Copy)]
struct Scene<'a> {
    line: &'a str,
    zone: &'a str,
    reads: &'a [u64],
    puts: &'a [u64],
    hears: &'a [u64],
}

/// A run that takes one message, over a zone of one record. No call fails.
const PLAIN: Scene<'static> = Scene {
    line: ONE,
    zone: "a.test. 60 A 192.0.2.1",
    reads: &[],
    puts: &[],
    hears: &[],
};

/// What a run comes to: its exit status, what it puts, and how often it calls the listener.
#[derive(Clone, Copy)]
struct End<'a> {
    status: u8,
    text: &'a str,
    calls: usize,
}

/// How a run ends whose words are refused.
const USAGE_END: End<'static> = End {
    status: 2,
    text: "tns: usage\n",
    calls: 0,
};

/// The outside of a run.
#[derive(Drop)]
struct Outside {
    files: MemFiles,
    sink: MemSink,
    listener: MemListener,
}

/// The words of a command line: its parts between blanks.
fn words_of(alloc: Global, line: &str) -> Result<Vec<&str>, Fail> {
    let mut words = Vec::new(alloc);
    for word in line.split(' ') {
        words.push(word)?;
    }
    Ok(words)
}

/// The name `z` and a text.
fn named(alloc: Global, text: &str) -> Result<(String, Bytes), Fail> {
    let name = String::from_str(alloc, "z")?;
    Ok((name, Bytes::of(alloc, text.as_bytes())?))
}

/// A file of that name and text.
fn one_file(alloc: Global, text: &str) -> Result<BTreeMap<String, Bytes>, Fail> {
    let (name, bytes) = named(alloc, text)?;
    let mut files = BTreeMap::new(alloc);
    files.insert(name, bytes)?;
    Ok(files)
}

/// Files of which `z` has this text. The reads with these numbers fail.
fn files_of(alloc: Global, text: &str, fails: &[u64]) -> Result<MemFiles, Fail> {
    let files = one_file(alloc, text)?;
    Ok(MemFiles::make(files, Vec::from_slice(alloc, fails)?))
}

/// An output of which the calls with these numbers fail.
fn sink_of(alloc: Global, fails: &[u64]) -> Result<MemSink, Fail> {
    Ok(MemSink::make(Vec::from_slice(alloc, fails)?))
}

/// A message, and whether it came over TCP.
fn message(alloc: Global, tcp: bool, bytes: &[u8]) -> Result<Heard, Fail>
    ensures { IfOk result IsMessage }
{
    let bytes = Bytes::of(alloc, bytes)?;
    Ok(Heard::Message { tcp, bytes })
}

/// A listener that hears the query over UDP and TCP, and between the two a message that is no query. Its calls with
/// these numbers fail.
fn listener_of(alloc: Global, fails: &[u64]) -> Result<MemListener, Fail> {
    let fails = Vec::from_slice(alloc, fails)?;
    let messages = vec![in alloc;
        message(alloc, false, QUERY)?,
        message(alloc, false, b"\x12")?,
        message(alloc, true, QUERY)?,
    ]?;
    Ok(MemListener::make(messages, fails))
}

/// The outside before a run.
fn outside_of(alloc: Global, scene: &Scene<'_>) -> Result<Outside, Fail> {
    Ok(Outside {
        files: files_of(alloc, scene.zone, scene.reads)?,
        sink: sink_of(alloc, scene.puts)?,
        listener: listener_of(alloc, scene.hears)?,
    })
}

/// The exit status of a run by this line.
fn status_of(alloc: Global, line: &str, outside: &mut Outside) -> Result<u8, Fail> {
    let words = words_of(alloc, line)?;
    Ok(run(
        alloc,
        words.as_slice(),
        &mut outside.files,
        &mut outside.sink,
        &mut outside.listener,
    ))
}

/// Whether a run ends so.
fn ends_so(alloc: Global, scene: &Scene<'_>, end: &End<'_>) -> Result<bool, Fail> {
    let mut outside = outside_of(alloc, scene)?;
    let status = status_of(alloc, scene.line, &mut outside)?;
    Ok(status == end.status && has_left(&outside, end))
}

/// Whether a run has put this text, and called the listener so often.
fn has_left(outside: &Outside, end: &End<'_>) -> bool {
    outside.sink.bytes() == end.text.as_bytes() && outside.listener.log().len() == end.calls
}

/// Whether these are the calls of a run that takes one message.
fn is_one_turn(calls: &[ListenerCall]) -> bool {
    match calls {
        [
            ListenerCall::Listen {
                port: 5353,
                sent: Sent::Sent,
            },
            ListenerCall::Next {
                heard: Heard::Message { tcp: false, bytes },
            },
            ListenerCall::Reply {
                bytes: reply,
                sent: Sent::Sent,
            },
        ] => bytes.as_slice() == QUERY && reply.as_slice() == REPLY,
        _ => false,
    }
}

/// Whether a plain run calls the listener so, and puts nothing.
fn answers_one(alloc: Global) -> Result<bool, Fail> {
    let mut outside = outside_of(alloc, &PLAIN)?;
    let status = status_of(alloc, ONE, &mut outside)?;
    Ok(status == 0 && is_one_turn(outside.listener.log()) && outside.sink.bytes().is_empty())
}

#[test]
fn a_run_answers(rt: HostRuntime) -> Result<(), Fail> {
    assert!(rt; answers_one(rt.alloc())?);
    Ok(())
}

/// A run and its end.
type Case = (Scene<'static>, End<'static>);

/// Runs without a failure. Of three messages two are queries, and behind the third there is none.
const MESSAGES: &[Case] = &[
    (
        Scene {
            line: THREE,
            ..PLAIN
        },
        End {
            status: 0,
            text: "",
            calls: 6,
        },
    ),
    (
        Scene {
            line: FOUR,
            ..PLAIN
        },
        End {
            status: 6,
            text: "tns: socket fault\n",
            calls: 7,
        },
    ),
];

#[test]
fn runs_end_with_their_messages(rt: HostRuntime) -> Result<(), Fail> {
    for (scene, end) in MESSAGES {
        assert!(rt; ends_so(rt.alloc(), scene, end)?, "{}", scene.line);
    }
    Ok(())
}

/// The call to listen fails, one to hear, one to read the zone, and the one to put the text behind that.
const FAILURES: &[Case] = &[
    (
        Scene {
            hears: &[0],
            ..PLAIN
        },
        End {
            status: 6,
            text: "tns: socket fault\n",
            calls: 1,
        },
    ),
    (
        Scene {
            line: THREE,
            hears: &[2],
            ..PLAIN
        },
        End {
            status: 6,
            text: "tns: socket fault\n",
            calls: 3,
        },
    ),
    (
        Scene {
            reads: &[0],
            ..PLAIN
        },
        End {
            status: 3,
            text: "tns: file fault\n",
            calls: 0,
        },
    ),
    (
        Scene {
            reads: &[0],
            puts: &[0],
            ..PLAIN
        },
        End {
            status: 4,
            text: "",
            calls: 0,
        },
    ),
];

#[test]
fn failures_end_a_run(rt: HostRuntime) -> Result<(), Fail> {
    for (scene, end) in FAILURES {
        assert!(rt; ends_so(rt.alloc(), scene, end)?, "{}", scene.line);
    }
    Ok(())
}

/// A file is absent, and one is no zone.
const FILES: &[Case] = &[
    (
        Scene {
            line: "--port 1 --zone y --count 65535",
            ..PLAIN
        },
        End {
            status: 3,
            text: "tns: file fault\n",
            calls: 0,
        },
    ),
    (
        Scene {
            zone: "a.test. 60 A",
            ..PLAIN
        },
        End {
            status: 8,
            text: "tns: bad zone\n",
            calls: 0,
        },
    ),
];

#[test]
fn files_decide(rt: HostRuntime) -> Result<(), Fail> {
    for (scene, end) in FILES {
        assert!(rt; ends_so(rt.alloc(), scene, end)?, "{}", scene.zone);
    }
    Ok(())
}

/// Files of which `z` is a byte too large.
fn large_file(alloc: Global) -> Result<MemFiles, Fail> {
    let mut bytes = Vec::new(alloc);
    bytes.resize(1_048_577, b'#')?;
    let mut files = BTreeMap::new(alloc);
    files.insert(String::from_str(alloc, "z")?, Bytes::from_vec(bytes))?;
    Ok(MemFiles::make(files, Vec::new(alloc)))
}

/// Whether a run over such a file ends for it.
fn large_file_ends(alloc: Global) -> Result<bool, Fail> {
    let mut outside = outside_of(alloc, &PLAIN)?;
    outside.files = large_file(alloc)?;
    let status = status_of(alloc, ONE, &mut outside)?;
    Ok(status == 3 && outside.sink.bytes() == b"tns: file fault\n".as_slice())
}

#[test]
fn a_large_file_is_a_fault(rt: HostRuntime) -> Result<(), Fail> {
    assert!(rt; large_file_ends(rt.alloc())?);
    Ok(())
}

/// Command lines that are refused, one a line.
const REFUSED: &str = "
--port 5353 --zone z
--port 5353 --zone z --count 1 x
--zone z --port 5353 --count 1
--port 5353 --count 1 --zone z
--port=5353 --zone z --count 1
--port 0 --zone z --count 1
--port 65536 --zone z --count 1
--port 053 --zone z --count 1
--port +53 --zone z --count 1
--port 5353 --zone  --count 1
--port 5353 --zone z --count 0
--port 5353 --zone z --count 65536
--port 5353 --zone z --count -1
--Port 5353 --zone z --count 1
--port 5353 --file z --count 1
--port 5353 --zone z --number 1";

#[test]
fn words_are_refused(rt: HostRuntime) -> Result<(), Fail> {
    for line in REFUSED.split('\n') {
        let scene = Scene { line, ..PLAIN };
        assert!(rt; ends_so(rt.alloc(), &scene, &USAGE_END)?, "{line}");
    }
    Ok(())
}
