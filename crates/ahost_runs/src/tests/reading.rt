//! Which files a run reads, in which order and with which limits, and what it puts, call by call.

use super::outcome::outcome_in;
use super::outside::{Outside, outside_of};
use super::statuses::{AT_ONCE, SILENT};
use super::telling::{puts_told, reads_told};
use super::{RUN, Scenario};
use std::alloc::Global;
use std::test::Fail;

/// A run, and the lines of its reads and of its puts.
#[derive(Clone, Copy)]
struct Row {
    shows: &'static str,
    run: Scenario<'static>,
    reads: &'static str,
    puts: &'static str,
}

/// The reads of a run over no files.
const BOTH_ABSENT: &str = "/etc/resolv.conf 65536 absent\n/etc/hosts 4194304 absent\n";

const BOTH_ARE_READ_ONCE: Row = Row {
    shows: "resolv.conf and then the hosts file are read, and the page is put at once",
    run: Scenario {
        line: AT_ONCE,
        resolv: Some(b"#"),
        hosts: Some(b"##"),
        ..RUN
    },
    reads: "/etc/resolv.conf 65536 1 bytes\n/etc/hosts 4194304 2 bytes\n",
    puts: "done 192.0.2.1 0 SUCCESS\n  192.0.2.1\n",
};

const PATHS_OF_THE_WORDS: Row = Row {
    shows: "the paths of the words are read, and resolv.conf first wherever the words name it",
    run: Scenario {
        line: "--hosts h --resolv r --server 192.0.2.53 192.0.2.1",
        ..RUN
    },
    reads: "r 65536 absent\nh 4194304 absent\n",
    puts: "done 192.0.2.1 0 SUCCESS\n  192.0.2.1\n",
};

const A_FIRST_FAULT_ENDS_IT: Row = Row {
    shows: "behind a resolv.conf that can't be read the hosts file isn't read",
    run: Scenario {
        line: AT_ONCE,
        read_fails: &[0],
        ..RUN
    },
    reads: "/etc/resolv.conf 65536 failed\n",
    puts: "done ahost: file fault\n",
};

const A_SECOND_FAULT_ENDS_IT: Row = Row {
    shows: "a hosts file that can't be read isn't read again",
    run: Scenario {
        line: AT_ONCE,
        read_fails: &[1],
        ..RUN
    },
    reads: "/etc/resolv.conf 65536 absent\n/etc/hosts 4194304 failed\n",
    puts: "done ahost: file fault\n",
};

const REFUSED_WORDS_READ_NOTHING: Row = Row {
    shows: "refused words read nothing",
    run: Scenario { line: "", ..RUN },
    reads: "",
    puts: "done ahost: usage\n",
};

const A_LOAD_READS_NOTHING: Row = Row {
    shows: "a load reads nothing",
    run: Scenario {
        line: "--load 3 --seed 1",
        ..RUN
    },
    reads: "",
    puts: "done load 3 seed 1\naccepted 3\ncalled 3\ngood 3\nbad 0\nstarts 4\nexpires 1\n",
};

const A_PUT_THAT_FAILS_IS_THE_ONLY_ONE: Row = Row {
    shows: "a put that fails isn't made again",
    run: Scenario {
        line: AT_ONCE,
        put_fails: &[0],
        ..RUN
    },
    reads: BOTH_ABSENT,
    puts: "failed 192.0.2.1 0 SUCCESS\n  192.0.2.1\n",
};

const A_STALLED_RUN_PUTS_ITS_LINE: Row = Row {
    shows: "the line in place of a page is put at once",
    run: Scenario {
        line: SILENT,
        turns: 0,
        ..RUN
    },
    reads: BOTH_ABSENT,
    puts: "done ahost: stalled\n",
};

const ROWS: &[Row] = &[
    BOTH_ARE_READ_ONCE,
    PATHS_OF_THE_WORDS,
    A_FIRST_FAULT_ENDS_IT,
    A_SECOND_FAULT_ENDS_IT,
    REFUSED_WORDS_READ_NOTHING,
    A_LOAD_READS_NOTHING,
    A_PUT_THAT_FAILS_IS_THE_ONLY_ONE,
    A_STALLED_RUN_PUTS_ITS_LINE,
];

/// Whether a run makes these reads and these puts, and no other.
fn makes_these(alloc: Global, row: &Row) -> Result<bool, Fail> {
    makes_in(alloc, row, &mut outside_of(alloc, &row.run)?)
}

/// The same of a run that is lent this.
fn makes_in(alloc: Global, row: &Row, outside: &mut Outside) -> Result<bool, Fail> {
    outcome_in(alloc, &row.run, outside)?;
    let reads = reads_told(alloc, outside.files.reads())?;
    let puts = puts_told(alloc, outside.sink.puts())?;
    Ok(reads.as_slice() == row.reads.as_bytes() && puts.as_slice() == row.puts.as_bytes())
}

/// What the first of these runs shows that makes others; nothing where none does.
fn first_other<'a>(alloc: Global, rows: &'a [Row]) -> Result<&'a str, Fail> {
    for row in rows {
        if !makes_these(alloc, row)? {
            return Ok(row.shows);
        }
    }
    Ok("")
}

#[test]
fn files_are_read_and_text_is_put_once(rt: HostRuntime) -> Result<(), Fail> {
    assert_eq!(rt; first_other(rt.alloc(), ROWS)?, "");
    Ok(())
}
