//! Words that are refused: one line for each rule.

use super::{RUN, Scenario, Sent, Wanted, leaves};
use std::alloc::Global;
use std::test::Fail;

/// An option twice, a flag twice, a flag with `=`, an unknown option, one of ahost, a short option, no help; a value that
/// is missing, empty, or begins with `-`; values that can't be read; no name, two names, and a name that is no address.
const LINES: &str = "--port 1 --port=2 x
--tcp --tcp x
--tcp=1 x
--tcp= x
--dns x
--family 4 x
-x x
--help
x --port
--port -- x
--port -5 x
--port= x
--port 0 x
--port 65536 x
--port 053 x
--port +5 x
--timeout 0 x
--timeout 60001 x
--tries 0 x
--tries 11 x
--server= x
--server a x
--server 192.0.2.1, x
--server 1.1.1.1,1.1.1.1,1.1.1.1,1.1.1.1,1.1.1.1,1.1.1.1,1.1.1.1,1.1.1.1,1.1.1.1 x
--resolv= x
--type OPT x
--type TYPE65536 x
--tcp
--
x y
-- x y
--reverse example.com
--reverse --type X 192.0.2.1";

/// The usage line is put, and nothing is called.
const USAGE: Wanted<'static> = Wanted {
    status: 2,
    put: "adig: usage\n",
    journal: "",
    calls: "",
    called: 0,
    sent: Sent::All(b""),
};

/// Whether the words are refused.
fn is_refused(alloc: Global, line: &str) -> Result<bool, Fail> {
    let scenario = Scenario { line, ..RUN };
    leaves(alloc, &scenario, &USAGE)
}

/// The first of these lines that isn't refused; nothing where each is.
fn first_taken(alloc: Global, lines: &str) -> Result<&str, Fail> {
    for line in lines.split('\n') {
        if !is_refused(alloc, line)? {
            return Ok(line);
        }
    }
    Ok("")
}

#[test]
fn each_line_is_refused(rt: HostRuntime) -> Result<(), Fail> {
    assert_eq!(rt; first_taken(rt.alloc(), LINES)?, "");
    Ok(())
}
