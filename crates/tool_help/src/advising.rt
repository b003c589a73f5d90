//! What to do about an exit status.

ghost use Rattle.std.specs.Prelude.{◌≡◌, is_some};
ghost use Rattle.tool_help.specs.Advice.{has_advice};

use tool_line::Tool;

/// A sentence of what to do about this exit status of a tool, with its LF. There is one exactly for 3, 5, 6 and 7.
pub fn advice(tool: Tool, status: u8) -> Option<&'static str>
    ensures { is_some result ≡ has_advice status }
{
    match status {
        3 => Some(file_advice(tool)),
        5 => Some("nothing was put: run it again where more memory is left\n"),
        6 => Some(
            "the system refused to wait for sockets: run it again with fewer processes or open files beside it\n",
        ),
        7 => Some(
            "a request was still pending: a smaller --timeout, or fewer --tries, ends it sooner\n",
        ),
        _ => None,
    }
}

/// What to do where a file can't be read or is too large.
fn file_advice(tool: Tool) -> &'static str {
    match tool {
        Tool::Adig => "name a file of at most 65,536 bytes that can be read by --resolv\n",
        Tool::Ahost => {
            "name files that can be read by --resolv (at most 65,536 bytes) and --hosts (at most 4,194,304)\n"
        }
    }
}
