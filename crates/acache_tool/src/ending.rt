//! The texts that acache puts in place of a page.

ghost use Rattle.std.specs.Prelude.{◌≡◌, option_map};
ghost use Rattle.acache_tool.specs.Output as meaning;

use tool_line::Exit;

/// The text that is put at this end in place of a page, with its LF. There is none where a page is put, or nothing is.
pub(crate) fn line_at(end: Exit) -> Option<&'static str>
    ensures { option_map (λ line. line.now) result ≡ meaning.line_at end }
{
    match end {
        Exit::Usage => Some("acache: usage\n"),
        Exit::WaitFault => Some("acache: wait fault\n"),
        Exit::Stalled => Some("acache: stalled\n"),
        Exit::Success | Exit::Failure | Exit::FileFault | Exit::SinkFault | Exit::OutOfMemory =>
            None,
    }
}
