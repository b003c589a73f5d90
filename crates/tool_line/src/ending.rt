//! How a tool ends: its exit statuses, and the texts that it puts in place of a page.

ghost use Rattle.std.specs.Prelude.{◌≡◌, codes, option_map};
ghost use Rattle.tool_line.specs.Ending as meaning;

/// How a run of a tool ends (this project's profile).
#[derive(Clone, Copy, Debug, PartialEq, Eq)]
pub enum Exit {
    /// Every request ended well.
    Success,
    /// All requests ended, and one didn't end well.
    Failure,
    /// The words are refused.
    Usage,
    /// A file can't be read, or is too large.
    FileFault,
    /// The output failed.
    SinkFault,
    /// Want of memory.
    OutOfMemory,
    /// A wait of the network failed.
    WaitFault,
    /// All turns were made, and a request was still pending.
    Stalled,
}

/// A tool.
#[derive(Clone, Copy, Debug, PartialEq, Eq)]
pub enum Tool {
    Adig,
    Ahost,
}

impl Exit {
    /// The exit status, as a number.
    pub fn number(self) -> u8
        ensures { result ≡ meaning.number_of self }
    {
        match self {
            Exit::Success => 0,
            Exit::Failure => 1,
            Exit::Usage => 2,
            Exit::FileFault => 3,
            Exit::SinkFault => 4,
            Exit::OutOfMemory => 5,
            Exit::WaitFault => 6,
            Exit::Stalled => 7,
        }
    }

    /// The text that the tool puts in place of a page, with its LF. There is none where it puts a page, or can put nothing.
    pub fn text(self, tool: Tool) -> Option<&'static str>
        ensures { option_map (λ text. text.now) result ≡ meaning.text_of tool self }
    {
        match self {
            Exit::Usage => Some(usage(tool)),
            Exit::FileFault => Some(file_fault(tool)),
            Exit::WaitFault => Some(wait_fault(tool)),
            Exit::Stalled => Some(stalled(tool)),
            Exit::Success | Exit::Failure | Exit::SinkFault | Exit::OutOfMemory => None,
        }
    }
}

/// The text for refused words.
fn usage(tool: Tool) -> &'static str
    ensures { result.now ≡ meaning.told tool (codes "usage") }
{
    match tool {
        Tool::Adig => "adig: usage\n",
        Tool::Ahost => "ahost: usage\n",
    }
}

/// The text for a file that can't be read.
fn file_fault(tool: Tool) -> &'static str
    ensures { result.now ≡ meaning.told tool (codes "file fault") }
{
    match tool {
        Tool::Adig => "adig: file fault\n",
        Tool::Ahost => "ahost: file fault\n",
    }
}

/// The text for a wait that failed.
fn wait_fault(tool: Tool) -> &'static str
    ensures { result.now ≡ meaning.told tool (codes "wait fault") }
{
    match tool {
        Tool::Adig => "adig: wait fault\n",
        Tool::Ahost => "ahost: wait fault\n",
    }
}

/// The text for a run that made all its turns.
fn stalled(tool: Tool) -> &'static str
    ensures { result.now ≡ meaning.told tool (codes "stalled") }
{
    match tool {
        Tool::Adig => "adig: stalled\n",
        Tool::Ahost => "ahost: stalled\n",
    }
}
