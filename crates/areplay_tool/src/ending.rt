//! How a run of areplay ends, and its exit statuses.

ghost use Rattle.std.specs.Prelude.{◌≡◌};
ghost use Rattle.areplay_tool.specs.Ending as meaning;

/// How a run of areplay ends (this project's profile).
#[derive(Clone, Copy, Debug, PartialEq, Eq)]
pub enum End {
    /// The stored journal is lawful.
    Lawful,
    /// An entry of the stored journal isn't allowed where it stands.
    Unlawful,
    /// The words aren't one path.
    Usage,
    /// The file can't be read, isn't there, or is too large.
    FileFault,
    /// The output failed.
    SinkFault,
    /// Want of memory.
    OutOfMemory,
    /// The file is no run's text, or that of one beyond its limits.
    BadBook,
}

impl End {
    /// The exit status, as a number.
    pub fn number(self) -> u8
        ensures { result ≡ meaning.number_of self }
    {
        match self {
            End::Lawful => 0,
            End::Unlawful => 1,
            End::Usage => 2,
            End::FileFault => 3,
            End::SinkFault => 4,
            End::OutOfMemory => 5,
            End::BadBook => 8,
        }
    }
}
