//! Why a channel refuses a request.

ghost use Rattle.std.specs.Prelude.{◌≡◌};
ghost use Rattle.chan_types.specs.Statuses.{refusal_number};

/// Why a channel refuses a request.
#[derive(Clone, Copy, Debug, PartialEq, Eq)]
pub enum Refusal {
    /// The channel was destroyed.
    Closed,
    /// Want of memory.
    NoMemory,
}

impl Refusal {
    /// Its number: 1 for a channel that was destroyed, 2 for want of memory.
    pub fn number(self) -> u8
        ensures { result ≡ refusal_number self }
    {
        match self {
            Refusal::Closed => 1,
            Refusal::NoMemory => 2,
        }
    }
}
