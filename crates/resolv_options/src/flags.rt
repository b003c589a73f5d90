//! The switches of a channel.

/// What queries and replies are to be like: eight switches of a channel, with the names of c-ares.
#[derive(Clone, Copy, Debug, PartialEq, Eq)]
pub struct Flags {
    /// Every query goes over TCP.
    pub usevc: bool,
    /// Only the first server is asked.
    pub primary: bool,
    /// A truncated reply over UDP counts, and isn't asked again over TCP.
    pub igntc: bool,
    /// Queries don't ask for recursion (RFC 1035, section 4.1.1: RD).
    pub norecurse: bool,
    /// A name is asked as it is, without the search list.
    pub nosearch: bool,
    /// A reply that tells of a server's failure or refusal counts, and isn't tried again.
    pub nocheckresp: bool,
    /// Queries have an OPT record (RFC 6891, section 6).
    pub edns: bool,
    /// The letters of a question over UDP get a random case, and a reply has to repeat it.
    pub mix: bool,
}
