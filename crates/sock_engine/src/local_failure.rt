//! What on this machine itself makes the network fail, as against a server that refuses.

ghost use Rattle.std.specs.Prelude.{◌≡◌, IfSome};
ghost use Rattle.std.specs.IoError.{raw_os_error};
ghost use Rattle.sock_engine.specs.LocalFailures.{failure_of as failure_by, failure_by_code, text_of};

use std::io;

/// A failure of this machine, which no server brought about.
#[derive(Clone, Copy, Debug, PartialEq, Eq)]
pub enum LocalFailure {
    /// The process, or the system, has as many open files as it may (EMFILE, ENFILE).
    OpenFiles,
    /// No way leads to the server (EADDRNOTAVAIL, ENETDOWN, ENETUNREACH, EHOSTUNREACH).
    NoRoute,
    /// The system has no memory for a socket (ENOMEM, ENOBUFS).
    NoMemory,
    /// Something else, by the system's number, or 0 where it told none.
    Other(u32),
}

impl LocalFailure {
    /// What it is, in words.
    pub fn text(self) -> &'static str
        ensures { result.now ≡ text_of self }
    {
        match self {
            LocalFailure::OpenFiles => "too many open files",
            LocalFailure::NoRoute => "no route to a server",
            LocalFailure::NoMemory => "no memory for a socket",
            LocalFailure::Other(_) => "a failure of the system",
        }
    }
}

/// What this error of a socket tells of this machine. Nothing, where a server refused or was silent.
pub(crate) fn local_failure(error: &io::Error) -> Option<LocalFailure>
    ensures { result ≡ failure_by_code (raw_os_error error.now) }
{
    match error.raw_os_error() {
        Some(code) => failure_of(code.unsigned_abs()),
        None => Some(LocalFailure::Other(0)),
    }
}

/// The same, by the system's number of the error. ECONNREFUSED, ECONNRESET, ECONNABORTED, ENOTCONN, EPIPE and ETIMEDOUT are
/// the other side's.
fn failure_of(number: u32) -> Option<LocalFailure>
    ensures { result ≡ failure_by number }
{
    match number {
        32 | 103 | 104 | 107 | 110 | 111 => None,
        23 | 24 => Some(LocalFailure::OpenFiles),
        99 | 100 | 101 | 113 => Some(LocalFailure::NoRoute),
        12 | 105 => Some(LocalFailure::NoMemory),
        _ => Some(LocalFailure::Other(number)),
    }
}

/// The first of two, where there is one.
pub(crate) fn first_failure(
    first: Option<LocalFailure>,
    second: Option<LocalFailure>,
) -> Option<LocalFailure>
    ensures { IfSome first (λ failure. result ≡ first) }
{
    match first {
        Some(_) => first,
        None => second,
    }
}
