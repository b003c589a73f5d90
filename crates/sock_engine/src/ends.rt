//! What the answers of the system's calls mean.

ghost use Rattle.std.specs.Prelude.{◌≡◌, ◌≢◌, IfOk, IfErr};
ghost use Rattle.std.specs.IoError.{error_kind, raw_os_error};
ghost use Rattle.sock_engine.specs.declared.ends.Moved.TheVariants.{Done, Blocked, Again, Failed};
ghost use Rattle.sock_engine.specs.Ends.{write_end, patience as patience_of};
ghost use Rattle.sock_engine.specs.LocalFailures.{failure_by_code};

use crate::local_failure::{LocalFailure, local_failure};
use net_world::Wrote;
use std::io;
use std::io::ErrorKind;
use std::time::Duration;

/// How a call on a socket that never waits ended.
#[derive(Clone, Copy, Debug, PartialEq, Eq)]
pub(crate) enum Moved {
    /// It moved so many bytes.
    Done(usize),
    /// It would have had to wait.
    Blocked,
    /// A signal came first.
    Again,
    /// The system told an error, which may be this machine's own.
    Failed(Option<LocalFailure>),
}

/// How such a call ended, from what it answered.
pub(crate) fn moved_of(ended: io::Result<usize>) -> Moved
    ensures done { IfOk ended (λ count. result ≡ Done count) }
    ensures blocked { IfErr ended (λ e. error_kind e ≡ ErrorKind.WouldBlock → result ≡ Blocked) }
    ensures again { IfErr ended (λ e. error_kind e ≡ ErrorKind.Interrupted → result ≡ Again) }
    ensures failed { IfErr ended
        (λ e. error_kind e ≢ ErrorKind.WouldBlock → error_kind e ≢ ErrorKind.Interrupted
        → result ≡ Failed (failure_by_code (raw_os_error e))) }
{
    match ended {
        Ok(count) => Moved::Done(count),
        Err(error) => match error.kind() {
            ErrorKind::WouldBlock => Moved::Blocked,
            ErrorKind::Interrupted => Moved::Again,
            _ => Moved::Failed(local_failure(&error)),
        },
    }
}

/// What a write to a link answers.
pub(crate) fn wrote_of(moved: Moved) -> Wrote
    ensures { result ≡ write_end moved }
{
    match moved {
        Moved::Done(count) => Wrote::Count(count),
        Moved::Blocked | Moved::Again => Wrote::Count(0),
        Moved::Failed(_) => Wrote::Failed,
    }
}

/// How long a wait lasts at most while a socket rests, in milliseconds: what came to it beside the replies is found then.
const REST_MILLIS: u64 = 10;

/// How many milliseconds a wait may last, of those that are left.
pub(crate) fn patience(is_pending: bool, is_resting: bool, left: u64) -> u64
    ensures { result ≡ patience_of is_pending is_resting left }
{
    if is_pending {
        0
    } else if is_resting {
        left.min(REST_MILLIS)
    } else {
        left
    }
}
