//! How long an attempt is given, and how many attempts a leg has.

ghost use Rattle.std.specs.Prelude.{◌≡◌, ◌≢◌, ◌*◌, ◌-◌, ◌^◌, min};
ghost use Rattle.channel_model.specs.Choice.{wait_of};

use resolv_options::Options;

/// The most doublings of a timeout (this project's profile).
const DOUBLINGS_MOST: u32 = 9;

/// How long the next attempt of a leg is given, in milliseconds, where so many of its attempts are spent and so many servers
/// in use: the timeout, doubled with each round of the servers, nine times at most; or the longest wait, where one is set
/// and is shorter.
pub fn wait_of(options: &Options, spent: u32, used: u32) -> u64
    requires { used ≢ 0 }
    ensures { result ≡ wait_of options.now spent used }
{
    let doublings = (spent / used).min(DOUBLINGS_MOST);
    let wait = (options.timeout() as u64) << doublings;
    let most = options.max_timeout() as u64;
    if most != 0 && most < wait { most } else { wait }
}

/// How many attempts a leg has, where so many servers are in use: so many tries of each. The number stops at the greatest
/// of 32 bits.
pub fn attempts(options: &Options, used: u32) -> u32
    ensures { result ≡ min (used * options.now.tries) (2 ^ 32 - 1) }
{
    used.saturating_mul(options.tries() as u32)
}
