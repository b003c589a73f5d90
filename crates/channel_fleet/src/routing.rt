//! Which channel of a fleet a request goes to.

ghost use Rattle.std.specs.Prelude.{◌≡◌, ◌≢◌, sum_by};
ghost use Rattle.std.specs.Char.{to_ascii_lowercase};
ghost use Rattle.channel_fleet.specs.Routing.{route_of, text_of};

use chan_types::Spec;

/// The index of the channel, among so many, that this request goes to: requests with one text go to one channel, in whatever
/// case its letters are.
pub fn route(spec: &Spec, channels: u64) -> u64
    requires { channels ≢ 0 }
    ensures { result ≡ route_of spec.now channels }
{
    (sum_of(text_in(spec)) % channels as u128) as u64
}

/// The text that a request asks with.
fn text_in(spec: &Spec) -> &[u8]
    ensures { result.now ≡ text_of spec.now }
{
    match spec {
        Spec::Query { name, .. } => name.as_slice(),
        Spec::Search { name, .. } => name.as_slice(),
        Spec::Address { host, .. } => host.as_slice(),
        Spec::Reverse { .. } => &[],
    }
}

/// The sum of these bytes, letters in lower case. It has room: there are fewer than 2^64, and each is below 256.
fn sum_of(bytes: &[u8]) -> u128
    ensures { result ≡ sum_by to_ascii_lowercase bytes.now }
{
    let mut sum = 0u128;
    for byte in bytes {
        sum += byte.to_ascii_lowercase() as u128;
    }
    sum
}
