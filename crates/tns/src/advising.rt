//! What is said on standard error by the exit status.

ghost use Rattle.std.specs.Prelude.{◌≡◌, ◌==◌, ◌||◌, is_some};

/// What to do about an exit status, with an LF at its end; with 2 it is the form of the words. There is something to do
/// exactly for 2, 3, 5, 6 and 8.
pub fn advice(status: u8) -> Option<&'static str>
    ensures { is_some result ≡ ((status == 2) || (status == 3) || (status == 5) || (status == 6) || (status == 8)) }
{
    match status {
        2 => Some(
            "usage: tns --port NUMBER --zone PATH --count NUMBER\n  --port NUMBER    the port of 127.0.0.1, 1 to 65535\n  --zone PATH      the zone's file, a record NAME TTL TYPE VALUE on each line\n  --count NUMBER   behind how many messages it ends, 1 to 65535\n",
        ),
        3 => Some(
            "name a file that stands, can be read and has at most 1,048,576 bytes by --zone\n",
        ),
        5 => Some("run it again where more memory is left, or with a smaller zone\n"),
        6 => Some("take another --port: this one may be taken, or kept for the system's users\n"),
        8 => Some(
            "mend the zone's file: each line is NAME TTL TYPE VALUE, as in www.example. 300 A 192.0.2.1\n",
        ),
        _ => None,
    }
}
