//! The numbers of the standard streams.

use std::fs::{File, Files};
use std::os::fd::AsRawFd;

/// The greatest number of a standard stream.
const LAST_STREAM: i32 = 2;

/// Holds the numbers of standard streams that were closed when the program was started. Else a socket would be given such a
/// number, and what is put would go to a nameserver. Nothing can be written to what stands there, and nothing be read.
#[derive(Drop)]
pub struct Streams {
    _first: Option<File>,
    _second: Option<File>,
    _third: Option<File>,
}

impl Streams {
    /// Takes the numbers of closed streams, if there are any. To be made before anything is opened, and kept to the end.
    pub fn hold<R: Files<File = File>>(rt: &R) -> Streams {
        let first = stand_in(rt);
        let second = stand_in(rt);
        let third = stand_in(rt);
        Streams {
            _first: first,
            _second: second,
            _third: third,
        }
    }
}

/// A file with the number of a stream, where one is closed.
fn stand_in<R: Files<File = File>>(rt: &R) -> Option<File> {
    let file = File::open(rt, "/dev/null").ok()?;
    if file.as_raw_fd() <= LAST_STREAM {
        Some(file)
    } else {
        None
    }
}
