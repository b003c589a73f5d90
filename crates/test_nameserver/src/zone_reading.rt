//! A zone's text, line by line.

ghost use Rattle.std.specs.Prelude.{◌≡◌, ◌≤◌, length};
ghost use Rattle.test_nameserver.specs.Lines.{Gives, zone_of, lines_read, line_added};
ghost use Rattle.text_lines.specs.Lines.{lines_of};

use crate::fault::ZoneFault;
use crate::line_reading::{is_comment, record_in};
use crate::zone::Zone;
use std::alloc::Global;
use text_lines::lines_in;

/// The most bytes of a zone's text (this project's profile).
const TEXT_MOST: usize = 1_048_576;

/// The zone with the record of a line behind its others, where the line says something.
fn add_line(alloc: Global, zone: Zone, line: &[u8], number: u64) -> Result<Zone, ZoneFault>
    ensures { Gives result (line_added zone line.now number) }
{
    if is_comment(line) {
        return Ok(zone);
    }
    match record_in(alloc, line)? {
        Some(item) => Ok(zone.with(alloc, item)?),
        None => Err(ZoneFault::BadLine(number)),
    }
}

/// What the lines of a text say.
fn read_lines(alloc: Global, text: &[u8]) -> Result<Zone, ZoneFault>
    requires { length text.now ≤ 1048576 }
    ensures { Gives result (lines_read (lines_of text.now)) }
{
    let mut zone = Zone::empty(alloc);
    let mut number = 1;
    for line in lines_in(text) {
        match add_line(alloc, zone, line, number) {
            Ok(after) => zone = after,
            Err(fault) => return Err(fault),
        }
        number += 1;
    }
    Ok(zone)
}

impl Zone {
    /// The zone that a text says, each line a record: `NAME TTL TYPE VALUE`. Lines that are empty or begin with `#` say
    /// nothing. The fault tells the first line that has another form.
    pub fn read(alloc: Global, bytes: &[u8]) -> Result<Zone, ZoneFault>
        ensures { Gives result (zone_of bytes.now) }
    {
        if bytes.len() > TEXT_MOST {
            return Err(ZoneFault::TooLarge);
        }
        read_lines(alloc, bytes)
    }
}
