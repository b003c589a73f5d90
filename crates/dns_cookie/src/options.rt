//! The cookie among the options of an OPT record (RFC 6891, section 6.1.2; RFC 7873, section 4).

ghost use Rattle.std.specs.Prelude.{◌≡◌, Ok, List, option_map};
ghost use Rattle.std.specs.Option.{option_copied};
ghost use Rattle.edns_opt.specs.Reading.{first_option, options_of};
ghost use Rattle.edns_opt.specs.declared.opt.EdnsItem.{EdnsItem};
ghost use Rattle.dns_cookie.specs.Places.{option_seen};
ghost use Rattle.dns_cookie.specs.Reply.{first_cookie};

use crate::adding::COOKIE_CODE;

/// The content of the first cookie option of rdata, which is known to be options.
pub(crate) fn cookie_in(rdata: &[u8]) -> Option<&[u8]>
    ensures { (items : List EdnsItem) → options_of rdata.now ≡ Ok items → option_copied result ≡ first_cookie items }
{
    let mut rest = rdata;
    while !rest.is_empty() {
        let Some((code, content, behind)) = front_option(rest) else {
            return None;
        };
        if code == COOKIE_CODE {
            return Some(content);
        }
        rest = behind;
    }
    None
}

/// The code and the content of the option at the front of the bytes, and the bytes behind it.
fn front_option(bytes: &[u8]) -> Option<(u16, &[u8], &[u8])>
    ensures { first_option bytes.now ≡ option_map option_seen result }
{
    let [a, b, c, d, rest @ ..] = bytes else {
        return None;
    };
    let len = u16::from_be_bytes([*c, *d]) as usize;
    if rest.len() < len {
        return None;
    }
    let (content, behind) = rest.split_at(len);
    Some((u16::from_be_bytes([*a, *b]), content, behind))
}
