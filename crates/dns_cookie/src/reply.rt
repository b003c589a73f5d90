//! What a reply says of cookies.

ghost use Rattle.std.specs.Prelude.{◌≡◌, ◌≤◌, ℕ, length, IfOk};
ghost use Rattle.std.specs.Option.{option_copied};
ghost use Rattle.dns_message.specs.declared.message.Message.{Message};
ghost use Rattle.message_walk.specs.declared.sections.OptSeen.TheVariants.{Extends};
ghost use Rattle.dns_cookie.specs.Places.{IsPlacedIn};
ghost use Rattle.dns_cookie.specs.Reply as meaning;

use crate::options::cookie_in;
use crate::places::{additionals_of, opt_rdata, u16_at};
use item_list::{Bytes, NoMemory};
use message_walk::OptSeen;
use std::alloc::Global;

/// The numbers of the response code's four bits in the flags (RFC 1035, section 4.1.1).
const RCODES: u16 = 16;

/// What a reply says of cookies (RFC 7873, sections 4 and 5.3).
#[derive(Debug, Drop)]
pub struct CookieReply {
    pub id: u16,
    /// Its response code of twelve bits (RFC 6891, section 6.1.3).
    pub rcode: u16,
    /// The content of its first cookie option, if it has one.
    pub cookie: Option<Bytes>,
}

/// What a datagram says of cookies. There is none where it is no message, or has OPT records that can't be read. The datagram
/// is read where it stands: memory is taken for the cookie alone.
pub fn read_reply(alloc: Global, bytes: &[u8]) -> Result<Option<CookieReply>, NoMemory>
    ensures { IfOk result (λ reply. reply ≡ meaning.reply_in bytes.now) }
{
    let Ok((at, opt)) = additionals_of(bytes) else {
        return Ok(None);
    };
    reply_of(alloc, bytes, at, opt)
}

/// What the bytes of a message say of cookies, whose additional records stand at an offset, and whose OPT records say this.
#[tactic(auto, using(crate::proofs::ReplyLemmas::reply_plain, crate::proofs::ReplyLemmas::reply_unread, crate::proofs::ReplyLemmas::reply_extends))]
fn reply_of(
    alloc: Global,
    bytes: &[u8],
    at: usize,
    opt: OptSeen,
) -> Result<Option<CookieReply>, NoMemory>
    requires { 12 ≤ length bytes.now }
    ensures { (m : Message) → IsPlacedIn bytes.now at opt m → IfOk result (λ reply. reply ≡ meaning.reply_of m) }
{
    let code = match opt {
        OptSeen::Absent => {
            return Ok(Some(CookieReply {
                id: u16_at(bytes, 0),
                rcode: u16_at(bytes, 2) % RCODES,
                cookie: None,
            }));
        }
        OptSeen::Unread => return Ok(None),
        OptSeen::Extends(code) => code,
    };
    Ok(Some(CookieReply {
        id: u16_at(bytes, 0),
        rcode: code as u16 * RCODES + u16_at(bytes, 2) % RCODES,
        cookie: copied(alloc, cookie_at(bytes, at))?,
    }))
}

/// The cookie of the OPT record among a message's additional records, which stand at an offset.
fn cookie_at(bytes: &[u8], at: usize) -> Option<&[u8]>
    requires { 12 ≤ length bytes.now }
    ensures { (m : Message) (code : ℕ) → IsPlacedIn bytes.now at (Extends code) m
        → option_copied result ≡ meaning.cookie_in m }
{
    let rdata = opt_rdata(bytes, at, u16_at(bytes, 10))?;
    cookie_in(rdata)
}

/// The bytes, if there are any, in memory of their own.
fn copied(alloc: Global, bytes: Option<&[u8]>) -> Result<Option<Bytes>, NoMemory>
    ensures { IfOk result (λ copy. copy ≡ option_copied bytes.entry) }
{
    match bytes {
        Some(bytes) => Ok(Some(Bytes::of(alloc, bytes)?)),
        None => Ok(None),
    }
}
