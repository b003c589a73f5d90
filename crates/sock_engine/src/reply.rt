//! Identifiers of datagrams (RFC 1035, section 4.1.1).

ghost use Rattle.std.specs.Prelude.{◌≡◌};
ghost use Rattle.sock_engine.specs.Reply.{id_of_reply};

/// How many bytes of a header stand behind its first three.
const HEADER_REST: usize = 9;

/// The lowest third byte of a message that is a reply: its highest bit is QR.
const QR: u8 = 0x80;

/// The identifier of a reply, if this may be one.
pub(crate) fn reply_id(bytes: &[u8]) -> Option<u16>
    ensures { result ≡ id_of_reply bytes.now }
{
    let [first, second, flags, rest @ ..] = bytes else {
        return None;
    };
    if rest.len() >= HEADER_REST && *flags >= QR {
        Some(u16::from_be_bytes([*first, *second]))
    } else {
        None
    }
}

/// The identifier of a query, if it is as long as one.
pub(crate) fn query_id(bytes: &[u8]) -> Option<u16> {
    let [first, second, ..] = bytes else {
        return None;
    };
    Some(u16::from_be_bytes([*first, *second]))
}
