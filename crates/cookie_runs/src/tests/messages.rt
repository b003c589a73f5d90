//! A query of example.com and replies to it, with an OPT record, byte by byte (RFC 1035, section 4.1; RFC 6891, section 6.1.2;
//! RFC 7873, section 4).

/// The query, with an OPT record of no option: 40 bytes.
pub const QUERY: &[u8] =
    b"\x12\x34\x01\0\0\x01\0\0\0\0\0\x01\x07example\x03com\0\0\x01\0\x01\0\0\x29\x04\xd0\0\0\0\0\0\0";

/// A query without an OPT record, with the same identifier: 29 bytes.
pub const PLAIN: &[u8] = b"\x12\x34\x01\0\0\x01\0\0\0\0\0\0\x07example\x03com\0\0\x01\0\x01";

/// The same with the next identifier.
pub const NEXT: &[u8] = b"\x12\x35\x01\0\0\x01\0\0\0\0\0\0\x07example\x03com\0\0\x01\0\x01";

/// A good reply without a cookie: 40 bytes.
pub const BARE: &[u8] =
    b"\x12\x34\x81\x80\0\x01\0\0\0\0\0\x01\x07example\x03com\0\0\x01\0\x01\0\0\x29\x04\xd0\0\0\0\0\0\0";

/// A good reply with the client cookie of the first server and a server cookie of 8 bytes: 60 bytes.
pub const GOOD: &[u8] =
    b"\x12\x34\x81\x80\0\x01\0\0\0\0\0\x01\x07example\x03com\0\0\x01\0\x01\0\0\x29\x04\xd0\0\0\0\0\0\x14\0\x0a\0\x10\x01\x02\x03\x04\x05\x06\x07\x08\xf1\xf2\xf3\xf4\xf5\xf6\xf7\xf8";

/// The same with a client cookie that differs in its last byte.
pub const FORGED: &[u8] =
    b"\x12\x34\x81\x80\0\x01\0\0\0\0\0\x01\x07example\x03com\0\0\x01\0\x01\0\0\x29\x04\xd0\0\0\0\0\0\x14\0\x0a\0\x10\x01\x02\x03\x04\x05\x06\x07\x09\xf1\xf2\xf3\xf4\xf5\xf6\xf7\xf8";

/// A reply that asks for the query again, BADCOOKIE (RFC 7873, section 5.2.3), with the cookies of the good one.
pub const BAD: &[u8] =
    b"\x12\x34\x81\x87\0\x01\0\0\0\0\0\x01\x07example\x03com\0\0\x01\0\x01\0\0\x29\x04\xd0\x01\0\0\0\0\x14\0\x0a\0\x10\x01\x02\x03\x04\x05\x06\x07\x08\xf1\xf2\xf3\xf4\xf5\xf6\xf7\xf8";

/// The same with another server cookie.
pub const BAD_AGAIN: &[u8] =
    b"\x12\x34\x81\x87\0\x01\0\0\0\0\0\x01\x07example\x03com\0\0\x01\0\x01\0\0\x29\x04\xd0\x01\0\0\0\0\x14\0\x0a\0\x10\x01\x02\x03\x04\x05\x06\x07\x08\xe1\xe2\xe3\xe4\xe5\xe6\xe7\xe8";

/// The client cookie of the first server, and that server cookie.
pub const BOTH: &[u8] = b"\x01\x02\x03\x04\x05\x06\x07\x08\xf1\xf2\xf3\xf4\xf5\xf6\xf7\xf8";
