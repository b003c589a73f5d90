//! The pages of adig and the lines of ahost.

use super::*;
use chan_types::{Answer, Spec, Status};
use item_list::{Bytes, NoMemory};
use net_addr::AddrList;
use resolv_options::Name;

/// A reply with the address 192.0.2.1 of example.com (RFC 1035, section 4.1).
const REPLY: &[u8] =
    b"\x12\x34\x81\x80\x00\x01\x00\x01\x00\x00\x00\x00\x07example\x03com\x00\x00\x01\x00\x01\xc0\x0c\x00\x01\x00\x01\x00\x00\x01\x2c\x00\x04\xc0\x00\x02\x01";

/// A message of all flags and sections: a record of type 65280, an NS record, an A record, and an OPT record that
/// extends the response code 3 by 1 and wants DNSSEC (RFC 1035, section 4.1; RFC 3597; RFC 6891, section 6.1).
const WHOLE: &[u8] =
    b"\x00\x01\x87\x83\x00\x01\x00\x01\x00\x01\x00\x02\x01a\x00\x00\xff\x00\x01\xc0\x0c\xff\x00\x00\x01\x00\x00\x00\x3c\x00\x02\x0a\x0b\xc0\x0c\x00\x02\x00\x01\x00\x00\x00\x05\x00\x05\x02ns\xc0\x0c\xc0\x0c\x00\x01\x00\x01\x00\x00\x00\x00\x00\x04\xc0\x00\x02\x09\x00\x00\x29\x04\xd0\x01\x00\x80\x00\x00\x00";

/// A message with two OPT records, and one whose OPT record has a cut option. The header's response code is 3, which each
/// record would extend by 1 (RFC 6891, sections 6.1.1 to 6.1.3).
const TWO_OPTS: &[u8] =
    b"\x00\x01\x81\x83\x00\x00\x00\x00\x00\x00\x00\x02\x00\x00\x29\x04\xd0\x01\x00\x00\x00\x00\x00\x00\x00\x29\x04\xd0\x01\x00\x00\x00\x00\x00";

const CUT_OPTION: &[u8] =
    b"\x00\x01\x81\x83\x00\x00\x00\x00\x00\x00\x00\x01\x00\x00\x29\x04\xd0\x01\x00\x00\x00\x00\x03\x00\x0a\x00";

/// A reply with the name host.test of the address 192.0.2.1 (RFC 1035, section 3.5).
const NAMES: &[u8] =
    b"\x12\x34\x81\x80\x00\x01\x00\x01\x00\x00\x00\x00\x011\x012\x010\x03192\x07in-addr\x04arpa\x00\x00\x0c\x00\x01\xc0\x0c\x00\x0c\x00\x01\x00\x00\x00\x3c\x00\x0b\x04host\x04test\x00";

/// An answer.
fn answer(
    alloc: Global,
    status: Status,
    message: &[u8],
    addresses: &[Addr],
) -> Result<Answer, NoMemory> {
    Ok(Answer {
        number: 1,
        status,
        message: Bytes::of(alloc, message)?,
        addresses: AddrList::of(alloc, addresses)?,
        canonical: Name::root(alloc),
    })
}

/// A query of class IN by its name and its type, the status and the message of its answer, and the page.
type Page = (&'static str, u16, Status, &'static [u8], &'static str);

/// Whether adig prints such a page.
fn is_printed(alloc: Global, row: &Page) -> Result<bool, NoMemory> {
    let (name, kind, status, message, page) = *row;
    let answer = answer(alloc, status, message, &[])?;
    is_page(alloc, (name, kind), &answer, page)
}

/// Whether adig prints this page of an answer.
fn is_page(
    alloc: Global,
    asked: (&str, u16),
    answer: &Answer,
    page: &str,
) -> Result<bool, NoMemory> {
    let printed = adig_page(alloc, asked.0.as_bytes(), asked.1, 1, answer)?;
    Ok(printed.as_slice() == page.as_bytes())
}

/// The page of an answer with an address.
const REPLY_PAGE: &str = ";; example.com IN A
;; status 0 SUCCESS
;; id 4660 rcode 0 flags qr rd ra
;; ANSWER
example.com. 300 IN A 192.0.2.1
";

/// The page of an answer of all flags and sections.
const WHOLE_PAGE: &str = ";; a IN ANY
;; status 10 EBADRESP
;; id 1 rcode 19 flags qr aa tc rd ra
;; ANSWER
a. 60 IN TYPE65280 \\# 2 0a0b
;; AUTHORITY
a. 5 IN NS ns.a.
;; ADDITIONAL
a. 0 IN A 192.0.2.9
. OPT size 1232 ext 1 version 0 do 1 \\# 0
";

/// The pages of messages whose OPT records can't be read: the response code is the header's alone.
const TWO_OPTS_PAGE: &str = ";; a IN A
;; status 10 EBADRESP
;; id 1 rcode 3 flags qr rd ra
;; ADDITIONAL
. OPT size 1232 ext 1 version 0 do 0 \\# 0
. OPT size 1232 ext 1 version 0 do 0 \\# 0
";

const CUT_OPTION_PAGE: &str = ";; a IN A
;; status 10 EBADRESP
;; id 1 rcode 3 flags qr rd ra
;; ADDITIONAL
. OPT size 1232 ext 1 version 0 do 0 \\# 3 000a00
";

/// Pages with an address, of all flags and sections, of OPT records that can't be read, and without a message.
const PAGES: &[Page] = &[
    ("example.com", 1, Status::Success, REPLY, REPLY_PAGE),
    ("a", 255, Status::BadResp, WHOLE, WHOLE_PAGE),
    ("a", 1, Status::BadResp, TWO_OPTS, TWO_OPTS_PAGE),
    ("a", 1, Status::BadResp, CUT_OPTION, CUT_OPTION_PAGE),
    (
        "a..b",
        28,
        Status::BadName,
        b"",
        ";; a..b IN AAAA\n;; status 8 EBADNAME\n",
    ),
];

#[test]
fn adig_prints_pages(rt: HostRuntime) -> Result<(), Fail> {
    for page in PAGES {
        assert!(rt; is_printed(rt.alloc(), page)?);
    }
    Ok(())
}

/// The lookup of 192.0.2.1 backwards.
const REVERSED: Spec = Spec::Reverse {
    address: Addr::V4(0xc000_0201),
};

/// Whether adig prints this page of that lookup, where it times out.
fn is_reversed_page(alloc: Global, page: &str) -> Result<bool, NoMemory> {
    let answer = answer(alloc, Status::TimedOut, b"", &[])?;
    Ok(page_of(alloc, &REVERSED, &answer)?.as_slice() == page.as_bytes())
}

#[test]
fn adig_prints_an_address(rt: HostRuntime) -> Result<(), Fail> {
    let page = ";; 192.0.2.1 IN PTR\n;; status 12 ETIMEOUT\n";
    assert!(rt; is_reversed_page(rt.alloc(), page)?);
    Ok(())
}

/// The status, the message and the addresses of an answer, and the lines that ahost prints of it.
type Block = (Status, &'static [u8], &'static [Addr], &'static str);

/// Whether ahost prints such lines, at this depth, of an answer to a request.
fn is_block(alloc: Global, depth: u32, spec: &Spec, row: &Block) -> Result<bool, NoMemory> {
    let (status, message, addresses, lines) = *row;
    let answer = answer(alloc, status, message, addresses)?;
    Ok(block_lines(alloc, depth, spec, &answer)?.as_slice() == lines.as_bytes())
}

/// The lookup of the addresses of localhost.
fn host(alloc: Global) -> Result<Spec, NoMemory> {
    Ok(Spec::Address {
        host: Bytes::of(alloc, b"localhost")?,
        family: Family::Any,
        nosort: false,
    })
}

/// Whether ahost prints such lines of that lookup.
fn is_host_block(alloc: Global, row: &Block) -> Result<bool, NoMemory> {
    let host = host(alloc)?;
    is_block(alloc, 0, &host, row)
}

/// The names of an address.
const NAMES_BLOCK: &Block = &(
    Status::Success,
    NAMES,
    &[],
    "  192.0.2.1 0 SUCCESS\n    1.2.0.192.in-addr.arpa. 60 IN PTR host.test.\n",
);

/// The addresses of a name.
const ADDRESSES_BLOCK: &Block = &(
    Status::Success,
    b"",
    &[Addr::V6(1), Addr::V4(0x7f00_0001)],
    "localhost 0 SUCCESS\n  ::1\n  127.0.0.1\n",
);

/// A name that isn't found, with a message that isn't printed.
const FAILED_BLOCK: &Block = &(Status::NotFound, NAMES, &[], "localhost 4 ENOTFOUND\n");

#[test]
fn ahost_prints_blocks(rt: HostRuntime) -> Result<(), Fail> {
    assert!(rt; is_block(rt.alloc(), 1, &REVERSED, NAMES_BLOCK)?);
    assert!(rt; is_host_block(rt.alloc(), ADDRESSES_BLOCK)?);
    assert!(rt; is_host_block(rt.alloc(), FAILED_BLOCK)?);
    Ok(())
}

/// The names of an address, as the answers to a query or a search.
const ANSWERS_BLOCK: &Block = &(
    Status::Success,
    NAMES,
    &[],
    "a 0 SUCCESS\n  1.2.0.192.in-addr.arpa. 60 IN PTR host.test.\n",
);

/// Whether ahost prints them so.
fn is_answers_block(alloc: Global, is_search: bool) -> Result<bool, NoMemory> {
    let (name, kind, class) = (Bytes::of(alloc, b"a")?, 12, 1);
    let spec = if is_search {
        Spec::Search { name, kind, class }
    } else {
        Spec::Query { name, kind, class }
    };
    is_block(alloc, 0, &spec, ANSWERS_BLOCK)
}

#[test]
fn ahost_prints_answers(rt: HostRuntime) -> Result<(), Fail> {
    assert!(rt; is_answers_block(rt.alloc(), false)? && is_answers_block(rt.alloc(), true)?);
    Ok(())
}

/// Bytes that are no message, one for each fault (RFC 1035, sections 2.3.4 and 4.1): no header, a name that is cut, a label
/// of another kind, a pointer to itself, a name of 256 bytes, an address of 3 bytes, and a byte behind the message.
const NO_MESSAGES: &[&[u8]] = &[
    b"",
    b"\0\x01\x81\x80\0\x01\0\0\0\0\0\0\x01a",
    b"\0\x01\x81\x80\0\x01\0\0\0\0\0\0\x40\0\x01\0\x01",
    b"\0\x01\x81\x80\0\x01\0\0\0\0\0\0\xc0\x0c\0\x01\0\x01",
    b"\0\x01\x81\x80\0\x01\0\0\0\0\0\0\x3faaaaaaaaaaaaaaaaaaaaaaaaaaaaaaaaaaaaaaaaaaaaaaaaaaaaaaaaaaaaaaa\x3faaaaaaaaaaaaaaaaaaaaaaaaaaaaaaaaaaaaaaaaaaaaaaaaaaaaaaaaaaaaaaa\x3faaaaaaaaaaaaaaaaaaaaaaaaaaaaaaaaaaaaaaaaaaaaaaaaaaaaaaaaaaaaaaa\x3eaaaaaaaaaaaaaaaaaaaaaaaaaaaaaaaaaaaaaaaaaaaaaaaaaaaaaaaaaaaaaa\0\0\x01\0\x01",
    b"\0\x01\x81\x80\0\0\0\x01\0\0\0\0\0\0\x01\0\x01\0\0\0\x3c\0\x03abc",
    b"\0\x01\x81\x80\0\0\0\0\0\0\0\0\0",
];

/// Whether adig and ahost print of such bytes how the request ended, and no more.
fn prints_end_alone(alloc: Global, bytes: &'static [u8]) -> Result<bool, NoMemory> {
    let page = ";; a IN A\n;; status 10 EBADRESP\n";
    let block = (
        Status::Success,
        bytes,
        [].as_slice(),
        "192.0.2.1 0 SUCCESS\n",
    );
    Ok(
        is_printed(alloc, &("a", 1, Status::BadResp, bytes, page))?
            && is_block(alloc, 0, &REVERSED, &block)?,
    )
}

#[test]
fn no_message_is_not_printed(rt: HostRuntime) -> Result<(), Fail> {
    for bytes in NO_MESSAGES {
        assert!(rt; prints_end_alone(rt.alloc(), bytes)?);
    }
    Ok(())
}
