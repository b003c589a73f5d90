//! Pages: every section, an OPT record, a type without a shape, and each response code.

use super::outcome::outcome_of;
use super::{RUN, Scenario, comes};
use scenario::Coming;
use std::alloc::Global;
use std::test::Fail;

/// A message to the plain run's question, and the exit status and the page of a run that gets it.
#[derive(Clone, Copy)]
struct Page {
    message: &'static [u8],
    status: u8,
    text: &'static str,
}

/// An alias, an address, a record of type 65280 (RFC 3597), a server's name, its address, and an OPT record that says that
/// DNSSEC is wanted (RFC 1035, section 4.1; RFC 6891, section 6.1).
const SECTIONS: Page = Page {
    message: b"\x12\x34\x85\x80\0\x01\0\x03\0\x01\0\x02\x07example\x03com\0\0\x01\0\x01\xc0\x0c\0\x05\0\x01\0\0\x01\x2c\0\x06\x03www\xc0\x0c\xc0\x29\0\x01\0\x01\0\0\x01\x2c\0\x04\xc0\0\x02\x01\xc0\x0c\xff\0\0\x01\0\0\x01\x2c\0\x02\x0a\x0b\xc0\x0c\0\x02\0\x01\0\0\0\x05\0\x05\x02ns\xc0\x0c\x02ns\xc0\x0c\0\x01\0\x01\0\0\0\0\0\x04\xc0\0\x02\x09\0\0\x29\x04\xd0\0\0\x80\0\0\0",
    status: 0,
    text: ";; example.com IN A
;; status 0 SUCCESS
;; id 4660 rcode 0 flags qr aa rd ra
;; ANSWER
example.com. 300 IN CNAME www.example.com.
www.example.com. 300 IN A 192.0.2.1
example.com. 300 IN TYPE65280 \\# 2 0a0b
;; AUTHORITY
example.com. 5 IN NS ns.example.com.
;; ADDITIONAL
ns.example.com. 0 IN A 192.0.2.9
. OPT size 1232 ext 0 version 0 do 1 \\# 0
",
};

/// An OPT record that extends response code 0 by 1: 16, which is BADVERS (RFC 6891, sections 6.1.3 and 9).
const BADVERS: Page = Page {
    message: b"\x12\x34\x81\x80\0\x01\0\0\0\0\0\x01\x07example\x03com\0\0\x01\0\x01\0\0\x29\x04\xd0\x01\0\0\0\0\0",
    status: 1,
    text: ";; example.com IN A
;; status 10 EBADRESP
;; id 4660 rcode 16 flags qr rd ra
;; ADDITIONAL
. OPT size 1232 ext 1 version 0 do 0 \\# 0
",
};

/// What servers answer without a record: response codes 0, 1 and 3 (RFC 1035, section 4.1.1).
const NODATA: Page = Page {
    message: b"\x12\x34\x81\x80\0\x01\0\0\0\0\0\0\x07example\x03com\0\0\x01\0\x01",
    status: 1,
    text: ";; example.com IN A\n;; status 1 ENODATA\n;; id 4660 rcode 0 flags qr rd ra\n",
};

const FORMERR: Page = Page {
    message: b"\x12\x34\x81\x81\0\x01\0\0\0\0\0\0\x07example\x03com\0\0\x01\0\x01",
    status: 1,
    text: ";; example.com IN A\n;; status 2 EFORMERR\n;; id 4660 rcode 1 flags qr rd ra\n",
};

const NOTFOUND: Page = Page {
    message: b"\x12\x34\x85\x83\0\x01\0\0\0\0\0\0\x07example\x03com\0\0\x01\0\x01",
    status: 1,
    text: ";; example.com IN A\n;; status 4 ENOTFOUND\n;; id 4660 rcode 3 flags qr aa rd ra\n",
};

const PAGES: &[Page] = &[SECTIONS, BADVERS, NODATA, FORMERR, NOTFOUND];

/// Whether a run with this on its network ends with the page's status, puts its text, and has sent so many bytes.
fn is_page(alloc: Global, comings: &[Coming<'_>], page: &Page, sent: usize) -> Result<bool, Fail> {
    let scenario = Scenario { comings, ..RUN };
    let outcome = outcome_of(alloc, &scenario)?;
    Ok(
        outcome.status == page.status
            && outcome.put.as_slice() == page.text.as_bytes()
            && outcome.sent.len() == sent,
    )
}

/// Whether a run that gets the message puts the page, and has asked once.
fn is_printed(alloc: Global, page: &Page) -> Result<bool, Fail> {
    is_page(alloc, &[comes(1, page.message)], page, 29)
}

/// The first of these pages that isn't put; nothing where each is.
fn first_unprinted<'a>(alloc: Global, pages: &'a [Page]) -> Result<&'a str, Fail> {
    for page in pages {
        if !is_printed(alloc, page)? {
            return Ok(page.text);
        }
    }
    Ok("")
}

#[test]
fn each_message_has_its_page(rt: HostRuntime) -> Result<(), Fail> {
    assert_eq!(rt; first_unprinted(rt.alloc(), PAGES)?, "");
    Ok(())
}

/// A server that fails, doesn't know the kind of query, or refuses it, is asked again: here three times, each time with the
/// same answer.
const REFUSALS: &[Page] = &[
    Page {
        message: b"\x12\x34\x81\x82\0\x01\0\0\0\0\0\0\x07example\x03com\0\0\x01\0\x01",
        status: 1,
        text: ";; example.com IN A\n;; status 3 ESERVFAIL\n;; id 4660 rcode 2 flags qr rd ra\n",
    },
    Page {
        message: b"\x12\x34\x81\x84\0\x01\0\0\0\0\0\0\x07example\x03com\0\0\x01\0\x01",
        status: 1,
        text: ";; example.com IN A\n;; status 5 ENOTIMP\n;; id 4660 rcode 4 flags qr rd ra\n",
    },
    Page {
        message: b"\x12\x34\x81\x85\0\x01\0\0\0\0\0\0\x07example\x03com\0\0\x01\0\x01",
        status: 1,
        text: ";; example.com IN A\n;; status 6 EREFUSED\n;; id 4660 rcode 5 flags qr rd ra\n",
    },
];

/// Whether a run that gets the message three times puts the page, and has asked three times.
fn is_printed_behind_three(alloc: Global, page: &Page) -> Result<bool, Fail> {
    let bytes = page.message;
    let comings = [comes(1, bytes), comes(2, bytes), comes(3, bytes)];
    is_page(alloc, &comings, page, 3 * 29)
}

/// The first of these pages that isn't put so; nothing where each is.
fn first_unprinted_behind_three<'a>(alloc: Global, pages: &'a [Page]) -> Result<&'a str, Fail> {
    for page in pages {
        if !is_printed_behind_three(alloc, page)? {
            return Ok(page.text);
        }
    }
    Ok("")
}

#[test]
fn each_refusal_has_its_page(rt: HostRuntime) -> Result<(), Fail> {
    assert_eq!(rt; first_unprinted_behind_three(rt.alloc(), REFUSALS)?, "");
    Ok(())
}
