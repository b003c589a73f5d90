//! One question on its way, and the lookup of addresses: outside examples, and each call that may take memory with ample memory.

mod addresses;
mod legs;
mod matches;
mod picks;
mod queries;
mod verdicts;
mod waits;

use dns_message::{Name, Question};
use query_machine::{Judged, Terms, judge, matching, verdict};
use resolv_options::Options;
use std::alloc::Global;
use std::test::Fail;

/// The question for the IPv4 addresses of example.com (RFC 1035, sections 3.2.2 and 3.2.4).
fn address_of_example(alloc: Global) -> Result<Question, Fail> {
    Ok(Question {
        name: Name::from_text(alloc, b"example.com")?.name,
        kind: 1,
        class: 1,
    })
}

/// The terms of a reply over UDP to a query with an OPT record, where no flag says otherwise and any answer will do.
fn plain_terms(alloc: Global) -> Result<Terms, Fail> {
    Ok(Terms {
        flags: Options::plain(alloc)?.flags(),
        tcp: false,
        edns: true,
        wanted: None,
    })
}

/// What the bytes mean that came for this question with identifier 0x1234: by their walk, and by the reply read whole.
fn judged_twice(
    alloc: Global,
    bytes: &[u8],
    asked: &Question,
    exact: bool,
    terms: Terms,
) -> Result<[Option<Judged>; 2], Fail> {
    let whole = match matching(alloc, bytes, 0x1234, asked, exact)? {
        Some(reply) => Some(verdict(
            &reply,
            terms.tcp,
            terms.edns,
            terms.flags,
            terms.wanted.unwrap_or(1),
            terms.wanted.is_some(),
        )),
        None => None,
    };
    Ok([judge(bytes, 0x1234, asked, exact, terms), whole])
}
