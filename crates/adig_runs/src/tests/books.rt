//! Runs with `--journal` whose book is compared byte by byte, or whose page by areplay is given whole. Each other run is made
//! with the flag too, where it is played.

use super::Case;
use super::links::{ENDED_LINK, TRUNCATION};
use super::outcome::{booked_outcome, is_told, puts_replayed};
use super::replies::{ANSWERED_RUN, MIXED_RUN, PRINTED};
use super::searching::{BACKWARDS, SEARCH};
use super::statuses::{FAILING_WAIT, NO_TURNS, ONION};
use std::alloc::Global;
use std::test::Fail;
use stored_run::page_status;

/// Whether a run with the flag leaves the same, and puts this.
fn puts(alloc: Global, case: &Case, text: &str) -> Result<bool, Fail> {
    let outcome = booked_outcome(alloc, &case.run)?;
    Ok(is_told(&outcome, &case.wanted) && outcome.put.as_slice() == text.as_bytes())
}

/// The book of a name that completes at its Accept, without a turn.
const ONION_BOOK: &str = "journal 1
option 2000 3 1 0 00000010 0 0 1232
server 192.0.2.53 53
hosts -
0 0 accept 1 q 782e6f6e696f6e 1 1 ( 0 )
0 0 take 1
0 0 destroy
end
";

/// The plain run, and its book: no OPT record is sent, so that flag is 0; identifier and message are those of its reply.
const ANSWERED: Case = Case {
    shows: "an answered run has a book",
    run: ANSWERED_RUN,
    wanted: PRINTED,
};

const ANSWERED_BOOK: &str = "journal 1
option 2000 3 1 0 00000000 0 0 1232
server 192.0.2.53 53
hosts -
0 0 accept 1 q 6578616d706c652e636f6d 1 1 ( 0 )
0 0 start 1 0 0 0 4660 - 0
0 0 arrive 0 0 123481800001000100000000076578616d706c6503636f6d0000010001c00c000100010000012c0004c0000201
0 0 take 1
0 0 destroy
end
";

/// Runs, and what they put with the flag: a book, or the line that stands in place of a page.
const PUT: &[(Case, &str)] = &[
    (ONION, ONION_BOOK),
    (ANSWERED, ANSWERED_BOOK),
    (NO_TURNS, "adig: stalled\n"),
    (FAILING_WAIT, "adig: wait fault\n"),
];

/// What the first of these runs shows that puts something else; nothing where none does.
fn first_other<'a>(alloc: Global, rows: &'a [(Case, &'a str)]) -> Result<&'a str, Fail> {
    for (case, text) in rows {
        if !puts(alloc, case, text)? {
            return Ok(case.shows);
        }
    }
    Ok("")
}

#[test]
fn the_book_stands_in_place_of_the_page(rt: HostRuntime) -> Result<(), Fail> {
    assert_eq!(rt; first_other(rt.alloc(), PUT)?, "");
    Ok(())
}

/// Whether a run with the flag leaves the same, and areplay puts this of its book.
fn is_replayed(alloc: Global, case: &Case, put: &str) -> Result<bool, Fail> {
    let outcome = booked_outcome(alloc, &case.run)?;
    Ok(is_told(&outcome, &case.wanted) && puts_replayed(alloc, outcome.put.as_slice(), put)?)
}

/// Runs, the status that their page has, and what areplay puts of their book: the same status.
const REPLAYED: &[(Case, &str, &str)] = &[
    (
        ONION,
        "4 ENOTFOUND",
        "lawful 3 entries 1 accepted\n1 4 ENOTFOUND\n",
    ),
    (
        ANSWERED,
        "0 SUCCESS",
        "lawful 5 entries 1 accepted\n1 0 SUCCESS\n",
    ),
    (
        MIXED_RUN,
        "0 SUCCESS",
        "lawful 6 entries 1 accepted\n1 0 SUCCESS\n",
    ),
    (
        SEARCH,
        "1 ENODATA",
        "lawful 9 entries 1 accepted\n1 1 ENODATA\n",
    ),
    (
        BACKWARDS,
        "0 SUCCESS",
        "lawful 5 entries 1 accepted\n1 0 SUCCESS\n",
    ),
    (
        TRUNCATION,
        "0 SUCCESS",
        "lawful 7 entries 1 accepted\n1 0 SUCCESS\n",
    ),
    (
        ENDED_LINK,
        "12 ETIMEOUT",
        "lawful 7 entries 1 accepted\n1 12 ETIMEOUT\n",
    ),
];

/// What the first of these runs shows whose page has another status, or whose book is another; nothing where there is none.
fn first_unlawful<'a>(
    alloc: Global,
    rows: &'a [(Case, &'a str, &'a str)],
) -> Result<&'a str, Fail> {
    for (case, status, put) in rows {
        if page_status(case.wanted.put) != *status || !is_replayed(alloc, case, put)? {
            return Ok(case.shows);
        }
    }
    Ok("")
}

#[test]
fn books_are_lawful(rt: HostRuntime) -> Result<(), Fail> {
    assert_eq!(rt; first_unlawful(rt.alloc(), REPLAYED)?, "");
    Ok(())
}
