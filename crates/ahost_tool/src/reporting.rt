//! What a run puts where its requests have their answers.

ghost use Rattle.std.specs.Prelude.{◌≡◌, IfOk};
ghost use Rattle.ahost_tool.specs.Page.{book_text, report_for, report_of};

use crate::outcome::Outcome;
use crate::page::page_of;
use crate::summary::summary_of;
use item_list::{Bytes, NoMemory};
use journal_text::{Book, print_book};
use std::alloc::Global;
use tool_line::Load;

/// What a run puts where its requests have their answers.
#[derive(Drop)]
pub enum Report {
    /// What was found.
    Page,
    /// The run itself as text, with the bytes of its hosts file.
    Book(Bytes),
    /// What became of a load's requests.
    Summary(Load),
}

/// What a run for names puts, by whether its book is asked for in place of the page. The bytes of the hosts file are kept for
/// the book alone.
pub fn report_for(journal: bool, hosts: Bytes) -> Report
    ensures { result ≡ report_for journal hosts }
{
    if journal {
        Report::Book(hosts)
    } else {
        Report::Page
    }
}

/// The text of a run that came to this, which is given back.
pub(crate) fn report_of(
    alloc: Global,
    report: Report,
    outcome: Outcome,
) -> (Result<Bytes, NoMemory>, Outcome)
    ensures text { IfOk result.0
        (λ text. text ≡ report_of report outcome.options outcome.journal outcome.calls) }
    ensures outcome { result.1 ≡ outcome }
{
    match report {
        Report::Page => {
            let text = page_of(alloc, outcome.journal.entries(), &outcome.calls);
            (text, outcome)
        }
        Report::Book(hosts) => book_of(alloc, hosts, outcome),
        Report::Summary(load) => {
            let text = summary_of(alloc, load, outcome.journal.entries(), &outcome.calls);
            (text, outcome)
        }
    }
}

/// The run itself as text, with these bytes of its hosts file. Options and journal are lent to the book, so that neither is
/// copied.
fn book_of(alloc: Global, hosts: Bytes, outcome: Outcome) -> (Result<Bytes, NoMemory>, Outcome)
    ensures text { IfOk result.0 (λ text. text ≡ book_text hosts outcome.options outcome.journal) }
    ensures outcome { result.1 ≡ outcome }
{
    let Outcome {
        options,
        journal,
        calls,
    } = outcome;
    let book = Book {
        options,
        hosts,
        journal,
    };
    let text = print_book(alloc, &book);
    let Book {
        options,
        hosts: _,
        journal,
    } = book;
    let outcome = Outcome {
        options,
        journal,
        calls,
    };
    (text, outcome)
}
