//! The page of a lawful journal: how many entries it has, how many requests it accepts, and what each came to.

ghost use Rattle.std.specs.Prelude.{◌≡◌, ◌≤◌, ◌++◌, IfOk, OnOk, length, map, option_to_list};
ghost use Rattle.std.specs.String.{string_bytes};
ghost use Rattle.channel_model.specs.Completion.{requests};
ghost use Rattle.channel_model.specs.Journal.{accepted_by, past_of};
ghost use Rattle.channel_model.specs.Lawful.{IsLawful};
ghost use Rattle.areplay_tool.specs.Page as meaning;

use chan_types::{Answer, Entry, What};
use item_list::{Bytes, NoMemory};
use journal_replay::fate_of;
use journal_text::Book;
use std::alloc::Global;

/// The page of a lawful journal.
pub(crate) fn lawful_page(alloc: Global, book: &Book) -> Result<Bytes, NoMemory>
    requires few { length book.now.hosts ≤ 4194304 }
    requires lawful { IsLawful (meaning.setting_of_book book.now) book.now.journal }
    ensures { IfOk result (λ page. page ≡ meaning.lawful_page (meaning.setting_of_book book.now) book.now.journal) }
{
    let requests = requests_of(alloc, book.journal.entries())?;
    let entries = book.journal.entries().len() as u64;
    let head = head_line(alloc, entries, requests.len() as u64)?;
    let mut page = head.into_bytes();
    put_requests(alloc, &mut page, book, requests.as_slice())?;
    Ok(Bytes::from_vec(page))
}

/// The numbers of the accepted requests, in order.
fn requests_of(alloc: Global, journal: &[Entry]) -> Result<Vec<u64>, NoMemory>
    ensures { IfOk result (λ numbers. numbers.items ≡ requests (past_of journal.now)) }
{
    let mut numbers = Vec::new(alloc);
    for index in 0..journal.len() {
        add_request(&mut numbers, &journal[index].what)?;
    }
    Ok(numbers)
}

/// Adds the number of the request that an entry accepts, if it accepts one.
fn add_request(numbers: &mut Vec<u64>, what: &What) -> Result<(), NoMemory>
    ensures { OnOk result (numbers.new.items
        ≡ numbers.old.items ++ map (λ request. request.number) (option_to_list (accepted_by what.now))) }
{
    match what {
        What::Accept { number, .. } => {
            numbers.push(*number)?;
            Ok(())
        }
        What::Cancel
        | What::Destroy
        | What::Take { .. }
        | What::Start { .. }
        | What::Arrive { .. }
        | What::Expire { .. }
        | What::Fault { .. }
        | What::Servers { .. } => Ok(()),
    }
}

/// The line of a lawful journal with so many entries, which accepts so many requests.
fn head_line(alloc: Global, entries: u64, accepted: u64) -> Result<String, NoMemory>
    ensures { IfOk result (λ line. string_bytes line ≡ meaning.lawful_line entries accepted) }
{
    Ok(format!(in alloc; "lawful {entries} entries {accepted} accepted\n")?)
}

/// Adds a line for each of these requests.
fn put_requests(
    alloc: Global,
    page: &mut Vec<u8>,
    book: &Book,
    requests: &[u64],
) -> Result<(), NoMemory>
    requires few { length book.now.hosts ≤ 4194304 }
    requires lawful { IsLawful (meaning.setting_of_book book.now) book.now.journal }
    ensures { OnOk result (page.new.items ≡ page.old.items
        ++ meaning.request_lines (meaning.setting_of_book book.now) book.now.journal requests.now) }
{
    for number in requests {
        let line = request_line(alloc, book, *number)?;
        page.extend_from_slice(line.as_bytes())?;
    }
    Ok(())
}

/// The line of a request of a lawful journal.
fn request_line(alloc: Global, book: &Book, number: u64) -> Result<String, NoMemory>
    requires few { length book.now.hosts ≤ 4194304 }
    requires lawful { IsLawful (meaning.setting_of_book book.now) book.now.journal }
    ensures { IfOk result (λ line. string_bytes line
        ≡ meaning.request_line (meaning.setting_of_book book.now) book.now.journal number) }
{
    let hosts = book.hosts.as_slice();
    match fate_of(alloc, &book.options, hosts, book.journal.entries(), number)? {
        Some(answer) => ended_line(alloc, number, &answer),
        None => pending_line(alloc, number),
    }
}

/// The line of a request that completed with this answer.
fn ended_line(alloc: Global, number: u64, answer: &Answer) -> Result<String, NoMemory>
    ensures { IfOk result (λ line. string_bytes line ≡ meaning.ended_line number answer.now.status) }
{
    let code = answer.status.code();
    let text = answer.status.text();
    Ok(format!(in alloc; "{number} {code} {text}\n")?)
}

/// The line of a request that hasn't completed.
fn pending_line(alloc: Global, number: u64) -> Result<String, NoMemory>
    ensures { IfOk result (λ line. string_bytes line ≡ meaning.pending_line number) }
{
    Ok(format!(in alloc; "{number} pending\n")?)
}

/// The line of a journal whose entry at this position isn't allowed.
pub(crate) fn unlawful_line(alloc: Global, position: u64) -> Result<String, NoMemory>
    ensures { IfOk result (λ line. string_bytes line ≡ meaning.unlawful_line position) }
{
    Ok(format!(in alloc; "unlawful {position}\n")?)
}
