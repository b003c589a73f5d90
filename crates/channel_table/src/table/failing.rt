//! The rows behind a fault of a link, by a look at each of them.

ghost use Rattle.std.specs.Prelude.{◌≡◌, ◌≤◌, ◌+◌, IfOk, map};
ghost use Rattle.std.specs.VecDeque.{deque_capacity, deque_len};
ghost use Rattle.channel_table.specs.Faulting.{FailsOver, answer_over};

use super::taking::pop_first;
use crate::concerned::Concerned;
use crate::held::{Held, row_at};
use crate::row::{After, Row};
use chan_types::{Answer, Bytes, NoMemory, Status, Ticket, Token};
use channel_model::Judged;
use resolv_options::Options;
use std::alloc::Global;
use std::collections::VecDeque;
use std::mem;

/// The answers that the current candidates of the rows have where the attempts fail that went to this server over this
/// link, and a leg may spend so many attempts: none for a row that goes on.
pub fn answers_over<T: Token>(
    alloc: Global,
    options: &Options,
    rows: &VecDeque<Held<T>>,
    server: u32,
    link: u64,
    most: u32,
) -> Result<Vec<Option<Answer>>, NoMemory>
    ensures { IfOk result
        (λ answers. answers.items ≡ map (answer_over options.now server link most) rows.now.items) }
{
    let mut answers = Vec::with_capacity(alloc, rows.len())?;
    for index in 0..rows.len() {
        let answer = answer_over(alloc, options, row_at(rows, index), server, link, most)?;
        answers.push(answer)?;
    }
    Ok(answers)
}

/// The answer that the current candidate of the row then has, if it has one.
pub fn answer_over<T: Token>(
    alloc: Global,
    options: &Options,
    row: &Row<T>,
    server: u32,
    link: u64,
    most: u32,
) -> Result<Option<Answer>, NoMemory>
    ensures { IfOk result (λ answer. answer ≡ answer_over options.now server link most row.now) }
{
    row.answer_behind(
        alloc,
        options,
        Concerned::Over(server, link),
        Judged::Failed(Status::ConnRefused),
        &[],
        most,
    )
}

/// Fails the attempts that went to this server over this link, where a leg may spend so many attempts and the rows'
/// current candidates then have these answers: the rows that go on are kept in order, and the others get ready. It
/// takes no memory.
pub fn fail_all<T: Token>(
    alloc: Global,
    options: &Options,
    rows: &mut VecDeque<Held<T>>,
    kept: VecDeque<Held<T>>,
    answers: Vec<Option<Answer>>,
    ready: &mut VecDeque<Ticket<T>>,
    server: u32,
    link: u64,
    most: u32,
)
    requires empty { deque_len kept ≡ 0 }
    requires room_kept { deque_len rows.old ≤ deque_capacity kept }
    requires answers { answers.items ≡ map (answer_over options.now server link most) rows.old.items }
    requires room { deque_len rows.old + deque_len ready.old ≤ deque_capacity ready.old }
    ensures fails { FailsOver options.now server link most rows.old.items ready.old.items
        rows.new.items ready.new.items }
    ensures fewer { deque_len rows.new ≤ deque_len rows.old }
    ensures len { deque_len rows.new + deque_len ready.new ≡ deque_len rows.old + deque_len ready.old }
    ensures capacity { deque_capacity ready.new ≡ deque_capacity ready.old }
{
    let mut kept = kept;
    let mut answers = VecDeque::from_vec(answers);
    for row in mem::replace(rows, VecDeque::new(alloc)) {
        let answer = pop_first(&mut answers);
        let failed = row.end_attempts(
            alloc,
            options,
            Concerned::Over(server, link),
            Judged::Failed(Status::ConnRefused),
            Bytes::new(alloc),
            most,
            answer,
        );
        match failed {
            After::Stays(row) => kept.push_back_reserved(row),
            After::Ends(ticket) => ready.push_back_reserved(ticket),
        }
    }
    *rows = kept;
}
