//! The end of an attempt, by the message that it waited for or by its deadline.

ghost use Rattle.std.specs.List.{list_any};
ghost use Rattle.std.specs.Prelude.{◌≡◌, ◌≤◌, ◌<◌, ◌+◌, ◌==◌, IfOk, IsTrue, None, OnErr, OnOk, length};
ghost use Rattle.std.specs.VecDeque.{deque_capacity, deque_len};
ghost use Rattle.channel_table.specs.Counted.{servers_behind};
ghost use Rattle.channel_table.specs.Ends.{EndsAttempt, attempts_with};

use super::channel_servers::ChannelServers;
use super::rows::Rows;
use crate::concerned::Concerned;
use chan_types::{Answer, Bytes, NoMemory, Ticket, Token};
use channel_model::Judged;
use resolv_options::Options;
use std::alloc::Global;
use std::collections::VecDeque;

/// Ends the attempt of this lookup of the row at this index, which was on this server, where that meant this and came
/// with these bytes or none, and counts it.
#[inline(always)]
pub fn end_attempt<T: Token>(
    alloc: Global,
    options: &Options,
    servers: &mut ChannelServers,
    rows: &mut Rows<T>,
    ready: &mut VecDeque<Ticket<T>>,
    index: usize,
    is_second: bool,
    server: u32,
    judged: Judged,
    bytes: &[u8],
) -> Result<(), NoMemory>
    requires some { 1 ≤ length servers.old.list }
    requires few { length servers.old.list ≤ 8 }
    requires there { IsTrue (list_any (λ item. item.server == server) servers.old.counts) }
    requires inside { index < length rows.old }
    requires room { length rows.old + deque_len ready.old ≤ deque_capacity ready.old }
    ensures ends { OnOk result (EndsAttempt options.now (attempts_with options.now servers.old.list) is_second
        judged bytes.now index rows.old ready.old.items rows.new ready.new.items) }
    ensures counts { OnOk result (servers.new ≡ servers_behind server judged servers.old) }
    ensures err { OnErr result ((servers.new ≡ servers.old) × (rows.new ≡ rows.old) × (ready.new ≡ ready.old)) }
    ensures link { servers.new.greatest_link ≡ servers.old.greatest_link }
    ensures starts { servers.new.started ≡ servers.old.started }
    ensures fewer { length rows.new ≤ length rows.old }
    ensures len { length rows.new + deque_len ready.new ≡ length rows.old + deque_len ready.old }
    ensures capacity { deque_capacity ready.new ≡ deque_capacity ready.old }
{
    let concerned = Concerned::at(is_second);
    let most = servers.most_attempts(options);
    let answer = rows
        .row(index)
        .answer_behind(alloc, options, concerned, judged, bytes, most)?;
    let reply = kept_reply(alloc, &answer, bytes)?;
    rows.end_row(
        alloc, options, ready, index, concerned, judged, reply, most, answer,
    )?;
    servers.count_end(server, judged);
    Ok(())
}

/// The reply that a row keeps, whose current candidate has this answer with it, if it has one: with an answer none is
/// kept, since the row ends or asks the next name.
#[inline(always)]
fn kept_reply(alloc: Global, answer: &Option<Answer>, bytes: &[u8]) -> Result<Bytes, NoMemory>
    ensures { IfOk result (λ reply. answer.now ≡ None → reply ≡ bytes.now) }
{
    Ok(match answer {
        None => Bytes::of(alloc, bytes)?,
        Some(_) => Bytes::new(alloc),
    })
}
