//! A channel with the default options, and its passes one by one: what a caller begins with.

ghost use Rattle.std.specs.Prelude.{◌≡◌, ◌<◌, ◌≤◌, ◌+◌, ◌++◌, ◌∷◌, [], IfOk, vec_capacity, vec_len};
ghost use Rattle.shared_channel.specs.Making.{IsNewChannel, plain_setting};
ghost use Rattle.shared_channel.specs.Staying.{AreAt};

use crate::channel::Channel;
use crate::pass::Pass;
use chan_types::NoMemory;
use channel_journal::ChannelJournal;
use completion_ticket::Done;
use hosts_file::Hosts;
use resolv_options::Options;
use std::alloc::Global;

/// A channel with the default options and without hosts, which keeps its journal, and its passes, of which there are 1 to 64,
/// numbered from 0.
#[tactic(auto, using(crate::proofs::StayLemmas::all_at))]
pub fn plain_channel<B: Done + Drop>(
    alloc: Global,
    seats: u64,
) -> Result<(Channel<B>, Vec<Pass<B>>), NoMemory>
    requires { (0 < seats) × (seats ≤ 64) }
    ensures new { IfOk result (λ made. IsNewChannel made.0 plain_setting seats made.1.items) }
    ensures at { IfOk result (λ made. AreAt made.0 made.1.items) }
    ensures len { IfOk result (λ made. vec_len made.1 ≡ seats) }
{
    let options = Options::plain(alloc)?;
    let (channel, passes) = Channel::make(alloc, options, Hosts::empty(alloc), seats)?;
    Ok((channel, passes))
}

/// Takes the last of a channel's passes out of their row, to which it may come back.
pub fn last_pass<B: Done + Drop, J: ChannelJournal>(
    channel: &Channel<B, J>,
    passes: &mut Vec<Pass<B, J>>,
) -> Pass<B, J>
    requires some { 0 < vec_len passes.old }
    requires at { AreAt channel.now passes.old.items }
    ensures pass { result.lock ≡ channel.now }
    ensures at { AreAt channel.now passes.new.items }
    ensures items { passes.old.items ≡ passes.new.items ++ result ∷ [] }
    ensures len { vec_len passes.old ≡ vec_len passes.new + 1 }
    ensures capacity { vec_capacity passes.new ≡ vec_capacity passes.old }
{
    passes.pop().unwrap()
}
