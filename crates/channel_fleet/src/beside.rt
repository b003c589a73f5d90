//! One part of a work beside shares of another, each in a thread of its own.
ghost use Rattle.channel_fleet.specs.Beside.{DoEach, MayEach};

use std::sync::Wait;
use std::thread::{Threads, for_each_mut, join_mut};

/// How many threads run the shares: as many as a fleet may have channels.
const MOST_THREADS: usize = 16;

/// A part that one thread does.
pub(crate) trait Part<R> {
    // what was done, between these states
    ghost does: { Self → Self → Type 0 };

    /// Does it.
    fn run(&mut self, rt: &R)
        ensures { does self.old self.new };
}

/// One of several shares that threads do with what they have in common.
pub(crate) trait Share<C, R> {
    ghost use Rattle.std.specs.Prelude.{ℕ};

    // whether the share with this index may be done
    ghost may: { C → ℕ → Self → Type 0 };

    // what was done, between these states
    ghost does: { C → Self → Self → Type 0 };

    /// Does it.
    fn run(&mut self, rt: &R, common: &C, index: usize)
        requires { may common.now index self.old }
        ensures { does common.now self.old self.new };
}

/// Does the part beside the shares, each in a thread of its own.
pub(crate) fn beside<M: Part<R> + Send, C: Sync, T: Share<C, R> + Send, R: Threads + Wait + Sync>(
    rt: &R,
    main: &mut M,
    common: &C,
    shares: &mut [T],
)
    requires may { MayEach (T.may common.now) shares.old }
    ensures main { M.does main.old main.new }
    ensures each { DoEach (T.does common.now) shares.old shares.new }
{
    // Where no thread can be made the shares are done behind the part.
    join_mut(
        rt,
        &mut ||
            requires { MayEach (T.may common.now) shares.now }
        { run_shares(rt, common, shares) },
        &mut || run_part(rt, main),
    );
}

/// Does the part.
fn run_part<M: Part<R>, R: Wait>(rt: &R, part: &mut M)
    ensures { M.does part.old part.new }
{
    part.run(rt);
}

/// Does the shares, each in a thread of its own.
fn run_shares<C: Sync, T: Share<C, R> + Send, R: Threads + Wait + Sync>(
    rt: &R,
    common: &C,
    shares: &mut [T],
)
    requires may { MayEach (T.may common.now) shares.old }
    ensures { DoEach (T.does common.now) shares.old shares.new }
{
    for_each_mut(
        rt,
        shares,
        MOST_THREADS,
        &|index, share: &mut T|
            requires { T.may common.now index share.old }
            ensures { T.does common.entry.now share.entry.now share.exit.now }
        { run_share(rt, common, index, share) },
    );
}

/// Does one share.
fn run_share<C, T: Share<C, R>, R: Wait>(rt: &R, common: &C, index: usize, share: &mut T)
    requires { T.may common.now index share.old }
    ensures { T.does common.now share.old share.new }
{
    share.run(rt, common, index);
}
