//! A run with cookies: it asks over a network with cookies, around the one that was handed in.

ghost use Rattle.std.specs.Prelude.{◌≡◌};
ghost use Rattle.tool_line.specs.Outside.{files_told, outside};
ghost use Rattle.adig_tool.specs.Running.{IsRunWithCookies};

use crate::asking::ask;
use crate::ended::Ended;
use crate::lent::LentWorld;
use cookie_world::{CookieWorld, origin_tells_how_the_log_began};
use net_world::{Files, Sink, World};
use std::alloc::Global;
use tool_line::AdigAsk;

/// Reads resolv.conf, asks over a network with cookies around this one (RFC 7873), and puts the page.
pub fn ask_with_cookies<W: World, F: Files, K: Sink>(
    alloc: Global,
    asked: AdigAsk,
    files: &mut F,
    world: &mut W,
    sink: &mut K,
    turns: u64,
) -> Ended
    ensures promise { IsRunWithCookies asked turns result
        (files_told (F.files files.old) (F.faults files.old) (F.reads files.old))
        (files_told (F.files files.new) (F.faults files.new) (F.reads files.new))
        (outside (W.log world.old) (W.wait_faults world.old) (K.bytes sink.old) (K.faults sink.old) (K.puts sink.old))
        (outside (W.log world.new) (W.wait_faults world.new) (K.bytes sink.new) (K.faults sink.new) (K.puts sink.new)) }
    ensures files { F.files files.new ≡ F.files files.old }
    ensures origin { W.origin world.new ≡ W.origin world.old }
{
    origin_tells_how_the_log_began();
    let mut cookies = CookieWorld::make(alloc, LentWorld { world });
    let end = ask(alloc, asked, files, &mut cookies, sink, turns);
    let (lent, outer) = cookies.parts();
    let LentWorld { world: _world } = lent;
    Ended::with_outer(end, outer)
}
