//! The part of a run that asks: its one request is brought to its end, and the text is put.

ghost use Rattle.std.specs.Prelude.{◌≡◌, ◌∷◌, IfOk, None, []};
ghost use Rattle.chan_types.specs.Plans.{blank};
ghost use Rattle.tool_line.specs.Outside.{outside};
ghost use Rattle.adig_tool.specs.Entries.{no_orders};
ghost use Rattle.adig_tool.specs.Promise.{Promise};
ghost use Rattle.adig_tool.specs.Running.{setting_with};

use crate::putting::tell;
use chan_types::{Orders, Script, Spec};
use completion_ticket::Scripted;
use hosts_file::Hosts;
use item_list::{Bytes, NoMemory};
use journal_text::Book;
use net_world::{Sink, World};
use owner_session::{Requests, SessionEnd, bring_to_end};
use resolv_options::Options;
use run_end::Ended;
use std::alloc::Global;
use tool_line::Exit;

/// Asks a channel with these options, and puts the page, or with the flag the book of the run. A channel that was made is
/// destroyed in every case, so that the callback is called.
pub fn resolve<W: World, K: Sink>(
    alloc: Global,
    spec: &Spec,
    as_book: bool,
    options: Options,
    world: &mut W,
    sink: &mut K,
    turns: u64,
) -> Ended
    ensures promise { Promise spec.now as_book (setting_with options) turns result
        (outside (W.log world.old) (W.wait_faults world.old) (K.bytes sink.old) (K.faults sink.old) (K.puts sink.old))
        (outside (W.log world.new) (W.wait_faults world.new) (K.bytes sink.new) (K.faults sink.new) (K.puts sink.new)) }
    ensures origin { W.origin world.new ≡ W.origin world.old }
{
    let Ok(requests) = one_request(alloc, spec) else {
        return Ended::early(alloc, Exit::OutOfMemory.number());
    };
    match bring_to_end(alloc, requests, options, Hosts::empty(alloc), world, turns) {
        Ok(ended) => {
            let SessionEnd {
                options,
                end,
                journal,
                calls,
                bodies: _,
            } = ended;
            // The book owns the journal while it is printed, so that no copy is made.
            let book = Book {
                options,
                hosts: Bytes::new(alloc),
                journal,
            };
            let status = tell(alloc, spec, as_book, &book, &calls, end, sink);
            Ended {
                status,
                journal: book.journal,
                calls,
            }
        }
        Err(_) => Ended::early(alloc, Exit::OutOfMemory.number()),
    }
}

/// The one request of a run, with a callback that commands nothing.
fn one_request(alloc: Global, spec: &Spec) -> Result<Requests<Scripted>, NoMemory>
    ensures specs { IfOk result (λ requests. requests.specs.items ≡ spec.now ∷ []) }
    ensures bodies { IfOk result (λ requests. requests.bodies.items
        ≡ record { plan = blank 0; told = None; refusal = None } ∷ []) }
    ensures orders { IfOk result (λ requests. requests.orders ≡ no_orders) }
    ensures later { IfOk result (λ requests. requests.later ≡ None) }
{
    let mut specs = Vec::new(alloc);
    specs.push(spec.copy(alloc)?)?;
    let mut bodies = Vec::new(alloc);
    bodies.push(Scripted::new(Script::blank(alloc, 0)))?;
    Ok(Requests {
        specs,
        bodies,
        orders: Orders {
            follow: false,
            first: false,
            quit: false,
        },
        later: None,
    })
}
