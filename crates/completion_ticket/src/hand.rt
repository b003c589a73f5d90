//! Hands: the commands that a callback gives, on their way to the one that performs them.

ghost use Rattle.std.specs.Prelude.{◌≡◌, ◌≢◌, ◌+◌, ◌-◌, [], ◌∷◌, ◌++◌, IfOk, length, option_to_list, IfNone};

use chan_types::{Command, NoMemory, Orders, Script, Spec};
use std::alloc::Global;
use std::collections::VecDeque;
use std::marker::Model;

/// The commands that a callback has given and that aren't performed yet, at most eight; and the orders that a callback
/// goes by. Contracts see it as the record of both.
#[derive(Drop)]
pub struct Hand {
    orders: Orders,
    commands: VecDeque<Command>,
}

impl Model for Hand {
    ghost use Rattle.std.specs.Prelude.{◌≤◌};
    ghost use Rattle.std.specs.Coded.{codes};
    ghost use Rattle.std.specs.VecDeque.{deque_len, deque_capacity};
    ghost use Rattle.chan_types.specs.PlanCode.{moves_code};
    ghost use Rattle.completion_ticket.specs.States.{HandState};

    ghost Value = { HandState };

    ghost coded = { Prim.hlevel (codes, moves_code) };

    ghost view = { λ hand. record { orders = hand.orders; commands = hand.commands.items } };

    ghost invariant = { λ hand. (deque_len hand.commands ≤ 8) × (8 ≤ deque_capacity hand.commands) };
}

/// The most commands in a hand: as many as a script has steps.
const MOST_COMMANDS: usize = 8;

impl Hand {
    ghost use Rattle.completion_ticket.specs.States.{HandState, no_orders};

    /// A hand without commands and without orders. It has all the room that it will need.
    pub fn make(alloc: Global) -> Result<Hand, NoMemory>
        ensures { IfOk result (λ hand. hand ≡ record { orders = no_orders; commands = [] }) }
    {
        Ok(Hand {
            orders: Orders {
                follow: false,
                first: false,
                quit: false,
            },
            commands: VecDeque::with_capacity(alloc, MOST_COMMANDS)?,
        })
    }

    /// Sets the orders. The commands stay.
    pub fn set(&mut self, orders: Orders)
        ensures { self.new ≡ record self.old { orders = orders } }
    {
        self.orders = orders;
    }

    /// The orders.
    pub fn orders(&self) -> Orders
        ensures { result ≡ self.now.orders }
    {
        self.orders
    }

    /// For how many further commands there is room.
    pub fn free(&self) -> u64
        ensures { result + length self.now.commands ≡ 8 }
    {
        (MOST_COMMANDS - self.commands.len()) as u64
    }

    /// Commands to ask this, with a callback of this script. It takes no memory.
    pub fn ask(&mut self, spec: Spec, script: Script)
        requires { length self.old.commands ≢ 8 }
        ensures { self.new ≡ record self.old { commands = self.old.commands ++ Command.Ask spec script ∷ [] } }
    {
        self.add(Command::Ask(spec, script));
    }

    /// Commands to cancel every pending request. It takes no memory.
    pub fn cancel(&mut self)
        requires { length self.old.commands ≢ 8 }
        ensures { self.new ≡ record self.old { commands = self.old.commands ++ Command.Cancel ∷ [] } }
    {
        self.add(Command::Cancel);
    }

    /// Commands to destroy the channel. It takes no memory.
    pub fn destroy(&mut self)
        requires { length self.old.commands ≢ 8 }
        ensures { self.new ≡ record self.old { commands = self.old.commands ++ Command.Destroy ∷ [] } }
    {
        self.add(Command::Destroy);
    }

    /// Takes out the first command, if there is one. It takes no memory.
    pub fn next(&mut self) -> Option<Command>
        ensures first { self.old.commands ≡ option_to_list result ++ self.new.commands }
        ensures none { IfNone result (self.old.commands ≡ []) }
        ensures orders { self.new.orders ≡ self.old.orders }
    {
        self.commands.pop_front()
    }

    /// Adds a command behind the others.
    fn add(&mut self, command: Command)
        requires { length self.old.commands ≢ 8 }
        ensures { self.new ≡ record self.old { commands = self.old.commands ++ command ∷ [] } }
    {
        self.commands.push_back(command).unwrap();
    }
}
