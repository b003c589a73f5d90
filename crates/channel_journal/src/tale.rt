//! A list of entries that only proofs see: what was told is no byte of any memory.

ghost use Rattle.std.specs.Prelude.{◌≡◌, [], ◌∷◌, ◌++◌, IfOk};

use atomic_table::{Play, Seat, Shared, Table, TableRule};
use chan_types::Entry;
use std::alloc::{AllocError, Global};
use std::collections::LinkedList;
use std::marker::{Brand, Model, PhantomData};

/// What is told next: the caller of `tell` and of `tell_arrival` picks it.
pub trait Told {
    ghost use Rattle.chan_types.specs.declared.journal.Entry.{Entry};

    ghost entry: { Entry };
}

impl Told for Brand {
    ghost use Rattle.channel_journal.specs.Told.{cancelled};

    ghost entry = { cancelled };
}

/// Anything may be told.
pub struct Free {
    of: PhantomData<u8>,
}

impl TableRule<u8, LinkedList<Entry>, ()> for Free {
    ghost use Rattle.std.specs.Prelude.{[]};

    ghost holds = { λ key s. Unit {0} };

    ghost first = { λ key. [] };
}

/// The step that tells one entry more.
pub struct Tell<T: Told> {
    of: PhantomData<T>,
}

impl<T: Told> Play<u8, LinkedList<Entry>> for Tell<T> {
    ghost use Rattle.std.specs.Prelude.{◌≡◌, [], ◌∷◌, ◌++◌};

    ghost then = { λ s v found w. w ≡ (v.0 ++ T.entry ∷ [], v.1) };
}

/// What was told so far, oldest first. Contracts see it as the list; it has no byte for an entry: the list is what the
/// one seat of a table of atomic words has seen, and a step of that table changes it by what its caller picks.
#[derive(Drop)]
pub struct Tale {
    table: Table<u8, LinkedList<Entry>, (), Free, Global>,
    seat: Seat<u8, LinkedList<Entry>>,
}

impl Model for Tale {
    ghost use Rattle.std.specs.Prelude.{List, ◌≡◌, []};
    ghost use Rattle.std.specs.Coded.{codes};
    ghost use Rattle.chan_types.specs.PlanCode.{moves_code};
    ghost use Rattle.chan_types.specs.declared.journal.Entry.{Entry};

    ghost Value = { List Entry };

    ghost coded = { Prim.hlevel (codes, moves_code) };

    ghost view = { λ tale. tale.seat.me.0 };

    ghost invariant = { λ tale. (tale.seat.table_id ≡ tale.table.shared.table_id) × (tale.table.shared.table_id.words ≡ 1) × (tale.seat.me.1 ≡ []) };
}

impl Tale {
    /// Nothing was told.
    pub fn begin(alloc: Global) -> Result<Tale, AllocError>
        ensures { IfOk result (λ tale. tale ≡ []) }
    {
        let (table, seat) = Table::of_words(alloc, &[0], &())?;
        Ok(Tale { table, seat })
    }

    /// Tells one entry more, which may be this one.
    pub fn tell<T: Told>(&mut self, _entry: &Entry)
        ensures { self.new ≡ self.old ++ T.entry ∷ [] }
    {
        let Tale { table, seat } = self;
        tell_at::<T>(&table.shared, seat);
    }

    /// Tells one entry more, which may be that of this message.
    pub fn tell_arrival<T: Told>(&mut self, _seat: u64, _server: u32, _link: u64, _bytes: &[u8])
        ensures { self.new ≡ self.old ++ T.entry ∷ [] }
    {
        let Tale { table, seat } = self;
        tell_at::<T>(&table.shared, seat);
    }
}

/// One step, which changes what the seat has been told alone.
fn tell_at<T: Told>(
    shared: &Shared<u8, LinkedList<Entry>, (), Free>,
    seat: &mut Seat<u8, LinkedList<Entry>>,
)
    requires { (seat.old.table_id ≡ shared.now.table_id) × (shared.now.table_id.words ≡ 1) }
    ensures same { (seat.new.table_id ≡ seat.old.table_id) × (seat.new.id ≡ seat.old.id) }
    ensures told { seat.new.me ≡ (seat.old.me.0 ++ T.entry ∷ [], seat.old.me.1) }
{
    shared.load::<Tell<T>>(seat, 0);
}
