//! The second lookup of a request, on the heap: most requests have one lookup alone.

ghost use Rattle.std.specs.Prelude.{◌≡◌, IfOk};

use crate::lookup::Lookup;
use chan_types::NoMemory;
use std::alloc::Global;
use std::marker::Model;

/// A lookup on the heap. Contracts see the lookup.
#[derive(Drop)]
pub struct HeldLookup {
    pub body: Box<Lookup>,
}

impl Model for HeldLookup {
    ghost use Rattle.channel_table.specs.declared.lookup.Lookup.{Lookup};

    ghost Value = { Lookup };

    ghost view = { λ held. held.body.value };
}

impl HeldLookup {
    /// This lookup.
    pub fn of(alloc: Global, lookup: Lookup) -> Result<HeldLookup, NoMemory>
        ensures { IfOk result (λ held. held ≡ lookup) }
    {
        let body = Box::new(alloc, lookup)?;
        Ok(HeldLookup { body })
    }

    /// The lookup.
    pub fn lookup(&self) -> &Lookup
        ensures { result.now ≡ self.now }
    {
        self.body.as_ref()
    }
}
