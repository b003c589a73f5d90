//! Which calls of a form in memory fail, and how often one has.

ghost use Rattle.std.specs.Prelude.{◌≡◌};
ghost use Rattle.net_world.specs.Cause.{fails_at, raised};

use dns_message::ItemList;

/// The calls that fail, by their numbers from 0, and how many of them have failed.
#[derive(Debug, Drop)]
pub struct Failing {
    pub numbers: ItemList<u64>,
    /// It stays at its greatest.
    pub faults: u64,
}

impl Failing {
    /// The calls with these numbers fail, and none has yet. It takes no memory.
    pub fn new(numbers: Vec<u64>) -> Failing
        ensures { result ≡ record { numbers = numbers.items; faults = 0 } }
    {
        Failing {
            numbers: ItemList::from_vec(numbers),
            faults: 0,
        }
    }

    /// Whether the call with this number fails.
    pub fn fails(&self, number: u64) -> bool
        ensures { result ≡ fails_at self.now.numbers number }
    {
        self.numbers.as_slice().contains(&number)
    }

    /// Counts a call that failed, or one that didn't.
    pub fn count(&mut self, failed: bool)
        ensures { self.new ≡ record self.old { faults = raised failed self.old.faults } }
    {
        self.faults = raise(failed, self.faults);
    }
}

/// A count of calls, one more where this one counts. It stays at its greatest.
pub fn raise(counts: bool, count: u64) -> u64
    ensures { result ≡ raised counts count }
{
    if counts {
        count.saturating_add(1)
    } else {
        count
    }
}
