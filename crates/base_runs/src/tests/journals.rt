//! Both journals with ample memory, told the same through their trait.

use chan_types::{Entry, NoMemory, What};
use channel_journal::{ChannelJournal, KeptJournal, UntoldJournal};
use std::alloc::Global;
use std::test::Fail;

/// A journal that was told a Cancel by seat 2, and that a message of three bytes came from server 1 over link 7 to
/// seat 3.
fn told_two<J: ChannelJournal>(alloc: Global) -> Result<J, NoMemory> {
    let mut journal = J::begin(alloc)?;
    journal.reserve(2)?;
    journal.add(Entry {
        seat: 2,
        by: 0,
        what: What::Cancel,
    });
    let copy = J::copy(alloc, b"abc")?;
    journal.arrive(3, 1, 7, b"abc", copy);
    Ok(journal)
}

/// The entry is that of a message of these bytes, from this server over this link.
fn is_arrival(what: &What, from: u32, over: u64, message: &[u8]) -> bool {
    match what {
        What::Arrive {
            server,
            link,
            bytes,
        } => *server == from && *link == over && bytes.as_slice() == message,
        What::Accept { .. } | What::Cancel | What::Destroy | What::Take { .. } => false,
        What::Start { .. } | What::Expire { .. } => false,
        What::Fault { .. } | What::Servers { .. } => false,
    }
}

// The kept journal gives its two entries back, in order, with the bytes of the message.
#[test]
fn a_kept_journal_is_handed_out(rt: HostRuntime) -> Result<(), Fail> {
    let journal = told_two::<KeptJournal>(rt.alloc())?;
    assert!(rt; journal.count() == 2);
    let journal = journal.into_journal();
    let entries = journal.entries();
    assert!(rt; entries.len() == 2);
    assert!(rt; entries[0].seat == 2);
    assert!(rt; matches!(&entries[0].what, What::Cancel));
    assert!(rt; entries[1].seat == 3);
    assert!(rt; is_arrival(&entries[1].what, 1, 7, b"abc"));
    assert!(rt; !is_arrival(&entries[1].what, 1, 7, b"abd"));
    Ok(())
}

// The untold journal says how many entries it was told, and keeps no byte of a message.
#[test]
fn an_untold_journal_counts(rt: HostRuntime) -> Result<(), Fail> {
    let journal = told_two::<UntoldJournal>(rt.alloc())?;
    assert!(rt; journal.count() == 2);
    assert!(rt; UntoldJournal::copy(rt.alloc(), b"abc")?.is_empty());
    Ok(())
}

// Room for more entries than are ever told is refused, and leaves the journal as it was.
#[test]
fn an_untold_journal_ends(rt: HostRuntime) -> Result<(), Fail> {
    let mut journal = told_two::<UntoldJournal>(rt.alloc())?;
    assert!(rt; journal.reserve((1 << 63) - 1).is_err());
    assert!(rt; journal.reserve((1 << 63) - 2).is_ok());
    assert!(rt; journal.count() == 2);
    Ok(())
}
