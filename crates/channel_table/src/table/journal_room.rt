//! Room in the journal for what may have to be told without memory.

ghost use Rattle.std.specs.Prelude.{◌≡◌, ◌≤◌, ◌<◌, ◌+◌, ◌*◌, ◌^◌, OnOk, length};

use chan_types::NoMemory;
use channel_journal::ChannelJournal;

/// Room for one entry more, beside those that these rows and tickets may need.
#[inline(always)]
pub fn room_for_entry<J: ChannelJournal>(
    journal: &mut J,
    rows: usize,
    ready: usize,
) -> Result<(), NoMemory>
    requires { 2 * rows + ready + 2 < 2 ^ 64 }
    ensures room { OnOk result (2 * rows + ready + 2 ≤ J.room journal.new) }
    ensures fits { OnOk result (length (J.told journal.old) + (2 * rows + ready + 2) ≤ 2 ^ 63) }
    ensures told { J.told journal.new ≡ J.told journal.old }
    ensures kept { J.room journal.old ≤ J.room journal.new }
{
    journal.reserve(2 * rows + ready + 2)
}
