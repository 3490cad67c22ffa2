// A summary taken in: a request for what the rows do not have.
ghost use Rattle.memory.specs.Memory.{entry_named};
ghost use Rattle.memory.specs.Lists.{TakesIn};

use crate::names::EntryName;
use crate::{Storage, entries, requests};
use protocol::{CsaNumber, SlotIndex};

// A summary of an absent or newer entry joins slot k's request list: how many found no room.
pub fn take_in(
    memory: &mut Storage,
    k: SlotIndex,
    name: EntryName,
    number: CsaNumber,
    missed: u16,
) -> u16
    ensures { TakesIn k.at (entry_named name.entry.octets.now) number missed memory.old memory.new result }
{
    if entries::is_up_to_date(memory, name, number) {
        return missed;
    }
    requests::join(memory, k, name, number, missed)
}
