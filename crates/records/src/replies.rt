// The records of a CSU Reply.
ghost use Rattle.std.specs.Prelude.{◌≡◌};
ghost use Rattle.rules.specs.Updates.{all_replied};
ghost use Rattle.memory.specs.Memory.{memory_of};
ghost use Rattle.memory.specs.Entries.{rows_as};
ghost use Rattle.records.specs.Views.{records_left};

use crate::packet::Records;
use memory::{Storage, entries};
use protocol::SlotIndex;

// Rows that the records are of wait for slot k no more, if the number is the one held.
pub fn reply_all(memory: &mut Storage, k: SlotIndex, records: Records)
    ensures { memory_of memory.new ≡ rows_as (all_replied k.at (records_left records.entry)) memory.old }
{
    for v in records {
        entries::reply_record(memory, k, v.name, v.number);
    }
}
