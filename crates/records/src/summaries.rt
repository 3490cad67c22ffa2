// Summaries: those of a CA taken in, and one put into a packet that is to be written.
ghost use Rattle.std.specs.Prelude.{◌+◌, ◌≤◌, false, [], ◌∷◌, length};
ghost use Rattle.memory.specs.Memory.{entry_named};
ghost use Rattle.records.specs.Walks.{TakesAll};
ghost use Rattle.records.specs.Views.{records_left};
ghost use Rattle.records.specs.Places.{entry_record, Puts};

use crate::packet::Records;
use memory::{Storage, summaries};
use protocol::{CsaNumber, SlotIndex};
use writer::write::put_record;

// The records join slot k's request list, each if its entry is absent or newer: how many found no room.
pub fn take_all(memory: &mut Storage, k: SlotIndex, records: Records, missed: u16) -> u16
    ensures { TakesAll k.at (records_left records.entry) missed memory.old memory.new result }
{
    let mut n = missed;
    for v in records {
        n = summaries::take_in(memory, k, v.name, v.number, n);
    }
    n
}

// Summaries of ours have hop count 1, no N and no payload.
pub fn put_summary(out: &mut [u8], at: usize, number: CsaNumber, name: &[u8]) -> usize
    requires { ((4 ≤ length name.now) × (length name.now ≤ 20)) × (at + 64 ≤ length out.old) }
    ensures { Puts 32 (entry_record 1 false number (entry_named name.now) [] ∷ []) at out.old out.new result }
{
    let none = [0u8; 0];
    put_record(out, at, 1, false, number, name, &none)
}
