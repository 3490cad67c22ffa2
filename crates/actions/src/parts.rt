// A slot's link moved, with its part of the memory.
ghost use Rattle.std.specs.Prelude.{◌≡◌, []};
ghost use Rattle.memory.specs.Memory.{memory_of, requests_put, kept_put};
ghost use Rattle.actions.specs.Parts.{Moves};

use memory::{Storage, kept, marks, requests};
use protocol::{Link, SlotIndex};
use slots::state::Slot;
use slots::{alignment, state};

// What an event made of its slot, and how many octets it wrote.
#[derive(Clone, Copy)]
pub struct Acted {
    pub slot: Slot,
    pub written: usize,
}

// Nothing was written.
pub fn silent(x: Slot) -> Acted
    ensures { result ≡ record { slot = x; written = 0 } }
{
    Acted {
        slot: x,
        written: 0,
    }
}

// ---- slot k's part of the memory
// No requests, no kept CA.
pub fn empty_lists(memory: &mut Storage, k: SlotIndex)
    ensures { memory_of memory.new ≡ kept_put k.at [] (requests_put k.at [] (memory_of memory.old)) }
{
    requests::empty(memory, k);
    kept::drop_kept(memory, k);
}

// The slot with its link moved; where Down or Negotiate is entered its part of the memory is emptied, and no row waits for it.
pub fn move_link(memory: &mut Storage, k: SlotIndex, x: Slot, l: Link) -> Slot
    ensures { Moves k.at l x memory.old memory.new result }
{
    if alignment::enters(x.link.alignment, l.alignment) {
        empty_lists(memory, k);
        marks::clear_slot(memory, k);
    }
    state::moved(x, l)
}
