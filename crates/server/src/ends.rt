// The end of an event, and the slots that puts go to.
ghost use Rattle.std.specs.Prelude.{◌≡◌, List, ℕ};
ghost use Rattle.rules.specs.Links as links;
ghost use Rattle.rules.specs.Events.{live_in};
ghost use Rattle.memory.specs.Memory.{is_marked};
ghost use Rattle.table.specs.Slots.{slot_in};
ghost use Rattle.server.specs.State.{slots_of, marked_if, Closes};

use memory::{Storage, marks, store};
use protocol::{Alignment, Index, SlotIndex};
use slots::alignment;
use slots::state::Server;
use table::Slots;

// ---- the slots that puts go to, as an octet of marks
fn mark_live(slots: &Slots, k: SlotIndex, b: u8) -> u8
    ensures { is_marked result ≡ marked_if (links.is_live (slot_in slots.now k.at).link.alignment) k.at (is_marked b) }
{
    let a = table::alignment_at(slots, k);
    if alignment::is_live(a) {
        return marks::with_mark(b, k);
    }
    b
}

pub fn live_of(slots: &Slots) -> u8
    ensures { (memory : List ℕ) → is_marked result ≡ live_in (slots_of slots.now memory) }
{
    let mut b: u8 = 0;
    // A loop: a closure would not know that k is below 8.
    for k in 0..8 {
        b = mark_live(slots, Index { at: k }, b);
    }
    b
}

// ---- the end of an event
// An event in slot k is taken, and the slot put: the rows are swept, purged rows that wait for nobody freed, where some may have been changed or a
// waiting list emptied.
// `from`: the slot's alignment state before the event.
pub fn close(
    s: Server,
    slots: &Slots,
    memory: &mut Storage,
    k: SlotIndex,
    time: u32,
    changes: bool,
    from: Alignment,
) -> Server
    ensures { Closes changes from s slots.now k.at time memory.old memory.new result }
{
    let entered = alignment::enters(from, table::alignment_at(slots, k));
    if changes || entered {
        store::sweep(memory);
    }
    Server { time, ..s }
}
