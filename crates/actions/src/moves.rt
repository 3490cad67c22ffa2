// Moves of a slot in the table: the fields that change are put where they stand, and the slot is read whole only where it enters another alignment state.
ghost use Rattle.std.specs.Prelude.{◌≡◌, ◌&&◌};
ghost use Rattle.protocol.specs.Hello.{stale};
ghost use Rattle.laws.specs.Lists.{is_empty};
ghost use Rattle.rules.specs.Links as links;
ghost use Rattle.rules.specs.Slots.{with_link, aligned_if};
ghost use Rattle.memory.specs.Memory.{memory_of, requests_of};
ghost use Rattle.table.specs.Slots.{slot_in, Changes};
ghost use Rattle.actions.specs.Parts.{MovesAt};

use crate::parts;
use memory::{Storage, requests};
use protocol::{Alignment, HelloState, Link, SlotIndex};
use slots::{alignment, hello, times};
use table::{Slots, fields};

fn move_slot(slots: &mut Slots, memory: &mut Storage, k: SlotIndex, l: Link)
    ensures { MovesAt k.at l slots.old slots.new memory.old memory.new }
{
    let x = table::slot_at(slots, k);
    let y = parts::move_link(memory, k, x, l);
    table::put_slot(slots, k, y);
}

// Out of Bidirectional the alignment is Down; where it is so already, the Hello state alone is put.
pub fn move_to(slots: &mut Slots, memory: &mut Storage, k: SlotIndex, h: HelloState)
    ensures { MovesAt k.at (links.to_other h (slot_in slots.old k.at).link) slots.old slots.new memory.old
        memory.new }
{
    if alignment::enters(table::alignment_at(slots, k), Alignment::Down) {
        let l = hello::to_other(table::link_at(slots, k), h);
        move_slot(slots, memory, k, l);
        return;
    }
    fields::put_hello(slots, k, h)
}

// A taken Hello. `named`: it has our ID among its receivers.
pub fn hear(
    slots: &mut Slots,
    memory: &mut Storage,
    k: SlotIndex,
    time: u32,
    interval: u16,
    factor: u16,
    named: bool,
)
    ensures { MovesAt k.at (links.hello_move time interval factor named (slot_in slots.old k.at).link) slots.old slots.new
        memory.old memory.new }
{
    if hello::stays(table::hello_at(slots, k), named) {
        fields::put_heard(slots, k, time, interval, factor);
        return;
    }
    let l = hello::hello_move(table::link_at(slots, k), time, interval, factor, named);
    move_slot(slots, memory, k, l)
}

// ---- the Hello check of a poll
fn is_stale(slots: &Slots, k: SlotIndex, time: u32) -> bool
    ensures { result ≡ (let l = (slot_in slots.now k.at).link in links.hears_peer l.hello
        && stale l.interval l.factor l.heard time) }
{
    hello::hears_peer(table::hello_at(slots, k))
        && times::stale(
            fields::interval_at(slots, k),
            fields::factor_at(slots, k),
            fields::heard_at(slots, k),
            time,
        )
}

pub fn check(slots: &mut Slots, memory: &mut Storage, k: SlotIndex, time: u32)
    ensures { MovesAt k.at (links.check_move time (slot_in slots.old k.at).link) slots.old slots.new memory.old
        memory.new }
{
    if is_stale(slots, k, time) {
        move_to(slots, memory, k, HelloState::Waiting);
    }
}

// Update with an empty request list becomes Aligned.
pub fn put_completed(slots: &mut Slots, memory: &Storage, k: SlotIndex)
    ensures { Changes k.at (λ x. with_link (links.with_alignment
        (aligned_if (is_empty (requests_of (memory_of memory.now) k.at)) x.link.alignment)
        x.link) x) slots.old slots.new }
{
    let to = alignment::completed(
        requests::count(memory, k) == 0,
        table::alignment_at(slots, k),
    );
    fields::put_alignment(slots, k, to)
}
