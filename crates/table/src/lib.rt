// The peer slots in a lent table: a part is read or put where it stands, so that no event copies them all.
#![tactic(auto, unfolding(crate::specs::Slots::slot_in))]

ghost use Rattle.std.specs.Prelude.{◌≡◌, ℕ};
ghost use Rattle.laws.specs.Tables.{on};
ghost use Rattle.table.specs.Slots.{unused, slot_in};

pub mod fields;

use protocol::{Alignment, HelloState, Link, SlotIndex};
use slots::state;
use slots::state::Slot;

// The table that a host lends.
pub type Slots = [Slot; 8];

// ---- a slot read
pub fn used_at(t: &Slots, k: SlotIndex) -> bool
    ensures { result ≡ (slot_in t.now k.at).used }
{
    t[k.at].used
}

pub fn peer_at(t: &Slots, k: SlotIndex) -> [u8; 4]
    ensures { result ≡ (slot_in t.now k.at).peer }
{
    t[k.at].peer
}

pub fn hello_at(t: &Slots, k: SlotIndex) -> HelloState
    ensures { result ≡ (slot_in t.now k.at).link.hello }
{
    t[k.at].link.hello
}

pub fn alignment_at(t: &Slots, k: SlotIndex) -> Alignment
    ensures { result ≡ (slot_in t.now k.at).link.alignment }
{
    t[k.at].link.alignment
}

pub fn link_at(t: &Slots, k: SlotIndex) -> Link
    ensures { result ≡ (slot_in t.now k.at).link }
{
    t[k.at].link
}

pub fn slot_at(t: &Slots, k: SlotIndex) -> Slot
    ensures { result ≡ slot_in t.now k.at }
{
    t[k.at]
}

// ---- a slot put
pub fn put_slot(t: &mut Slots, k: SlotIndex, x: Slot)
    ensures { (j : ℕ) → slot_in t.new j ≡ on k.at x (slot_in t.old) j }
{
    t[k.at] = x;
}

// A table in which no slot has a peer.
pub fn empty() -> Slots
    ensures { (k : ℕ) → slot_in result k ≡ unused }
{
    [state::fresh_slot(); 8]
}

// The same in place, for a table of any length.
pub fn clear(t: &mut [Slot])
    ensures { (k : ℕ) → slot_in t.new k ≡ unused }
{
    t.fill(state::fresh_slot());
}
