// One part of a slot, read or put where it stands. Each has a name of its own because its contract speaks of another field of the rules' slot.
ghost use Rattle.std.specs.Prelude.{◌≡◌};
ghost use Rattle.rules.specs.Links as links;
ghost use Rattle.rules.specs.Slots as rules;
ghost use Rattle.table.specs.Slots.{slot_in, Changes};

use crate::Slots;
use protocol::{Alignment, CaNumber, HelloState, SlotIndex};

// ---- read
pub fn heard_at(t: &Slots, k: SlotIndex) -> u32
    ensures { result ≡ (slot_in t.now k.at).link.heard }
{
    t[k.at].link.heard
}

pub fn interval_at(t: &Slots, k: SlotIndex) -> u16
    ensures { result ≡ (slot_in t.now k.at).link.interval }
{
    t[k.at].link.interval
}

pub fn factor_at(t: &Slots, k: SlotIndex) -> u16
    ensures { result ≡ (slot_in t.now k.at).link.factor }
{
    t[k.at].link.factor
}

pub fn number_at(t: &Slots, k: SlotIndex) -> CaNumber
    ensures { result ≡ (slot_in t.now k.at).link.number }
{
    t[k.at].link.number
}

pub fn hello_sent_at(t: &Slots, k: SlotIndex) -> Option<u32>
    ensures { result ≡ (slot_in t.now k.at).timers.hello }
{
    t[k.at].timers.hello
}

pub fn ca_sent_at(t: &Slots, k: SlotIndex) -> Option<u32>
    ensures { result ≡ (slot_in t.now k.at).timers.ca }
{
    t[k.at].timers.ca
}

pub fn csus_sent_at(t: &Slots, k: SlotIndex) -> Option<u32>
    ensures { result ≡ (slot_in t.now k.at).timers.csus }
{
    t[k.at].timers.csus
}

pub fn update_sent_at(t: &Slots, k: SlotIndex) -> Option<u32>
    ensures { result ≡ (slot_in t.now k.at).timers.update }
{
    t[k.at].timers.update
}

pub fn cursor_at(t: &Slots, k: SlotIndex) -> u32
    ensures { result ≡ (slot_in t.now k.at).cursor }
{
    t[k.at].cursor
}

pub fn updates_at(t: &Slots, k: SlotIndex) -> u16
    ensures { result ≡ (slot_in t.now k.at).updates }
{
    t[k.at].updates
}

// ---- put
pub fn put_hello_sent(t: &mut Slots, k: SlotIndex, last: Option<u32>)
    ensures { Changes k.at (rules.hello_sent last) t.old t.new }
{
    t[k.at].timers.hello = last;
}

pub fn put_ca_sent(t: &mut Slots, k: SlotIndex, time: u32)
    ensures { Changes k.at (rules.ca_sent time) t.old t.new }
{
    t[k.at].timers.ca = Some(time);
}

pub fn put_csus_sent(t: &mut Slots, k: SlotIndex, time: u32)
    ensures { Changes k.at (rules.csus_sent time) t.old t.new }
{
    t[k.at].timers.csus = Some(time);
}

pub fn put_update_sent(t: &mut Slots, k: SlotIndex, time: u32)
    ensures { Changes k.at (rules.update_sent time) t.old t.new }
{
    t[k.at].timers.update = Some(time);
}

pub fn put_cursor(t: &mut Slots, k: SlotIndex, cursor: u32)
    ensures { Changes k.at (rules.with_cursor cursor) t.old t.new }
{
    t[k.at].cursor = cursor;
}

pub fn put_updates(t: &mut Slots, k: SlotIndex, n: u16)
    ensures { Changes k.at (rules.with_updates n) t.old t.new }
{
    t[k.at].updates = n;
}

pub fn put_alignment(t: &mut Slots, k: SlotIndex, a: Alignment)
    ensures { Changes k.at (λ x. rules.with_link (links.with_alignment a x.link) x) t.old t.new }
{
    t[k.at].link.alignment = a;
}

pub fn put_hello(t: &mut Slots, k: SlotIndex, h: HelloState)
    ensures { Changes k.at (λ x. rules.with_link (links.with_hello h x.link) x) t.old t.new }
{
    t[k.at].link.hello = h;
}

// What a taken Hello records.
pub fn put_heard(t: &mut Slots, k: SlotIndex, time: u32, interval: u16, factor: u16)
    ensures { Changes k.at (λ x. rules.with_link (links.recorded time interval factor x.link) x) t.old t.new }
{
    t[k.at].link.heard = time;
    t[k.at].link.interval = interval;
    t[k.at].link.factor = factor;
}
