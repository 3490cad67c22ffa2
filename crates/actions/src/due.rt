// Document 01, 'Poll': the first packet that is due, by the fields of the slot.
ghost use Rattle.std.specs.Prelude.{◌≡◌, Some, None};
ghost use Rattle.laws.specs.Choice.{pick};
ghost use Rattle.rules.specs.Rows.{next_waiting};
ghost use Rattle.rules.specs.Slots.{passed};
ghost use Rattle.memory.specs.Marks.{Picked};
ghost use Rattle.rules.specs.Poll as rules;
ghost use Rattle.memory.specs.Memory.{rows_in};
ghost use Rattle.slots.specs.State.{settings_of};
ghost use Rattle.table.specs.Slots.{slot_in};
ghost use Rattle.actions.specs.Parts.{slot_now};
ghost use Rattle.actions.specs.Steps.{Plans};

use memory::next::Picks;
use memory::{Storage, requests};
use protocol::{Alignment, Role, SlotIndex};
use slots::state::Settings;
use slots::times;
use table::{Slots, fields};

// The seconds between two CAs, and between two packets of one kind in Update and Aligned.
const CA_INTERVAL: u32 = 5;

const UPDATE_INTERVAL: u32 = 1;

// What a poll sends, an update request with its rows. `due_kind` gives the definition of each.
#[derive(Clone, Copy)]
pub enum Due {
    Hello,
    FirstCa,
    KeptCa,
    Csus,
    Update(Picks),
}

// ---- what is due
// One field and one interval each; both together would take the two as parameters and say no less.
pub fn ca_passed(slots: &Slots, k: SlotIndex, time: u32) -> bool
    ensures { result ≡ passed 5 (slot_in slots.now k.at).timers.ca time }
{
    times::passed(CA_INTERVAL, fields::ca_sent_at(slots, k), time)
}

fn update_passed(slots: &Slots, k: SlotIndex, time: u32) -> bool
    ensures { result ≡ passed 1 (slot_in slots.now k.at).timers.update time }
{
    times::passed(UPDATE_INTERVAL, fields::update_sent_at(slots, k), time)
}

// The rows that wait, from the slot's cursor on.
fn next_rows(slots: &Slots, memory: &Storage, k: SlotIndex) -> Picks
    ensures { Picked (slot_in slots.now k.at).cursor
        (next_waiting (rows_in memory.now) k.at (slot_in slots.now k.at).cursor) result }
{
    Picks::next_waiting(memory, k, fields::cursor_at(slots, k) as usize)
}

fn update_due(slots: &Slots, memory: &Storage, k: SlotIndex, time: u32) -> Option<Due>
    ensures { Plans (rules.update_due time (rows_in memory.now) k.at (slot_now slots.now k.at memory.now)) k.at
        (slot_in slots.now k.at) memory.now result }
{
    if !update_passed(slots, k, time) {
        return None;
    }
    let picks = next_rows(slots, memory, k);
    if picks.count == 0 {
        return None;
    }
    Some(Due::Update(picks))
}

fn csus_due(slots: &Slots, memory: &Storage, k: SlotIndex, time: u32) -> bool
    ensures { result ≡ rules.csus_due time (slot_now slots.now k.at memory.now) }
{
    times::passed(UPDATE_INTERVAL, fields::csus_sent_at(slots, k), time)
        && requests::count(memory, k) != 0
}

// A CA is due 5 seconds after the last.
fn ca_due(slots: &Slots, k: SlotIndex, time: u32, due: Due) -> Option<Due>
    ensures { result ≡ pick (passed 5 (slot_in slots.now k.at).timers.ca time) (Some due) None }
{
    ca_passed(slots, k, time).then_some(due)
}

// A match on the states, as the definition has them.
fn due_in(slots: &Slots, memory: &Storage, k: SlotIndex, time: u32, a: Alignment) -> Option<Due>
    ensures { Plans (rules.due_in time (rows_in memory.now) k.at (slot_now slots.now k.at memory.now) a) k.at
        (slot_in slots.now k.at) memory.now result }
{
    match a {
        Alignment::Down | Alignment::Summarize(Role::Slave) => None,
        Alignment::Negotiate => ca_due(slots, k, time, Due::FirstCa),
        Alignment::Summarize(Role::Master) => ca_due(slots, k, time, Due::KeptCa),
        Alignment::Update => {
            if csus_due(slots, memory, k, time) {
                return Some(Due::Csus);
            }
            update_due(slots, memory, k, time)
        }
        Alignment::Aligned => update_due(slots, memory, k, time),
    }
}

pub fn due_of(s: Settings, slots: &Slots, memory: &Storage, k: SlotIndex, time: u32) -> Option<Due>
    ensures { Plans (rules.due_of (settings_of s) time (rows_in memory.now) k.at (slot_now slots.now k.at memory.now)) k.at
        (slot_in slots.now k.at) memory.now result }
{
    if times::passed(s.interval as u32, fields::hello_sent_at(slots, k), time) {
        return Some(Due::Hello);
    }
    due_in(slots, memory, k, time, table::alignment_at(slots, k))
}
