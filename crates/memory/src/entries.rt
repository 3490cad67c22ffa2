// Entries, as the rules speak of them: records stored or answered, changes of ours, and what is held.
ghost use Rattle.std.specs.Prelude.{◌≡◌, false};
ghost use Rattle.laws.specs.Tables as tables;
ghost use Rattle.protocol.specs.Numbers as definition;
ghost use Rattle.rules.specs.Server.{Entry, holds};
ghost use Rattle.rules.specs.Rows.{entry_row, unmarked};
ghost use Rattle.rules.specs.Requests.{up_to_date};
ghost use Rattle.rules.specs.Updates.{value, stepped, changed_row, purged_row, set_rows, withdraw_rows, purge_rows, stored, waits_again, rows_by};
ghost use Rattle.rules.specs.Updates.{replied, answer_waits};
ghost use Rattle.memory.specs.Memory.{entry_named, is_marked, row_in, rows_in, memory_of};
ghost use Rattle.memory.specs.Search.{place_found, with_row, first_from};
ghost use Rattle.memory.specs.Entries.{received, rows_as, put_rows};

use crate::names::EntryName;
use crate::rows::RowIndex;
use crate::store::{Held, Payload};
use crate::{Storage, marks, rows, store};
use protocol::{CsaNumber, SlotIndex};

// ---- records of a CSU Request from slot k
// In the row that was found for the entry, or in the lowest free one.
fn put_entry(memory: &mut Storage, found: Option<RowIndex>, name: EntryName, v: Held)
    requires { place_found found ≡ first_from (holds (entry_named name.octets.now)) 0 (rows_in memory.old) }
    ensures { memory_of memory.new ≡ rows_as (put_rows (entry_named name.entry.octets.now)
        (value v.entry.number v.entry.payload.octets.now v.entry.remaining) (is_marked v.entry.marks)) memory.old }
{
    match found {
        Some(i) => store::put_value(memory, i, v),
        None => {
            store::insert(memory, name, v);
        }
    }
}

// A record is stored: one hop less, and it waits for the other live slots. Without a free row nothing is.
pub fn store_record(
    memory: &mut Storage,
    found: Option<RowIndex>,
    live: u8,
    k: SlotIndex,
    name: EntryName,
    number: CsaNumber,
    payload: Payload,
    hops: u16,
)
    requires { place_found found ≡ first_from (holds (entry_named name.octets.now)) 0 (rows_in memory.old) }
    ensures { memory_of memory.new ≡ rows_as (rows_by stored (is_marked live) k.at
        (received hops number (entry_named name.entry.octets.now) payload.entry.octets.now)) memory.old }
{
    let remaining = hops.saturating_sub(1);
    let marks = marks::spread_of(live, k, remaining);
    let v = Held {
        number,
        payload,
        remaining,
        marks,
    };
    put_entry(memory, found, name, v);
}

// This one, `older_record`, `answer_record`, `withdraw_entry` and `purge_entry` are one call each on a row that was found: one function
// that takes the call as a closure would state the closure's contract beside its own, and be no shorter.
// A record equal to what is held: the row that was found waits for slot k no more.
pub fn equal_record(memory: &mut Storage, k: SlotIndex, found: Option<RowIndex>)
    ensures memory_after { (e : Entry) → place_found found ≡ first_from (holds e) 0 (rows_in memory.old) → memory_of memory.new
        ≡ rows_as (tables.change (holds e) (unmarked k.at)) memory.old }
    ensures kept { found ≡ None → memory.new ≡ memory.old }
{
    if let Some(i) = found {
        marks::clear_mark(memory, i, k)
    }
}

// A record older than what is held: the row that was found waits for slot k again.
pub fn older_record(memory: &mut Storage, k: SlotIndex, found: Option<RowIndex>)
    ensures memory_after { (e : Entry) → place_found found ≡ first_from (holds e) 0 (rows_in memory.old) → memory_of memory.new
        ≡ rows_as (tables.change (holds e) (waits_again k.at)) memory.old }
    ensures kept { found ≡ None → memory.new ≡ memory.old }
{
    if let Some(i) = found {
        marks::mark_again(memory, i, k)
    }
}

// ---- a record of a CSU Reply from slot k
pub fn reply_record(memory: &mut Storage, k: SlotIndex, name: EntryName, number: CsaNumber)
    ensures memory_after { memory_of memory.new ≡ rows_as (tables.change (holds (entry_named name.entry.octets.now)) (replied k.at number))
        memory.old }
    ensures kept { tables.has (holds (entry_named name.entry.octets.now)) (rows_in memory.old) ≡ false
        → memory.new ≡ memory.old }
{
    if let Some(i) = rows::find(memory, name.octets) {
        marks::reply_mark(memory, i, k, number)
    }
}

// ---- a record of a CSUS from slot k
// It was answered: the row that was found waits for slot k, if it was sent and hops remain.
pub fn answer_record(memory: &mut Storage, k: SlotIndex, found: Option<RowIndex>, number: CsaNumber)
    ensures memory_after { (e : Entry) → place_found found ≡ first_from (holds e) 0 (rows_in memory.old) → memory_of memory.new
        ≡ rows_as (tables.change (holds e) (answer_waits k.at number)) memory.old }
    ensures kept { found ≡ None → memory.new ≡ memory.old }
{
    if let Some(i) = found {
        marks::answer_mark(memory, i, k, number)
    }
}

// ---- changes of ours: they wait for every live slot
fn step_of(n: CsaNumber) -> CsaNumber
    ensures { result ≡ stepped n (definition.next_csa n) }
{
    numbers::next_csa(n).unwrap_or(n)
}

fn change_row(memory: &mut Storage, live: u8, i: RowIndex, payload: Payload)
    ensures { memory_of memory.new ≡ with_row memory.old i.at (changed_row (is_marked live) payload.entry.octets.now
        (row_in memory.old i.at)) }
{
    let held = rows::number_of(memory, i);
    let number = step_of(held);
    let v = Held {
        number,
        payload,
        remaining: 16,
        marks: live,
    };
    store::put_value(memory, i, v);
}

fn purge_row(memory: &mut Storage, live: u8, i: RowIndex)
    ensures { memory_of memory.new ≡ with_row memory.old i.at (purged_row (is_marked live) (row_in memory.old i.at)) }
{
    let v = Held {
        number: CsaNumber(i32::MAX),
        payload: Payload { octets: &[] },
        remaining: 16,
        marks: live,
    };
    store::put_value(memory, i, v);
}

// An entry of ours, in the row that was found for it, or new.
pub fn set_entry(
    memory: &mut Storage,
    found: Option<RowIndex>,
    live: u8,
    name: EntryName,
    payload: Payload,
)
    requires { place_found found ≡ first_from (holds (entry_named name.octets.now)) 0 (rows_in memory.old) }
    ensures { memory_of memory.new ≡ rows_as (set_rows (is_marked live) (entry_named name.entry.octets.now)
        payload.entry.octets.now) memory.old }
{
    match found {
        Some(i) => change_row(memory, live, i, payload),
        None => {
            let v = Held {
                number: CsaNumber(-i32::MAX),
                payload,
                remaining: 16,
                marks: live,
            };
            store::insert(memory, name, v);
        }
    }
}

// The payload becomes empty; the row is kept.
pub fn withdraw_entry(memory: &mut Storage, live: u8, found: Option<RowIndex>)
    ensures memory_after { (e : Entry) → place_found found ≡ first_from (holds e) 0 (rows_in memory.old) → memory_of memory.new
        ≡ rows_as (withdraw_rows (is_marked live) e) memory.old }
    ensures kept { found ≡ None → memory.new ≡ memory.old }
{
    if let Some(i) = found {
        change_row(memory, live, i, Payload { octets: &[] })
    }
}

// The entry gets the last number, and no payload.
pub fn purge_entry(memory: &mut Storage, live: u8, found: Option<RowIndex>)
    ensures memory_after { (e : Entry) → place_found found ≡ first_from (holds e) 0 (rows_in memory.old) → memory_of memory.new
        ≡ rows_as (purge_rows (is_marked live) e) memory.old }
    ensures kept { found ≡ None → memory.new ≡ memory.old }
{
    if let Some(i) = found {
        purge_row(memory, live, i)
    }
}

// ---- what is held
// Whether the row of the entry has a number no smaller.
pub fn is_up_to_date(memory: &Storage, name: EntryName, number: CsaNumber) -> bool
    ensures { result ≡ up_to_date number (entry_row (entry_named name.entry.octets.now) (rows_in memory.now)) }
{
    rows::find(memory, name.octets).is_some_and(|i| !numbers::newer(
        number,
        rows::number_of(memory, i),
    ))
}
