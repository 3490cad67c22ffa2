// The answer to a CSUS.
ghost use Rattle.std.specs.Prelude.{◌≡◌, [], ◌∷◌, ◌+◌, ◌≤◌, ◌<◌, length};
ghost use Rattle.rules.specs.Server.{holds};
ghost use Rattle.rules.specs.Requests.{entry_of};
ghost use Rattle.rules.specs.Updates as rules;
ghost use Rattle.memory.specs.Memory.{rows_in, memory_of};
ghost use Rattle.memory.specs.Search.{place_found, first_from};
ghost use Rattle.memory.specs.Entries.{rows_as};
ghost use Rattle.records.specs.Walks.{answer_by, Solicits};
ghost use Rattle.records.specs.Views.{record_shown, records_left};
ghost use Rattle.records.specs.Places.{Puts};

use crate::held;
use crate::packet::Records;
use crate::view::RecordView;
use memory::rows::RowIndex;
use memory::{Storage, entries, rows};
use protocol::SlotIndex;
use writer::write::put_record;

// N set, the asked number, hop count 1. Beside `put_summary`, since one function for both is `put_record`, which each calls once.
fn put_null(out: &mut [u8], at: usize, v: RecordView) -> usize
    requires { at + 64 ≤ length out.old }
    ensures { Puts 64 (rules.null_record (record_shown v.entry) ∷ []) at out.old out.new result }
{
    let none = [0u8; 0];
    put_record(out, at, 1, true, v.number, v.name.octets, &none)
}

// By row i: as it is held, unless a greater number is asked for.
fn solicit_row(memory: &Storage, i: RowIndex, v: RecordView, out: &mut [u8], at: usize) -> usize
    requires { at + 64 ≤ length out.old }
    ensures { Puts 64 (answer_by (record_shown v.entry) memory.now i.at ∷ []) at out.old out.new result }
{
    if numbers::newer(v.number, rows::number_of(memory, i)) {
        return put_null(out, at, v);
    }
    held::put_row(memory, i, 16, out, at)
}

// By the row that was found for its entry, or by none.
fn solicit_found(
    memory: &Storage,
    found: Option<RowIndex>,
    v: RecordView,
    out: &mut [u8],
    at: usize,
) -> usize
    requires room { at + 64 ≤ length out.old }
    requires found_for { place_found found ≡ first_from (holds (entry_of (record_shown v))) 0 (rows_in memory.now) }
    ensures { Puts 64 (rules.solicited (rows_in memory.now) (record_shown v.entry) ∷ []) at out.old out.new result }
{
    match found {
        Some(i) => solicit_row(memory, i, v, out, at),
        None => put_null(out, at, v),
    }
}

// The answer to a record from slot k. What is sent waits for the slot.
fn solicit_one(
    memory: &mut Storage,
    k: SlotIndex,
    v: RecordView,
    out: &mut [u8],
    at: usize,
) -> usize
    requires { at + 64 ≤ length out.old }
    ensures { Solicits k.at (record_shown v.entry) memory.old memory.new at out.old out.new result }
{
    let found = rows::find(memory, v.name.octets);
    let next = solicit_found(memory, found, v, out, at);
    entries::answer_record(memory, k, found, v.number);
    next
}

// A record for each, in order, from octet 28 on: the place behind them.
pub fn solicit_all(memory: &mut Storage, k: SlotIndex, records: Records, out: &mut [u8]) -> usize
    requires { 284 ≤ length out.old }
    ensures puts { Puts 64 (rules.all_solicited (rows_in memory.old) (records_left records.entry)) 28 out.old
        out.new result }
    ensures waits { memory_of memory.new ≡ rows_as (rules.all_answers_wait k.at (records_left records.entry)) memory.old }
{
    let mut to: usize = 28;
    for v in records {
        to = solicit_one(memory, k, v, out, to);
    }
    to
}
