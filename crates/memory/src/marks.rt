// The marks: which slots a used row waits for. Bit k of a row's octet is slot k; a free row waits for none, whatever its octet says.
ghost use Rattle.std.specs.Prelude.{◌≡◌, ◌^◌, ◌<◌, true, false, ◌||◌, map, length, ◌==◌};
ghost use Rattle.laws.specs.Choice.{pick};
ghost use Rattle.laws.specs.Tables.{on};
ghost use Rattle.protocol.specs.Numbers as definition;
ghost use Rattle.rules.specs.Server.{waits_for, row_at};
ghost use Rattle.rules.specs.Rows as rules;
ghost use Rattle.rules.specs.Updates.{waits_again, replied, answer_waits};
ghost use Rattle.memory.specs.Memory.{is_marked, value_at, rows_in, memory_of, with_rows};
ghost use Rattle.memory.specs.Marks.{with_marks, marked, changed_at, AnyMarks};

use crate::layout::{LENGTHS_AT, MARKS_AT, ROWS};
use crate::rows::RowIndex;
use crate::{Storage, rows};
use protocol::{CsaNumber, Index, SlotIndex};

// ---- an octet of marks
fn power_of(k: SlotIndex) -> u8
    ensures { (result ≡ 2 ^ k.at) × (0 < result) }
{
    1 << k.at
}

pub fn is_marked(b: u8, k: SlotIndex) -> bool
    ensures { result ≡ is_marked b k.at }
{
    b >> k.at & 1 == 1
}

// The octet with slot k's mark. Not one function with `without_mark`: a flag would choose between the two operators, and each caller wants one.
pub fn with_mark(b: u8, k: SlotIndex) -> u8
    ensures { is_marked result ≡ on k.at true (is_marked b) }
{
    b | power_of(k)
}

// The octet without slot k's mark.
fn without_mark(b: u8, k: SlotIndex) -> u8
    ensures { is_marked result ≡ on k.at false (is_marked b) }
{
    b & !power_of(k)
}

// The marks of a change stored from slot k: the other live slots, if hops remain.
pub fn spread_of(live: u8, k: SlotIndex, remaining: u16) -> u8
    ensures { is_marked result ≡ rules.spread (is_marked live) k.at remaining }
{
    if remaining == 0 {
        return 0;
    }
    without_mark(live, k)
}

// ---- the marks of rows
// Whether row i waits for slot k.
pub fn waits(memory: &Storage, i: RowIndex, k: SlotIndex) -> bool
    ensures { result ≡ waits_for k.at (row_at (rows_in memory.now) i.at) }
{
    memory[LENGTHS_AT + i.at] != 0 && is_marked(memory[MARKS_AT + i.at], k)
}

fn if_used(length: u8, marks: u8) -> u8
    ensures { result ≡ pick (length == 0) 0 marks }
{
    if length == 0 { 0 } else { marks }
}

// The slots that some row waits for: without a way out, so that the compiler takes 16 rows at a time. `fold` over the two sections zipped is no plainer: a
// closure of the octet so far and a pair, and a slice of marks beside `rows::lengths`.
pub fn any_marks(memory: &Storage) -> u8
    ensures { AnyMarks (rows_in memory.now) result }
{
    let mut all: u8 = 0;
    for i in 0..ROWS {
        all |= if_used(memory[LENGTHS_AT + i], memory[MARKS_AT + i]);
    }
    all
}

// Row i has these marks.
fn put_marks(memory: &mut Storage, i: RowIndex, marks: u8)
    ensures { memory_of memory.new ≡ changed_at (with_marks (is_marked marks)) i.at memory.old }
{
    memory[MARKS_AT + i.at] = marks;
}

// Row i waits for slot k. As with the octets, a flag for this and `clear_mark` would be no plainer.
fn set_mark(memory: &mut Storage, i: RowIndex, k: SlotIndex)
    ensures { memory_of memory.new ≡ changed_at (marked k.at) i.at memory.old }
{
    let b = with_mark(memory[MARKS_AT + i.at], k);
    put_marks(memory, i, b)
}

// Row i does not wait for slot k.
pub fn clear_mark(memory: &mut Storage, i: RowIndex, k: SlotIndex)
    ensures { memory_of memory.new ≡ changed_at (rules.unmarked k.at) i.at memory.old }
{
    let b = without_mark(memory[MARKS_AT + i.at], k);
    put_marks(memory, i, b)
}

// An older record of row i's entry was received from slot k: the row waits for it again, if hops remain.
pub fn mark_again(memory: &mut Storage, i: RowIndex, k: SlotIndex)
    ensures memory_after { memory_of memory.new ≡ changed_at (waits_again k.at) i.at memory.old }
    ensures kept { (value_at memory.old i.at).remaining ≡ 0 → memory.new ≡ memory.old }
{
    if rows::remaining_of(memory, i) == 0 {
        return;
    }
    set_mark(memory, i, k)
}

// A reply was received from slot k with a number of row i's entry: with the number held, the row waits for it no more.
pub fn reply_mark(memory: &mut Storage, i: RowIndex, k: SlotIndex, number: CsaNumber)
    ensures memory_after { memory_of memory.new ≡ changed_at (replied k.at number) i.at memory.old }
    ensures kept { (definition.newer number (value_at memory.old i.at).number
        || definition.newer (value_at memory.old i.at).number number) ≡ true → memory.new ≡ memory.old }
{
    if number == rows::number_of(memory, i) {
        clear_mark(memory, i, k)
    }
}

// A number of row i's entry was asked for by slot k: what is sent for it waits, if hops remain. A greater number is not held, and none is sent.
pub fn answer_mark(memory: &mut Storage, i: RowIndex, k: SlotIndex, number: CsaNumber)
    ensures memory_after { memory_of memory.new ≡ changed_at (answer_waits k.at number) i.at memory.old }
    ensures kept { definition.newer number (value_at memory.old i.at).number ≡ true → memory.new ≡ memory.old }
{
    if numbers::newer(number, rows::number_of(memory, i)) {
        return;
    }
    mark_again(memory, i, k)
}

// No row waits for slot k.
pub fn clear_slot(memory: &mut Storage, k: SlotIndex)
    ensures { memory_of memory.new ≡ with_rows (map (rules.unmarked k.at) (rows_in memory.old))
        (memory_of memory.old) }
{
    for at in 0..ROWS {
        clear_mark(memory, Index { at }, k);
    }
}
