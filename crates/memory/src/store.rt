// The rows put and freed; and a fresh memory.
ghost use Rattle.std.specs.Prelude.{◌≡◌, ◌<◌, ◌≤◌, length};
ghost use Rattle.protocol.specs.Sizes.{payload_most};
ghost use Rattle.protocol.specs.Numbers.{bits_of};
ghost use Rattle.rules.specs.Server.{free, used};
ghost use Rattle.rules.specs.Rows.{is_purged, to_free, swept_row, swept};
ghost use Rattle.rules.specs.Updates.{value};
ghost use Rattle.memory.specs.Memory.{entry_named, is_marked, row_in, rows_in, memory_of, with_rows, fresh_memory};
ghost use Rattle.memory.specs.Search.{head_put, value_put, sections_put, row_put, with_row, revalued, Inserts, LastOrNone, FirstLast};

use crate::layout::{ID, LENGTHS_AT, MARKS_AT, NAME_PLACE, ROW_SIZE, ROWS, TAGS_AT, TOPS_AT};
use crate::names::EntryName;
use crate::rows::RowIndex;
use crate::{Storage, rows, tags};
use protocol::{CsaNumber, Index};

// The payload of an entry: a row has room for it.
#[derive(Clone, Copy)]
pub struct Payload<'a> {
    pub octets: &'a [u8],
    pub ghost fits: { length octets.now ≤ payload_most },
}

// What a row holds of its entry, and the slots that it waits for.
#[derive(Clone, Copy)]
pub struct Held<'a> {
    pub number: CsaNumber,
    pub payload: Payload<'a>,
    pub remaining: u16,
    pub marks: u8,
}

// ---- rows put
// The first octets of a row's body, the number's highest octet and the marks.
fn put_head(memory: &mut Storage, i: RowIndex, v: Held)
    ensures { memory.new ≡ head_put i.at (length v.entry.payload.octets.now) (bits_of v.entry.number) v.entry.remaining
        v.entry.marks memory.old }
{
    let [top, n1, n2, n3] = numbers::bits_of(v.number).to_be_bytes();
    let [h0, h1] = v.remaining.to_be_bytes();
    let payload = v.payload.octets.len() as u8;
    octets::put(
        memory,
        i.at * ROW_SIZE,
        &[payload, 0, h0, h1, 0, n1, n2, n3],
    );
    memory[TOPS_AT + i.at] = top;
    memory[MARKS_AT + i.at] = v.marks;
}

// Another value and other marks for the entry of row i; a free row stays free.
pub fn put_value(memory: &mut Storage, i: RowIndex, v: Held)
    ensures memory_after { memory_of memory.new ≡ with_row memory.old i.at (revalued
        (value v.entry.number v.entry.payload.octets.now v.entry.remaining) (is_marked v.entry.marks) (row_in memory.old i.at)) }
    ensures octets { memory.new ≡ value_put i.at v.entry.number v.entry.payload.octets.now v.entry.remaining
        v.entry.marks memory.old }
{
    let at = i.at * ROW_SIZE + NAME_PLACE + rows::key_room(memory, i) + ID;
    put_head(memory, i, v);
    octets::put(memory, at, v.payload.octets);
}

// Key length and tag: they make it the row of the name that is put.
fn put_sections(memory: &mut Storage, i: RowIndex, key: usize, tag: u8)
    requires { key ≤ 16 }
    ensures { memory.new ≡ sections_put i.at key tag memory.old }
{
    memory[LENGTHS_AT + i.at] = key as u8;
    memory[TAGS_AT + i.at] = tag;
}

// Row i gains an entry, whatever it was. No other function gives a row an entry.
pub fn put_row(memory: &mut Storage, i: RowIndex, name: EntryName, v: Held)
    ensures memory_after { memory_of memory.new ≡ with_row memory.old i.at (used (entry_named name.entry.octets.now)
        (value v.entry.number v.entry.payload.octets.now v.entry.remaining) (is_marked v.entry.marks)) }
    ensures octets { memory.new ≡ row_put i.at name.entry.octets.now v.entry.number v.entry.payload.octets.now
        v.entry.remaining v.entry.marks memory.old }
{
    let tag = tags::tag_of(name.octets);
    put_head(memory, i, v);
    put_sections(memory, i, name.octets.len() - ID, tag);
    let at = octets::put(memory, i.at * ROW_SIZE + NAME_PLACE, name.octets);
    octets::put(memory, at, v.payload.octets);
}

// A new entry takes the lowest free row: which one, if there is one.
pub fn insert(memory: &mut Storage, name: EntryName, v: Held) -> Option<RowIndex>
    ensures { Inserts (used (entry_named name.entry.octets.now)
        (value v.entry.number v.entry.payload.octets.now v.entry.remaining) (is_marked v.entry.marks)) memory.old
        memory.new result }
{
    let i = rows::free_row(memory)?;
    put_row(memory, i, name, v);
    Some(i)
}

// Row i loses its entry. No other function frees a row. Its tag is that of no name, so that a search passes it by.
fn free_at(memory: &mut Storage, i: RowIndex)
    ensures { memory_of memory.new ≡ with_row memory.old i.at free }
{
    put_sections(memory, i, 0, 255)
}

// ---- the end of an event: a purged row that waits for nobody is freed
pub fn is_purged(n: CsaNumber) -> bool
    ensures { result ≡ is_purged n }
{
    i32::MAX <= n.0
}

// Whether row i is to be freed: the number's highest octet tells nearly always that it is not.
fn is_last(memory: &Storage, i: RowIndex) -> bool
    ensures { result ≡ to_free (row_in memory.now i.at) }
{
    let waits = memory[MARKS_AT + i.at] != 0;
    memory[TOPS_AT + i.at] == 127
        && memory[LENGTHS_AT + i.at] != 0
        && !waits
        && is_purged(rows::number_of(memory, i))
}

fn sweep_row(memory: &mut Storage, i: RowIndex)
    ensures { memory_of memory.new ≡ with_row memory.old i.at (swept_row (row_in memory.old i.at)) }
{
    if is_last(memory, i) {
        free_at(memory, i)
    }
}

// i where row i may be one to free, else 255.
fn last_or_none(length: u8, marks: u8, top: u8, i: u8) -> u8
    ensures { LastOrNone length marks top i result }
{
    if length != 0 && marks == 0 && top == 127 {
        i
    } else {
        255
    }
}

// The first row that may be one to free: without a way out, and in octets, so that the compiler takes 16 rows at a time. Tried: `fold` over `0..64` mapped,
// or over the three sections zipped with it; of both the compiler takes one row at a time.
fn first_last(memory: &Storage) -> Option<RowIndex>
    ensures { FirstLast memory.now result }
{
    let mut best: u8 = 255;
    for i in 0..64u8 {
        let n = i as usize;
        let here = last_or_none(
            memory[LENGTHS_AT + n],
            memory[MARKS_AT + n],
            memory[TOPS_AT + n],
            i,
        );
        best = best.min(here);
    }
    Index::new(best as usize)
}

pub fn sweep(memory: &mut Storage)
    ensures { memory_of memory.new ≡ with_rows (swept (rows_in memory.old)) (memory_of memory.old) }
{
    if let Some(first) = first_last(memory) {
        for at in first.at..ROWS {
            sweep_row(memory, Index { at });
        }
    }
}

// A memory with nothing in it, whatever it held.
pub fn fresh(memory: &mut Storage)
    ensures { memory_of memory.new ≡ fresh_memory }
{
    memory.fill(0);
}
