// The rows: read where they lie, found by entry, counted. An entry is given by its name: key and originator, one behind the other.
ghost use Rattle.std.specs.Prelude.{◌≡◌, ◌<◌, ◌≤◌, ◌++◌, ◌==◌, not, length, drop};
ghost use Rattle.std.specs.List.{sum_by};
ghost use Rattle.std.specs.Int.{from_bool};
ghost use Rattle.laws.specs.Lists.{part};
ghost use Rattle.laws.specs.Tables.{has};
ghost use Rattle.rules.specs.Server.{is_free, is_used, holds, rows_used};
ghost use Rattle.memory.specs.Layout.{lengths_at};
ghost use Rattle.memory.specs.Memory.{entry_named, tag_of, key_room, row_name, row_entry, bits_at, payload_length, value_at, row_in, rows_in};
ghost use Rattle.memory.specs.Search.{place_found, first_from};

use crate::layout::{ID, KEY, LENGTHS_AT, NAME_PLACE, PAYLOAD, ROW_SIZE, ROWS, TAGS_AT, TOPS_AT};
use crate::{Storage, names, tags};
use protocol::{CsaNumber, Index};

// The index of a row.
pub type RowIndex = Index<64>;

// ---- row i
pub fn is_used(memory: &Storage, i: RowIndex) -> bool
    ensures { result ≡ is_used (row_in memory.now i.at) }
{
    memory[LENGTHS_AT + i.at] != 0
}

// The length of the key as it stands there; one over the room counts as the room.
pub fn key_room(memory: &Storage, i: RowIndex) -> usize
    ensures { (result ≡ key_room memory.now i.at) × (result ≤ 16) }
{
    (memory[LENGTHS_AT + i.at] as usize).min(KEY)
}

pub fn name_of(memory: &Storage, i: RowIndex) -> &[u8]
    ensures { result.now ≡ row_name memory.now i.at }
{
    let at = i.at * ROW_SIZE + NAME_PLACE;
    let to = at + key_room(memory, i) + ID;
    &memory[at..to]
}

fn payload_len(memory: &Storage, i: RowIndex) -> usize
    ensures { (result ≡ payload_length memory.now i.at) × (result ≤ 32) }
{
    (memory[i.at * ROW_SIZE] as usize).min(PAYLOAD)
}

// The name of the entry: without a key, the originator alone.
pub fn entry_of(memory: &Storage, i: RowIndex) -> &[u8]
    ensures { (result.now ≡ (row_entry memory.now i.at).key ++ (row_entry memory.now i.at).originator)
        × ((4 ≤ length result.now) × (length result.now ≤ 20)) }
{
    names::tagged(name_of(memory, i), memory[TAGS_AT + i.at])
}

// Not one function with `originator_of`: callers ask for one part, and what is shared is `entry_of`.
pub fn key_of(memory: &Storage, i: RowIndex) -> &[u8]
    ensures { result.now ≡ (row_entry memory.now i.at).key }
{
    let name = entry_of(memory, i);
    octets::first(name, name.len() - ID)
}

pub fn originator_of(memory: &Storage, i: RowIndex) -> &[u8]
    ensures { result.now ≡ (row_entry memory.now i.at).originator }
{
    let name = entry_of(memory, i);
    octets::tail(name, name.len() - ID)
}

pub fn payload_of(memory: &Storage, i: RowIndex) -> &[u8]
    ensures { (result.now ≡ (value_at memory.now i.at).payload) × (length result.now ≤ 32) }
{
    let at = i.at * ROW_SIZE + NAME_PLACE + key_room(memory, i) + ID;
    octets::part_of(memory, at, payload_len(memory, i))
}

pub fn bits_of(memory: &Storage, i: RowIndex) -> u32
    ensures { result ≡ bits_at memory.now i.at }
{
    let at = i.at * ROW_SIZE;
    u32::from_be_bytes([
        memory[TOPS_AT + i.at],
        memory[at + 5],
        memory[at + 6],
        memory[at + 7],
    ])
}

pub fn number_of(memory: &Storage, i: RowIndex) -> CsaNumber
    ensures { result ≡ (value_at memory.now i.at).number }
{
    numbers::csa_of(bits_of(memory, i))
}

pub fn remaining_of(memory: &Storage, i: RowIndex) -> u16
    ensures { result ≡ (value_at memory.now i.at).remaining }
{
    octets::field2(memory, i.at * ROW_SIZE + 2)
}

// ---- searches
// Name and tag apart, not a `Named`, which has at most 20 octets: `find` is public and answers for a name of any length that has a key (`bench` gives
// plain octets; the laws `find_inserted` and `found_first` speak of any entry), and its callers may not be asked more.
// Whether row i holds the entry, whose tag is t.
fn row_is(memory: &Storage, i: RowIndex, name: &[u8], t: u8) -> bool
    requires { (4 < length name.now) × (t ≡ tag_of name.now) }
    ensures { result ≡ holds (entry_named name.now) (row_in memory.now i.at) }
{
    memory[TAGS_AT + i.at] == t && is_used(memory, i) && octets::same(name_of(memory, i), name)
}

// Row by row from `from` on.
fn find_from(memory: &Storage, name: &[u8], t: u8, from: usize) -> Option<RowIndex>
    requires { (4 < length name.now) × (t ≡ tag_of name.now) }
    ensures { place_found result ≡ first_from (holds (entry_named name.now)) from (drop from (rows_in memory.now)) }
{
    for at in from..ROWS {
        let i = Index { at };
        if row_is(memory, i, name, t) {
            return Some(i);
        }
    }
    None
}

// The row of an entry: from the first row that has its tag on.
pub fn find(memory: &Storage, name: &[u8]) -> Option<RowIndex>
    requires { 4 < length name.now }
    ensures { place_found result ≡ first_from (holds (entry_named name.now)) 0 (rows_in memory.now) }
{
    let t = tags::tag_of(name);
    let from = tags::first_index(memory, TAGS_AT, t)?;
    find_from(memory, name, t, from.at)
}

pub fn free_row(memory: &Storage) -> Option<RowIndex>
    ensures { place_found result ≡ first_from is_free 0 (rows_in memory.now) }
{
    tags::first_index(memory, LENGTHS_AT, 0)
}

pub fn has_free(memory: &Storage) -> bool
    ensures { result ≡ has is_free (rows_in memory.now) }
{
    free_row(memory).is_some()
}

// The key lengths: 0 where a row is free.
pub(crate) fn lengths(memory: &Storage) -> &[u8]
    ensures { result.now ≡ part memory.now lengths_at 64 }
{
    &memory[LENGTHS_AT..LENGTHS_AT + ROWS]
}

// ---- the count
// How many lengths are not 0: in an octet, so that the compiler counts 16 rows at a time.
fn count_used(lengths: &[u8]) -> u8
    requires { sum_by (λ x. from_bool (not (x == 0))) lengths.now < 256 }
    ensures { result ≡ sum_by (λ x. from_bool (not (x == 0))) lengths.now }
{
    lengths.iter().map(|length| u8::from(*length != 0)).sum()
}

pub fn rows_used(memory: &Storage) -> usize
    ensures { result ≡ rows_used (rows_in memory.now) }
{
    count_used(lengths(memory)) as usize
}
