// One room of a request list: its octets and its tag, and a request put there.
ghost use Rattle.std.specs.Prelude.{◌≡◌, ◌+◌, ◌<◌, ◌≤◌, length, set, slice_index_or, slice_set};
ghost use Rattle.protocol.specs.Fields.{octet, field2};
ghost use Rattle.rules.specs.Requests as rules;
ghost use Rattle.memory.specs.Layout.{request_size, memory_size, list_place, request_tag_place, request_place};
ghost use Rattle.memory.specs.Memory.{entry_named, tag_of, room_name};
ghost use Rattle.memory.specs.Lists as lists;
ghost use Rattle.memory.specs.Lists.{request_of, rooms_in, no_request, Listed};

use crate::Storage;
use crate::layout::{
    ID, KEY, LIST_SIZE, NAME_PLACE, NUMBER_PLACE, REQUEST_SIZE, REQUEST_TAGS_AT, ROOMS_AT,
};
use crate::names::{EntryName, Named};
use crate::requests::RequestIndex;
use protocol::{CsaNumber, SlotIndex};

// Where room i of slot k's list begins.
pub fn place(k: SlotIndex, i: RequestIndex) -> usize
    ensures { (result ≡ request_place k.at i.at) × (result + 28 ≤ memory_size) }
{
    ROOMS_AT + k.at * LIST_SIZE + i.at * REQUEST_SIZE
}

// Where its tag stands.
pub fn tag_place(k: SlotIndex, i: RequestIndex) -> usize
    ensures { (result ≡ request_tag_place k.at i.at) × (result < memory_size) }
{
    REQUEST_TAGS_AT + k.at * LIST_SIZE + i.at
}

pub fn tag_at(memory: &Storage, k: SlotIndex, i: RequestIndex) -> u8
    ensures { result ≡ octet memory.now (request_tag_place k.at i.at) }
{
    memory[tag_place(k, i)]
}

// The name in the room that begins at a place; a key length over the room counts as the room.
pub fn name_at(memory: &Storage, at: usize) -> &[u8]
    requires { at + request_size ≤ memory_size }
    ensures { result.now ≡ room_name memory.now at }
{
    let n = (memory[at] as usize).min(KEY);
    let from = at + NAME_PLACE;
    let to = from + n + ID;
    &memory[from..to]
}

// Whether the room's request is for the entry: the tag first.
pub fn asks(memory: &Storage, k: SlotIndex, i: RequestIndex, e: Named) -> bool
    ensures { result ≡ rules.asks (entry_named e.entry.name.octets.now) (slice_index_or (rooms_in memory.now k.at) i.at no_request) }
{
    tag_at(memory, k, i) == e.tag && octets::same(name_at(memory, place(k, i)), e.name.octets)
}

// Octets and a tag into a room.
fn put_room(memory: &mut Storage, k: SlotIndex, i: RequestIndex, tag: u8, q: &[u8])
    requires { length q.now ≡ 28 }
    ensures { Listed k.at (field2 memory.old (list_place k.at)) (slice_set (rooms_in memory.old k.at) i.at (request_of tag q.now))
        memory.old memory.new }
{
    octets::put(memory, place(k, i), q);
    memory[tag_place(k, i)] = tag;
}

pub fn copy_request(memory: &mut Storage, k: SlotIndex, from: RequestIndex, to: RequestIndex)
    ensures { Listed k.at (field2 memory.old (list_place k.at)) (set (rooms_in memory.old k.at) to.at
        (slice_index_or (rooms_in memory.old k.at) from.at no_request)) memory.old memory.new }
{
    let tag = tag_at(memory, k, from);
    let at = place(k, from);
    memory.copy_within(at..at + REQUEST_SIZE, place(k, to));
    memory[tag_place(k, to)] = tag;
}

// A room's octets with key length and number; the name is zero.
fn head(n: u8, bits: u32) -> [u8; 28]
    ensures { result ≡ lists.head_of n bits }
{
    let mut q = [0u8; 28];
    q[0] = n;
    q[NUMBER_PLACE..NAME_PLACE].copy_from_slice(&bits.to_be_bytes());
    q
}

fn pack(name: EntryName, number: CsaNumber) -> [u8; 28]
    ensures { (length result ≡ 28) × (request_of (tag_of name.entry.octets.now) result
        ≡ record { entry = entry_named name.entry.octets.now; number = number }) }
{
    let mut q = head((name.octets.len() - ID) as u8, numbers::bits_of(number));
    octets::put(&mut q, NAME_PLACE, name.octets);
    q
}

pub fn put_request(memory: &mut Storage, k: SlotIndex, i: RequestIndex, e: Named, number: CsaNumber)
    ensures { Listed k.at (field2 memory.old (list_place k.at)) (set (rooms_in memory.old k.at) i.at
        (record { entry = entry_named e.entry.name.octets.now; number = number })) memory.old memory.new }
{
    let q = pack(e.name, number);
    put_room(memory, k, i, e.tag, &q)
}
