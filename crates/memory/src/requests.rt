// The request lists: of each slot the entries that its peer has and we want, 64 at most.
ghost use Rattle.std.specs.Prelude.{◌≡◌, ◌+◌, ◌≤◌, true, false, [], ◌++◌, length, position, slice_index_or, slice_set};
ghost use Rattle.laws.specs.Tables.{has, without};
ghost use Rattle.protocol.specs.Fields.{field2};
ghost use Rattle.rules.specs.Requests as rules;
ghost use Rattle.memory.specs.Layout.{memory_size, list_place};
ghost use Rattle.memory.specs.Memory.{entry_named, request_in, requests_in, memory_of, requests_put, requests_of};
ghost use Rattle.memory.specs.Lists as lists;
ghost use Rattle.memory.specs.Search.{place_found};
ghost use Rattle.memory.specs.Lists.{rooms_in, no_request, Listed, Joins};

use crate::layout::{LIST_SIZE, NUMBER_PLACE, REQUEST_SIZE, REQUESTS, REQUESTS_AT};
use crate::names::{EntryName, Named};
use crate::{Storage, moves, names, room, sizes, tags};
use protocol::{CsaNumber, Index, SlotIndex};

// The index of a request in its list.
pub type RequestIndex = Index<64>;

// ---- the count
fn list_place(k: SlotIndex) -> usize
    ensures { (result ≡ list_place k.at) × (result + 1858 ≤ memory_size) }
{
    REQUESTS_AT + k.at * LIST_SIZE
}

// How many requests there are.
pub fn count(memory: &Storage, k: SlotIndex) -> usize
    ensures { (result ≡ length (requests_in memory.now k.at)) × (result ≤ 64) }
{
    sizes::size_at(memory, list_place(k), REQUESTS)
}

fn set_count(memory: &mut Storage, k: SlotIndex, n: usize)
    requires { n ≤ 64 }
    ensures { Listed k.at n (rooms_in memory.old k.at) memory.old memory.new }
{
    sizes::put_size(memory, list_place(k), n)
}

// The list is emptied.
pub fn empty(memory: &mut Storage, k: SlotIndex)
    ensures { memory_of memory.new ≡ requests_put k.at [] (memory_of memory.old) }
{
    set_count(memory, k, 0)
}

// ---- reading
// The number of request i.
pub fn number_at(memory: &Storage, k: SlotIndex, i: RequestIndex) -> CsaNumber
    ensures { result ≡ (request_in memory.now k.at i.at).number }
{
    numbers::csa_of(octets::field4(memory, room::place(k, i) + NUMBER_PLACE))
}

// The name of the entry that request i is for: without a key, the originator alone.
pub fn name_at(memory: &Storage, k: SlotIndex, i: RequestIndex) -> &[u8]
    ensures { (result.now ≡ (request_in memory.now k.at i.at).entry.key ++ (request_in memory.now k.at i.at).entry.originator)
        × ((4 ≤ length result.now) × (length result.now ≤ 20)) }
{
    let name = room::name_at(memory, room::place(k, i));
    names::tagged(name, room::tag_at(memory, k, i))
}

// ---- an entry joins
// Where the entry's request stands among the n that there are: from the first one that has its tag on.
fn find(memory: &Storage, k: SlotIndex, n: usize, e: Named) -> Option<RequestIndex>
    requires k_bound { n ≡ length (requests_in memory.now k.at) }
    requires in_bounds { n ≤ 64 }
    ensures { place_found result ≡ position (rules.asks (entry_named e.entry.name.octets.now)) (requests_in memory.now k.at) }
{
    let from = tags::first_index(memory, room::tag_place(k, Index { at: 0 }), e.tag)?;
    for i in from.at..n {
        let i = Index { at: i };
        if room::asks(memory, k, i, e) {
            return Some(i);
        }
    }
    None
}

// The entry's request, at i, gets the number if it is greater.
fn raise(memory: &mut Storage, k: SlotIndex, i: RequestIndex, e: Named, number: CsaNumber)
    requires { rules.asks (entry_named e.name.octets.now) (slice_index_or (rooms_in memory.old k.at) i.at no_request) ≡ true }
    ensures { Listed k.at (field2 memory.old (list_place k.at)) (slice_set (rooms_in memory.old k.at) i.at
        (rules.raised number (slice_index_or (rooms_in memory.old k.at) i.at no_request))) memory.old memory.new }
{
    if numbers::newer(number, number_at(memory, k, i)) {
        room::put_request(memory, k, i, e, number);
    }
}

// A request behind the n that there are.
fn append(memory: &mut Storage, k: SlotIndex, n: RequestIndex, e: Named, number: CsaNumber)
    ensures { Listed k.at (n.at + 1) (slice_set (rooms_in memory.old k.at) n.at
        (record { entry = entry_named e.entry.name.octets.now; number = number })) memory.old memory.new }
{
    room::put_request(memory, k, n, e, number);
    set_count(memory, k, n.at + 1)
}

// An entry wanted: one request an entry, in its first place, with the largest number. The number of those that found no room.
pub fn join(
    memory: &mut Storage,
    k: SlotIndex,
    name: EntryName,
    number: CsaNumber,
    missed: u16,
) -> u16
    ensures { Joins k.at (entry_named name.entry.octets.now) number missed memory.old memory.new result }
{
    let n = count(memory, k);
    let e = Named {
        name,
        tag: tags::tag_of(name.octets),
    };
    if let Some(i) = find(memory, k, n, e) {
        raise(memory, k, i, e, number);
        return missed;
    }
    if n < REQUESTS {
        append(memory, k, Index { at: n }, e, number);
        return missed;
    }
    numbers::one_more(missed)
}

// ---- requests go
// Whether request i goes: it is for the entry, and its number is no greater than up_to, if one is given.
fn goes(memory: &Storage, k: SlotIndex, i: RequestIndex, e: Named, up_to: Option<CsaNumber>) -> bool
    ensures { result ≡ lists.goes up_to (entry_named e.entry.name.octets.now) (slice_index_or (rooms_in memory.now k.at) i.at no_request) }
{
    if !room::asks(memory, k, i, e) {
        return false;
    }
    match up_to {
        Some(most) => !numbers::newer(number_at(memory, k, i), most),
        None => true,
    }
}

// Request i goes, or moves to w, where it may stand already: the next place to move one to.
fn remove_one(
    memory: &mut Storage,
    k: SlotIndex,
    i: RequestIndex,
    w: usize,
    e: Named,
    up_to: Option<CsaNumber>,
) -> usize
    requires { w ≤ i.at }
    ensures { lists.Removes k.at (lists.goes up_to (entry_named e.entry.name.octets.now)) i.at w memory.old memory.new result }
{
    if goes(memory, k, i, e, up_to) {
        return w;
    }
    if w < i.at {
        room::copy_request(memory, k, i, Index { at: w });
    }
    w + 1
}

// The requests that stay move up, in order; those before the entry's first stand as they are. Where none goes, no octet is written.
fn remove(memory: &mut Storage, k: SlotIndex, name: EntryName, up_to: Option<CsaNumber>)
    ensures memory_after { memory_of memory.new ≡ requests_put k.at (without (lists.goes up_to (entry_named name.entry.octets.now))
        (requests_of (memory_of memory.old) k.at)) (memory_of memory.old) }
    ensures kept { has (lists.goes up_to (entry_named name.entry.octets.now)) (requests_of (memory_of memory.old) k.at)
        ≡ false → memory.new ≡ memory.old }
{
    let n = count(memory, k);
    let e = Named {
        name,
        tag: tags::tag_of(name.octets),
    };
    if let Some(first) = find(memory, k, n, e) {
        let mut w = first.at;
        for i in first.at..n {
            w = remove_one(memory, k, Index { at: i }, w, e, up_to);
        }
        if w < n {
            set_count(memory, k, w);
        }
    }
}

// The entry's request goes if its number is no greater.
pub fn acknowledge(memory: &mut Storage, k: SlotIndex, name: EntryName, number: CsaNumber)
    ensures memory_after { memory_of memory.new ≡ requests_put k.at (rules.acknowledged (entry_named name.entry.octets.now) number
        (requests_of (memory_of memory.old) k.at)) (memory_of memory.old) }
    ensures kept { has (lists.goes (Some number) (entry_named name.entry.octets.now))
        (requests_of (memory_of memory.old) k.at) ≡ false → memory.new ≡ memory.old }
{
    remove(memory, k, name, Some(number))
}

// The entry's request goes.
pub fn drop_entry(memory: &mut Storage, k: SlotIndex, name: EntryName)
    ensures memory_after { memory_of memory.new ≡ requests_put k.at (rules.dropped (entry_named name.entry.octets.now)
        (requests_of (memory_of memory.old) k.at)) (memory_of memory.old) }
    ensures kept { has (rules.asks (entry_named name.entry.octets.now)) (requests_of (memory_of memory.old) k.at) ≡ false
        → memory.new ≡ memory.old }
{
    remove(memory, k, name, None)
}

// ---- the first go to the end
// The first four requests, or all, move to the end.
pub fn rotate(memory: &mut Storage, k: SlotIndex)
    ensures { memory_of memory.new ≡ requests_put k.at (rules.rotated (requests_of (memory_of memory.old) k.at))
        (memory_of memory.old) }
{
    let n = count(memory, k);
    if n <= 4 {
        return;
    }
    moves::rotate(
        memory,
        room::place(k, Index { at: 0 }),
        n * REQUEST_SIZE,
        4 * REQUEST_SIZE,
    );
    moves::rotate(memory, room::tag_place(k, Index { at: 0 }), n, 4)
}
