// The kept CAs: of each slot the CA that is written again where a packet comes twice, or nothing.
ghost use Rattle.std.specs.Prelude.{◌≡◌, ◌+◌, ◌≤◌, [], length};
ghost use Rattle.laws.specs.Puts.{written};
ghost use Rattle.memory.specs.Layout.{memory_size, kept_place};
ghost use Rattle.memory.specs.Memory.{kept_in, memory_of, kept_put};

use crate::layout::{KEPT_AT, KEPT_SIZE, PACKET};
use crate::{Storage, sizes};
use protocol::SlotIndex;

// Not one function with `requests::list_place`: begin and size as parameters would need a clause that the place lies in the memory.
fn place(k: SlotIndex) -> usize
    ensures { (result ≡ kept_place k.at) × (result + 286 ≤ memory_size) }
{
    KEPT_AT + k.at * KEPT_SIZE
}

// A CA is kept.
pub fn keep(memory: &mut Storage, k: SlotIndex, src: &[u8])
    requires { length src.now ≤ 284 }
    ensures { memory_of memory.new ≡ kept_put k.at src.now (memory_of memory.old) }
{
    let at = place(k);
    sizes::put_size(memory, at, src.len());
    octets::put(memory, at + 2, src);
}

// None is.
pub fn drop_kept(memory: &mut Storage, k: SlotIndex)
    ensures { memory_of memory.new ≡ kept_put k.at [] (memory_of memory.old) }
{
    sizes::put_size(memory, place(k), 0)
}

// The length of the kept CA, 0 if there is none.
pub fn kept_len(memory: &Storage, k: SlotIndex) -> usize
    ensures { (result ≡ length (kept_in memory.now k.at)) × (result ≤ 284) }
{
    sizes::size_at(memory, place(k), PACKET)
}

// The kept CA, where it lies.
fn kept_of(memory: &Storage, k: SlotIndex) -> &[u8]
    ensures { result.now ≡ kept_in memory.now k.at }
{
    let at = place(k);
    let n = octets::field2(memory, at) as usize;
    octets::first(octets::part_of(memory, at + 2, PACKET), n)
}

// The kept CA is written out: its length.
pub fn copy_kept(memory: &Storage, k: SlotIndex, out: &mut [u8]) -> usize
    requires { 284 ≤ length out.old }
    ensures { (result ≡ length (kept_in memory.now k.at))
        × (out.new ≡ written (kept_in memory.now k.at) out.old) }
{
    octets::put(out, 0, kept_of(memory, k))
}
