// Octets moved within the memory.
ghost use Rattle.std.specs.Prelude.{◌≡◌, ◌+◌, ◌≤◌, length, take};
ghost use Rattle.laws.specs.Lists.{part};
ghost use Rattle.memory.specs.Lists.{rotated_at};

use crate::Storage;

// The n octets at a place.
fn first_of(memory: &Storage, at: usize, n: usize) -> [u8; 112]
    requires { (n ≤ 112) × (at + n ≤ length memory.now) }
    ensures { (length result ≡ 112) × (take n result ≡ part memory.now at n) }
{
    let mut q = [0u8; 112];
    q[..n].copy_from_slice(octets::part_of(memory, at, n));
    q
}

// The first `by` of the n octets at a place go behind the others. Not by `rotate_left`, which was tried and takes five times as long.
pub fn rotate(memory: &mut Storage, at: usize, n: usize, by: usize)
    requires { ((by ≤ 112) × (by ≤ n)) × (at + n ≤ length memory.old) }
    ensures { memory.new ≡ rotated_at at n by memory.old }
{
    let q = first_of(memory, at, by);
    memory.copy_within(at + by..at + n, at);
    octets::put(memory, at + n - by, octets::first(&q, by));
}
