// Counts and lengths in two octets of the memory.
ghost use Rattle.std.specs.Prelude.{◌≡◌, ◌+◌, ◌<◌, ◌≤◌, min, [], length};
ghost use Rattle.laws.specs.Puts.{put_at};
ghost use Rattle.protocol.specs.Fields.{field2, put2};

use crate::Storage;

// The size at a place.
pub fn size_at(memory: &Storage, at: usize, most: usize) -> usize
    ensures { result ≡ min (field2 memory.now at) most }
{
    (octets::field2(memory, at) as usize).min(most)
}

pub fn put_size(memory: &mut Storage, at: usize, n: usize)
    requires { (n < 65536) × (at + 2 ≤ length memory.old) }
    ensures { memory.new ≡ put_at memory.old at (put2 n []) }
{
    octets::put(memory, at, &(n as u16).to_be_bytes());
}
