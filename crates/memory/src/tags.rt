// Tags: an octet made of an entry's name, to look for in a section before the name itself is compared.
ghost use Rattle.std.specs.Prelude.{◌≡◌, ◌+◌, ◌≤◌, length, ◌==◌};
ghost use Rattle.laws.specs.Choice.{pick};
ghost use Rattle.memory.specs.Memory.{word4, word8, long_sum, name_sum, tag_of};
ghost use Rattle.memory.specs.Search.{FirstIndex};

use crate::Storage;
use protocol::Index;

// Four octets, the first the lowest.
fn short_word(p: &[u8], at: usize) -> u64
    requires { at + 4 ≤ length p.now }
    ensures { (result ≡ word4 p.now at) × (result ≤ 4294967295) }
{
    u32::from_le_bytes([p[at], p[at + 1], p[at + 2], p[at + 3]]) as u64
}

// Eight octets, the first the lowest.
fn word(p: &[u8], at: usize) -> u64
    requires { at + 8 ≤ length p.now }
    ensures { result ≡ word8 p.now at }
{
    u64::from_le_bytes([
        p[at],
        p[at + 1],
        p[at + 2],
        p[at + 3],
        p[at + 4],
        p[at + 5],
        p[at + 6],
        p[at + 7],
    ])
}

fn long_sum(name: &[u8], n: usize) -> u64
    requires { (8 ≤ n) × (n ≤ length name.now) }
    ensures { result ≡ long_sum name.now n }
{
    let ends = word(name, 0).wrapping_add(word(name, n - 8));
    if n <= 16 {
        return ends;
    }
    ends.wrapping_add(word(name, 8))
}

fn name_sum(name: &[u8]) -> u64
    ensures { result ≡ name_sum name.now (length name.now) }
{
    let n = name.len();
    if n < 4 {
        return 0;
    }
    if n < 8 {
        return short_word(name, 0) + short_word(name, n - 4);
    }
    long_sum(name, n)
}

pub fn tag_of(name: &[u8]) -> u8
    ensures { result ≡ tag_of name.now }
{
    (name_sum(name) % 239) as u8
}

// ---- the first of 64 octets that is t
// i where the octets are equal, else 255.
fn place_if(x: u8, t: u8, i: u8) -> u8
    ensures { result ≡ pick (x == t) i 255 }
{
    if x == t { i } else { 255 }
}

// Its index: without a way out, so that the compiler takes 16 octets at a time, and in octets for the same reason. Tried: `fold` over the octets zipped with
// `0..64`, or over `0..64` mapped; of both the compiler takes one octet at a time.
pub fn first_index(memory: &Storage, at: usize, t: u8) -> Option<Index<64>>
    requires { at + 64 ≤ length memory.now }
    ensures { FirstIndex memory.now at t result }
{
    let mut best: u8 = 255;
    for i in 0..64u8 {
        best = best.min(place_if(memory[at + i as usize], t, i));
    }
    Index::new(best as usize)
}
