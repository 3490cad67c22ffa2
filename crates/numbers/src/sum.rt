// The checksum, summed over the octets where they lie, by words of four, the low octet first.
ghost use Rattle.std.specs.Prelude.{◌≡◌, ◌+◌, ◌*◌, ◌<◌, ◌≤◌, length, slice_index};
ghost use Rattle.protocol.specs.Checksum as definition;
ghost use Rattle.numbers.specs.Words.{low_first, low_total};

use octets::octet;

// Four octets as a number, the low one first. By arithmetic: the sum is taken with no array.
fn low_first(a: u8, b: u8, c: u8, d: u8) -> u64
    ensures { (result ≡ low_first a b c d) × (result < 4294967296) }
{
    (((d as u64) * 256 + (c as u64)) * 256 + (b as u64)) * 256 + (a as u64)
}

// The four octets from a place on.
fn word(p: &[u8], at: usize) -> u64
    requires { at + 4 ≤ length p.now }
    ensures { let s = p.now in
        (result ≡ low_first (slice_index s at) (slice_index s (at + 1)) (slice_index s (at + 2)) (slice_index s (at + 3))) × (result < 4294967296) }
{
    low_first(p[at], p[at + 1], p[at + 2], p[at + 3])
}

// The octets behind the last whole word, fewer than four.
fn rest(p: &[u8], at: usize) -> u64
    requires { at ≤ length p.now }
    ensures { let s = p.now in
        (result ≡ low_first (slice_index s at) (slice_index s (at + 1)) (slice_index s (at + 2)) 0) × (result < 4294967296) }
{
    low_first(octet(p, at), octet(p, at + 1), octet(p, at + 2), 0)
}

// The sum of the words. A loop over whole words with no other way out is vectorised.
fn total(p: &[u8]) -> u64
    requires { length p.now ≤ 65536 }
    ensures { (result ≡ low_total p.now) × (result ≤ 4294967296 * 16385) }
{
    let mut sum: u64 = 0;
    let whole = p.len() / 4;
    for i in 0..whole {
        sum += word(p, i * 4);
    }
    sum + rest(p, whole * 4)
}

fn fold(s: u64) -> u64
    ensures { result ≡ definition.fold s }
{
    s / 65536 + s % 65536
}

// The ones' complement sum: 256 times the total puts the high octet first again (RFC 1071). Below the reader: for at most 65536 octets.
pub fn ones_sum(p: &[u8]) -> u32
    requires { length p.now ≤ 65536 }
    ensures { result ≡ definition.ones_sum p.now }
{
    fold(fold(fold(fold(total(p) * 256)))) as u32
}

// Whether the sum of a packet is good, taken over the packet where it lies. Then, and only then, its field holds the checksum computed
// with the field 0, or that is 0 and the field 0xFFFF (02, L4). Below the reader: for at most 65536 octets.
pub fn good_sum(p: &[u8]) -> bool
    requires { length p.now ≤ 65536 }
    ensures { let s = p.now in (result ≡ definition.good_sum s) × (result ≡ definition.right_field s) }
{
    ones_sum(p) == 65535
}
