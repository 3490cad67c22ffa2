// Octets of a lent slice: fields read, parts handed back, octets put in place.
// The readers are total: an octet beyond the end is 0, a part beyond the end is shorter.
#![tactic(auto)]

ghost use Rattle.std.specs.Prelude.{◌≡◌, ◌+◌, ◌≤◌, length, take, drop};
ghost use Rattle.laws.specs.Lists.{part};
ghost use Rattle.laws.specs.Puts.{Put};
ghost use Rattle.laws.specs.Tables as tables;
ghost use Rattle.protocol.specs.Fields as fields;
ghost use Rattle.protocol.specs.WellFormed.{Octets};

// Each element of a slice of octets is below 256. It does nothing: a caller whose contract says so calls it for that fact.
pub fn bounded(p: &[u8])
    ensures { Octets p.now }
{}

pub fn octet(p: &[u8], at: usize) -> u8
    ensures { result ≡ fields.octet p.now at }
{
    p.get(at).copied().unwrap_or(0)
}

// What stands from a position on.
pub fn tail(p: &[u8], at: usize) -> &[u8]
    ensures { result.now ≡ drop at p.now }
{
    &p[at.min(p.len())..]
}

// The first n octets, or all.
pub fn first(p: &[u8], n: usize) -> &[u8]
    ensures { result.now ≡ take n p.now }
{
    &p[..n.min(p.len())]
}

// The n octets from a position on, or those that there are.
pub fn part_of(p: &[u8], at: usize, n: usize) -> &[u8]
    ensures { result.now ≡ part p.now at n }
{
    first(tail(p, at), n)
}

// Four octets, by value.
pub fn array4(p: &[u8]) -> [u8; 4]
    requires { length p.now ≡ 4 }
    ensures { result ≡ p.now }
{
    p.try_into().unwrap()
}

pub fn field2(p: &[u8], at: usize) -> u16
    ensures { result ≡ fields.field2 p.now at }
{
    match p.get(at..) {
        Some([a, b, ..]) => u16::from_be_bytes([*a, *b]),
        Some([a]) => u16::from_be_bytes([*a, 0]),
        _ => 0,
    }
}

pub fn field4(p: &[u8], at: usize) -> u32
    ensures { result ≡ fields.field4 p.now at }
{
    match p.get(at..) {
        Some([a, b, c, d, ..]) => u32::from_be_bytes([*a, *b, *c, *d]),
        Some([a, b, c]) => u32::from_be_bytes([*a, *b, *c, 0]),
        Some([a, b]) => u32::from_be_bytes([*a, *b, 0, 0]),
        Some([a]) => u32::from_be_bytes([*a, 0, 0, 0]),
        _ => 0,
    }
}

// src at a position of out: the next position. Below the writers: asks for the room.
pub fn put(out: &mut [u8], at: usize, src: &[u8]) -> usize
    requires { at + length src.now ≤ length out.old }
    ensures { Put src.now at out.old out.new result }
{
    let to = at + src.len();
    out[at..to].copy_from_slice(src);
    to
}

// Whether a is greater: the first octet that differs decides.
pub fn greater(a: &[u8], b: &[u8]) -> bool
    ensures { result ≡ tables.greater a.now b.now }
{
    a > b
}

// Whether two parts hold the same octets, compared where they lie.
pub fn same(a: &[u8], b: &[u8]) -> bool
    ensures { result ≡ tables.same a.now b.now }
{
    a == b
}
