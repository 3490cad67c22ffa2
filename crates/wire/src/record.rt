// The records and receivers of a packet that was read, each by its position.
#![tactic(auto, unfolding(protocol::specs::Reading::record_at))]

ghost use Rattle.std.specs.Prelude.{◌≡◌, ◌++◌, ◌+◌, ◌≤◌};
ghost use Rattle.laws.specs.Lists.{part};
ghost use Rattle.protocol.specs.Reading as definition;
ghost use Rattle.protocol.specs.Sizes.{id_length};
ghost use Rattle.protocol.specs.Fields.{field2};

use protocol::CsaNumber;

// Where the next record or receiver is, and how many are left.
#[derive(Clone, Copy)]
pub struct Cursor {
    pub at: usize,
    pub left: usize,
}

// The length of the record at r, as it says: the next record starts behind it.
pub fn size(p: &[u8], r: usize) -> usize
    requires { r ≤ 4294967296 }
    ensures { (result ≡ field2 p.now (r + 2)) × (result ≤ 65535) }
{
    octets::field2(p, r + 2) as usize
}

// A function for each field of a record: its contract names that field.
pub fn hops(p: &[u8], r: usize) -> u16
    requires { r ≤ 4294967296 }
    ensures { result ≡ (definition.record_at id_length p.now r).hops }
{
    octets::field2(p, r)
}

// The N bit.
pub fn null(p: &[u8], r: usize) -> bool
    requires { r ≤ 4294967296 }
    ensures { result ≡ (definition.record_at id_length p.now r).null }
{
    crate::check::null_at(p, r)
}

pub fn number(p: &[u8], r: usize) -> CsaNumber
    requires { r ≤ 4294967296 }
    ensures { result ≡ (definition.record_at id_length p.now r).number }
{
    numbers::csa_of(octets::field4(p, r + 8))
}

// Key and originator, which stand one behind the other.
pub fn name(p: &[u8], r: usize) -> &[u8]
    requires { r ≤ 4294967296 }
    ensures { result.now ≡ (definition.record_at id_length p.now r).key ++ (definition.record_at id_length p.now r).originator }
{
    octets::part_of(p, r + 12, (octets::octet(p, r + 4) as usize) + 4)
}

pub fn payload(p: &[u8], r: usize) -> &[u8]
    requires { r ≤ 4294967296 }
    ensures { result.now ≡ (definition.record_at id_length p.now r).payload }
{
    let at = r + crate::check::summary_size(p, r);
    octets::part_of(p, at, crate::check::payload_size(p, r))
}

// The ID of the receiver at a position.
pub fn receiver(p: &[u8], at: usize) -> &[u8]
    requires { at ≤ 4294967296 }
    ensures { result.now ≡ part p.now (at + 1) id_length }
{
    octets::part_of(p, at + 1, 4)
}
