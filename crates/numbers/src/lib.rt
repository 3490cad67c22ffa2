// CA numbers, CSA numbers and counts, and the checksum.
#![tactic(auto)]

pub mod sum;

ghost use Rattle.std.specs.Prelude.{◌≡◌};
ghost use Rattle.protocol.specs.Numbers as definition;

use protocol::{CaNumber, CsaNumber};

// A CSA number of its 32 bits.
pub fn csa_of(bits: u32) -> CsaNumber
    ensures { result ≡ definition.csa_of bits }
{
    CsaNumber(bits.cast_signed())
}

// The 32 bits of a CSA number.
pub fn bits_of(n: CsaNumber) -> u32
    ensures { result ≡ definition.bits_of n }
{
    n.0.cast_unsigned()
}

// Whether a is newer than b.
pub fn newer(a: CsaNumber, b: CsaNumber) -> bool
    ensures { result ≡ definition.newer a b }
{
    a > b
}

// The number after a CSA number, if it is not spent.
pub fn next_csa(n: CsaNumber) -> Option<CsaNumber>
    ensures { result ≡ definition.next_csa n }
{
    if n.0 < 2147483646 {
        Some(CsaNumber(n.0 + 1))
    } else {
        None
    }
}

// One more, of a count that stops at 65535.
pub fn one_more(n: u16) -> u16
    ensures { result ≡ definition.one_more n }
{
    n.saturating_add(1)
}

// The number after a CA number.
pub fn next_ca(n: CaNumber) -> CaNumber
    ensures { result ≡ definition.next_ca n }
{
    CaNumber(n.0.wrapping_add(1))
}
