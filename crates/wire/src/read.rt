// A packet read where it lies: the refusal that it gets, or what its head says.
ghost use Rattle.std.specs.Prelude.{◌≡◌, ◌≤◌, IfOk};
ghost use Rattle.protocol.specs.Sizes.{id_length};
ghost use Rattle.protocol.specs.Fields.{octet, field2, field4};
ghost use Rattle.protocol.specs.Numbers as numbers;
ghost use Rattle.protocol.specs.Answers as answers;
ghost use Rattle.protocol.specs.Reading as definition;
ghost use Rattle.wire.specs.Views.{message_of, fixed_number, Reads};

use crate::check;
use protocol::{CaFlags, CaNumber, Kind};

// The head of a packet: numbers by value, IDs and records by their places.
#[derive(Clone, Copy)]
pub struct Head {
    pub kind: Kind,
    pub protocol: u16,
    pub group: u16,
    pub sender_at: usize,
    pub receiver_at: usize,
    pub receiver_len: usize,
    pub records: crate::record::Cursor,
}

// Why a packet is no message: codes 5 to 9 of the table, or code 10 with the position of the first field that breaks a rule.
#[derive(Clone, Copy, PartialEq, Eq)]
pub enum Refusal {
    Length,
    Version,
    Type,
    Checksum,
    Extensions,
    Malformed(usize),
}

fn length_good(p: &[u8]) -> bool
    ensures { result ≡ answers.length_good id_length p.now }
{
    8 <= p.len() && p.len() <= 284 && octets::field2(p, 2) as usize == p.len()
}

// The kind of packet, or the first refusal of the fixed part in the table's order.
#[tactic(auto, unfolding(protocol::specs::Answers::fixed_code))]
fn fixed_check(p: &[u8]) -> Result<Kind, Refusal>
    ensures code { fixed_number result ≡ answers.fixed_code id_length p.now }
    ensures kind { IfOk result (λ k. k ≡ definition.kind_of (octet p.now 1)) }
{
    if !length_good(p) {
        return Err(Refusal::Length);
    }
    if octets::octet(p, 0) != 1 {
        return Err(Refusal::Version);
    }
    let kind = Kind::try_from(octets::octet(p, 1)).map_err(|_| Refusal::Type)?;
    if !numbers::sum::good_sum(p) {
        return Err(Refusal::Checksum);
    }
    if octets::field2(p, 6) != 0 {
        return Err(Refusal::Extensions);
    }
    Ok(kind)
}

#[tactic(auto, unfolding(protocol::specs::Reading::message_at))]
fn head_of(k: Kind, p: &[u8]) -> Head
    ensures { (message_of p.now result ≡ definition.message_at id_length k p.now) × (result.records.at ≤ 287) }
{
    let c = check::common_at(k);
    Head {
        kind: k,
        protocol: octets::field2(p, c),
        group: octets::field2(p, c + 2),
        sender_at: c + 12,
        receiver_at: c + 16,
        receiver_len: octets::octet(p, c + 9) as usize,
        records: crate::record::Cursor {
            at: check::elements_at(k, p),
            left: check::count_at(k, p) as usize,
        },
    }
}

// Any octets at all: which refusal they get, or which message they are.
#[tactic(auto, using(crate::proofs::Readings::refused), unfolding(protocol::specs::Reading::read_packet))]
pub fn read(p: &[u8]) -> Result<Head, Refusal>
    ensures { Reads p.now result }
{
    let kind = fixed_check(p)?;
    check::mandatory_check(kind, p).map_err(Refusal::Malformed)?;
    Ok(head_of(kind, p))
}

pub fn sender(p: &[u8], h: Head) -> &[u8]
    ensures { result.now ≡ (message_of p.now h).sender }
{
    octets::part_of(p, h.sender_at, 4)
}

pub fn receiver(p: &[u8], h: Head) -> &[u8]
    ensures { result.now ≡ (message_of p.now h).receiver }
{
    octets::part_of(p, h.receiver_at, h.receiver_len)
}

// The CA sequence number of a CA.
pub fn ca_number(p: &[u8]) -> CaNumber
    ensures { result ≡ numbers.ca_number (field4 p.now 8) }
{
    CaNumber(octets::field4(p, 8))
}

// The M, I and O bits of a CA.
pub fn ca_flags(p: &[u8]) -> CaFlags
    ensures { result ≡ definition.flags_at p.now 18 }
{
    let f = octets::octet(p, 18);
    CaFlags {
        master: 128 <= f,
        initial: 64 <= f % 128,
        more: 32 <= f % 64,
    }
}

// The HelloInterval of a Hello. A function for each field: its contract names the field's place in the paper.
pub fn interval(p: &[u8]) -> u16
    ensures { result ≡ field2 p.now 8 }
{
    octets::field2(p, 8)
}

// The DeadFactor of a Hello.
pub fn dead_factor(p: &[u8]) -> u16
    ensures { result ≡ field2 p.now 10 }
{
    octets::field2(p, 10)
}
