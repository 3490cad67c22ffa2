// The rules on the fields behind the fixed part, in packet order.
ghost use Rattle.std.specs.Prelude.{◌≡◌, ◌≤◌};
ghost use Rattle.protocol.specs.Sizes.{id_length};
ghost use Rattle.protocol.specs.Checks as definition;

use crate::{fine, values};
use protocol::Kind;

fn rule(good: bool, at: usize) -> Result<(), usize>
    ensures { result ≡ definition.rule good at }
{
    if good { Ok(()) } else { Err(at) }
}

fn field(p: &[u8], at: usize, n: usize, good: bool) -> Result<(), usize>
    ensures { result ≡ definition.field p.now at n good }
{
    rule(at <= p.len() && n <= p.len() - at && good, at)
}

// Where the common part starts: the paper's numbers, which Kind itself has not.
pub fn common_at(k: Kind) -> usize
    ensures { (result ≡ definition.common_at k) × (result ≤ 16) }
{
    match k {
        Kind::Ca => 12,
        Kind::CsuRequest | Kind::CsuReply | Kind::Csus => 8,
        Kind::Hello => 16,
    }
}

fn hello_check(p: &[u8]) -> Result<(), usize>
    ensures { result ≡ definition.first_break (definition.before_checks (Kind.Hello) p.now) }
{
    field(p, 8, 2, 0 < octets::field2(p, 8))?;
    field(p, 10, 2, 0 < octets::field2(p, 10))?;
    field(p, 12, 2, true)?;
    field(p, 14, 2, true)
}

fn before_check(k: Kind, p: &[u8]) -> Result<(), usize>
    ensures { result ≡ definition.first_break (definition.before_checks k p.now) }
{
    match k {
        Kind::Ca => field(p, 8, 4, true),
        Kind::CsuRequest | Kind::CsuReply | Kind::Csus => Ok(()),
        Kind::Hello => hello_check(p),
    }
}

// Protocol ID, Server Group ID, unused and flags.
fn plain_check(p: &[u8], c: usize) -> Result<(), usize>
    requires { c ≤ 16 }
    ensures { result ≡ definition.first_break (definition.plain_checks p.now c) }
{
    field(p, c, 2, true)?;
    field(p, c + 2, 2, true)?;
    field(p, c + 4, 2, true)?;
    field(p, c + 6, 2, true)
}

// Sender length, receiver length and number of records.
fn length_check(k: Kind, p: &[u8], c: usize) -> Result<(), usize>
    requires { c ≤ 16 }
    ensures { result ≡ definition.first_break (definition.length_checks id_length k p.now c) }
{
    field(p, c + 8, 1, octets::octet(p, c + 8) == 4)?;
    let receiver = octets::octet(p, c + 9);
    field(p, c + 9, 1, values::receiver_length_good(k, receiver))?;
    let count = octets::field2(p, c + 10);
    field(p, c + 10, 2, count <= values::count_most(k))
}

// Sender ID and receiver ID.
fn id_check(p: &[u8], c: usize) -> Result<(), usize>
    requires { c ≤ 16 }
    ensures { result ≡ definition.first_break (definition.id_checks id_length p.now c) }
{
    field(p, c + 12, 4, true)?;
    field(p, c + 16, octets::octet(p, c + 9) as usize, true)
}

// The common part at c.
#[tactic(auto, using(crate::proofs::Checking::break_append))]
fn common_check(k: Kind, p: &[u8], c: usize) -> Result<(), usize>
    requires { c ≤ 16 }
    ensures { result ≡ definition.first_break (definition.common_checks id_length k p.now c) }
{
    if fine::head_fine(k, p, c) {
        return Ok(());
    }
    plain_check(p, c)?;
    length_check(k, p, c)?;
    id_check(p, c)
}

#[tactic(auto, using(crate::proofs::Checking::break_append), unfolding(protocol::specs::Checks::head_check))]
fn head_check(k: Kind, p: &[u8]) -> Result<(), usize>
    ensures { result ≡ definition.head_check id_length k p.now }
{
    before_check(k, p)?;
    common_check(k, p, common_at(k))
}

// The N bit of the record at r.
pub fn null_at(p: &[u8], r: usize) -> bool
    requires { r ≤ 4294967296 }
    ensures { result ≡ definition.null_at p.now r }
{
    128 <= octets::octet(p, r + 6)
}

// The length of what stands before the payload of the record at r.
pub fn summary_size(p: &[u8], r: usize) -> usize
    requires { r ≤ 4294967296 }
    ensures { (result ≡ definition.summary_size id_length p.now r) × (result ≤ 271) }
{
    12 + (octets::octet(p, r + 4) as usize) + 4
}

// The length of the payload of the record at r.
pub fn payload_size(p: &[u8], r: usize) -> usize
    requires { r ≤ 4294967296 }
    ensures { result ≡ definition.payload_size id_length p.now r }
{
    let len = octets::field2(p, r + 2) as usize;
    let size = summary_size(p, r);
    len.saturating_sub(size)
}

fn record_length_check(k: Kind, p: &[u8], r: usize) -> Result<(), usize>
    requires { r ≤ 4294967296 }
    ensures { result ≡ definition.first_break (definition.record_length_checks id_length k p.now r) }
{
    let len = octets::field2(p, r + 2) as usize;
    let key = octets::octet(p, r + 4) as usize;
    field(p, r, 2, 0 < octets::field2(p, r))?;
    field(p, r + 2, 2, r + len <= p.len())?;
    field(
        p,
        r + 4,
        1,
        values::key_length_good(k, key, summary_size(p, r), len),
    )?;
    field(p, r + 5, 1, octets::octet(p, r + 5) == 4)
}

fn record_content_check(k: Kind, p: &[u8], r: usize) -> Result<(), usize>
    requires { r ≤ 4294967296 }
    ensures { result ≡ definition.first_break (definition.record_content_checks id_length k p.now r) }
{
    let null = null_at(p, r);
    let bits = octets::field4(p, r + 8);
    let key = octets::octet(p, r + 4) as usize;
    let size = payload_size(p, r);
    field(p, r + 6, 2, values::n_good(k, null))?;
    field(p, r + 8, 4, bits != 2147483648)?;
    field(p, r + 12, key, true)?;
    field(p, r + 12 + key, 4, true)?;
    field(
        p,
        r + summary_size(p, r),
        size,
        values::payload_good(null, bits, size),
    )
}

fn record_check(k: Kind, p: &[u8], r: usize) -> Result<(), usize>
    requires { r ≤ 4294967296 }
    ensures { result ≡ definition.first_break (definition.record_checks id_length k p.now r) }
{
    if fine::record_fine(k, p, r) {
        return Ok(());
    }
    record_length_check(k, p, r)?;
    record_content_check(k, p, r)
}

fn receiver_check(p: &[u8], at: usize) -> Result<(), usize>
    requires { at ≤ 4294967296 }
    ensures { result ≡ definition.first_break (definition.receiver_checks id_length p.now at) }
{
    field(p, at, 1, octets::octet(p, at) == 4)?;
    field(p, at + 1, 4, true)
}

#[tactic(auto, unfolding(protocol::specs::Checks::element_check))]
fn element_check(k: Kind, p: &[u8], at: usize) -> Result<(), usize>
    requires { at ≤ 4294967296 }
    ensures { result ≡ definition.element_check id_length k p.now at }
{
    match k {
        Kind::Ca | Kind::CsuRequest | Kind::CsuReply | Kind::Csus => record_check(k, p, at),
        Kind::Hello => receiver_check(p, at),
    }
}

fn element_size(k: Kind, p: &[u8], at: usize) -> usize
    requires { at ≤ 4294967296 }
    ensures { (result ≡ definition.element_size id_length k p.now at) × (result ≤ 65535) }
{
    match k {
        Kind::Ca | Kind::CsuRequest | Kind::CsuReply | Kind::Csus => {
            octets::field2(p, at + 2) as usize
        }
        Kind::Hello => 5,
    }
}

// The records or receivers one after the other, and no octets left over.
#[tactic(auto, using(crate::proofs::Checking::one_more, crate::proofs::Checking::no_more))]
fn elements_check(k: Kind, p: &[u8], n: u16, from: usize) -> Result<(), usize>
    requires { from ≤ 65536 }
    ensures { result ≡ definition.elements_check id_length k p.now n from }
{
    let mut at = from;
    for i in 0..n {
        element_check(k, p, at)?;
        at += element_size(k, p, at);
    }
    rule(at == p.len(), at)
}

// Where the records or receivers start.
pub fn elements_at(k: Kind, p: &[u8]) -> usize
    ensures { (result ≡ definition.elements_at id_length k p.now) × (result ≤ 287) }
{
    let c = common_at(k);
    c + 12 + 4 + (octets::octet(p, c + 9) as usize)
}

pub fn count_at(k: Kind, p: &[u8]) -> u16
    ensures { result ≡ definition.count_at k p.now }
{
    octets::field2(p, common_at(k) + 10)
}

// All behind the fixed part.
#[tactic(auto, unfolding(protocol::specs::Checks::mandatory_check))]
pub fn mandatory_check(k: Kind, p: &[u8]) -> Result<(), usize>
    ensures { result ≡ definition.mandatory_check id_length k p.now }
{
    head_check(k, p)?;
    elements_check(k, p, count_at(k, p), elements_at(k, p))
}
