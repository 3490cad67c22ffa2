// Whether the common part or a record is all there and right, by a test of the room and direct reads. Nearly every packet
// is; where one is not, `check` goes field by field, for the position.
ghost use Rattle.std.specs.Prelude.{◌≡◌, true, not, ◌||◌, ◌+◌, ◌≤◌, ◌<◌, length, eqb};
ghost use Rattle.protocol.specs.Fields as fields;
ghost use Rattle.protocol.specs.Sizes.{id_length};
ghost use Rattle.protocol.specs.Checks.{Fine};
ghost use Rattle.protocol.specs.Checks as definition;

use crate::values;
use protocol::Kind;

// Fields that are all there. Not the readers of `octets`, which test the room at each field: nearly every packet passes here.
fn field2_in(p: &[u8], at: usize) -> u16
    requires { at + 2 ≤ length p.now }
    ensures { result ≡ fields.field2 p.now at }
{
    (p[at] as u16) * 256 + (p[at + 1] as u16)
}

fn field4_in(p: &[u8], at: usize) -> u32
    requires { at + 4 ≤ length p.now }
    ensures { result ≡ fields.field4 p.now at }
{
    (field2_in(p, at) as u32) * 65536 + (field2_in(p, at + 2) as u32)
}

// The common part at c.
pub fn head_fine(k: Kind, p: &[u8], c: usize) -> bool
    requires { c ≤ 16 }
    ensures { result ≡ true → definition.first_break (definition.common_checks id_length k p.now c) ≡ Fine }
{
    if p.len() < c + 16 {
        return false;
    }
    let receiver = p[c + 9];
    p[c + 8] == 4
        && values::receiver_length_good(k, receiver)
        && c + 16 + receiver as usize <= p.len()
        && field2_in(p, c + 10) <= values::count_most(k)
}

// N, number and a payload of n octets of the record at r.
fn content_fine(k: Kind, p: &[u8], r: usize, n: usize) -> bool
    requires { r + 12 ≤ length p.now }
    ensures { result ≡ true → ((definition.is_request_kind k || not (definition.null_at p.now r)) ≡ true)
        × (not (eqb (fields.field4 p.now (r + 8)) definition.reserved_bits) ≡ true)
        × (definition.payload_good (definition.null_at p.now r) (fields.field4 p.now (r + 8)) n ≡ true) }
{
    let null = 128 <= p[r + 6];
    let bits = field4_in(p, r + 8);
    values::n_good(k, null) && bits != 2147483648 && values::payload_good(null, bits, n)
}

// The record at r.
pub fn record_fine(k: Kind, p: &[u8], r: usize) -> bool
    requires { r ≤ 4294967296 }
    ensures { result ≡ true → definition.first_break (definition.record_checks id_length k p.now r) ≡ Fine }
{
    if p.len() < r + 12 {
        return false;
    }
    let len = field2_in(p, r + 2) as usize;
    let key = p[r + 4] as usize;
    let size = 12 + key + 4;
    0 < field2_in(p, r)
        && r + len <= p.len()
        && values::key_length_good(k, key, size, len)
        && p[r + 5] == 4
        && content_fine(k, p, r, len - size)
}
