// The parts of a packet and of a record, put in place. Below the writers: each function asks for the room that it needs.
ghost use Rattle.std.specs.Prelude.{◌≡◌, ◌*◌, ◌++◌, ◌+◌, ◌≤◌, ◌<◌, length, take};
ghost use Rattle.laws.specs.Puts.{written};
ghost use Rattle.protocol.specs.Checksum as checksums;
ghost use Rattle.protocol.specs.Layouts as layouts;
ghost use Rattle.protocol.specs.Sizes.{fixed_size};
ghost use Rattle.writer.specs.Write as fields;
ghost use Rattle.writer.specs.Write.{common_fields, record_fields, summed, Behind};

use crate::write::Common;
use numbers::sum::ones_sum;
use octets::put;
use protocol::{CaFlags, Kind};

// The M, I and O bits.
pub fn flags_of(f: CaFlags) -> u16
    ensures { result ≡ layouts.flags_field f }
{
    u16::from(f.master) * 32768 + u16::from(f.initial) * 16384 + u16::from(f.more) * 8192
}

fn checksum(p: &[u8]) -> u16
    requires { length p.now ≤ 65536 }
    ensures { result ≡ checksums.checksum_of p.now }
{
    (65535 - ones_sum(p)) as u16
}

// The checksum of the first n octets goes into its place.
fn seal(out: &mut [u8], n: usize)
    requires { (8 ≤ n) × ((n ≤ 65536) × (n ≤ length out.old)) }
    ensures { out.new ≡ written (summed (take n out.old)) out.old }
{
    let [high, low] = checksum(&out[..n]).to_be_bytes();
    out[4] = high;
    out[5] = low;
}

// The fixed part of a packet of n octets, its checksum still 0.
fn fixed_part(k: Kind, n: u16) -> [u8; 8]
    ensures { result ≡ layouts.fixed_part k n 0 }
{
    let [n0, n1] = n.to_be_bytes();
    [1, k.into(), n0, n1, 0, 0, 0, 0]
}

// What a Hello has before its common part: HelloInterval, DeadFactor, unused, Family ID.
pub fn hello_fields(interval: u16, factor: u16) -> [u8; 8]
    ensures { result ≡ fields.hello_fields interval factor }
{
    let [i0, i1] = interval.to_be_bytes();
    let [f0, f1] = factor.to_be_bytes();
    [i0, i1, f0, f1, 0, 0, 0, 0]
}

// The common part with both IDs, of which the receiver's counts `len` octets.
pub fn common_part(c: Common, flags: u16, len: u8, count: u16) -> [u8; 20]
    ensures { result ≡ common_fields c.protocol c.group flags len count ++ (c.sender ++ c.receiver) }
{
    let [p0, p1] = c.protocol.to_be_bytes();
    let [g0, g1] = c.group.to_be_bytes();
    let [f0, f1] = flags.to_be_bytes();
    let [n0, n1] = count.to_be_bytes();
    let [s0, s1, s2, s3] = c.sender;
    let [r0, r1, r2, r3] = c.receiver;
    [
        p0, p1, g0, g1, 0, 0, f0, f1, 4, len, n0, n1, s0, s1, s2, s3, r0, r1, r2, r3,
    ]
}

// The head, that is the fixed part, what stands before the common part, and that, before what stands behind it up to n; then the checksum.
pub fn put_head(out: &mut [u8], k: Kind, before: &[u8], common: &[u8], n: usize)
    requires { (fixed_size + length before.now + length common.now ≤ n) × ((n < 65536) × (n ≤ length out.old)) }
    ensures { Behind k (before.now ++ common.now) (fixed_size + length before.now + length common.now) n out.old out.new }
{
    let fixed = put(out, 0, &fixed_part(k, n as u16));
    let at = put(out, fixed, before);
    put(out, at, common);
    seal(out, n);
}

// A record without its name and payload.
pub fn record_head(hops: u16, key: u8, payload: u8, null: bool, bits: u32) -> [u8; 12]
    ensures { result ≡ record_fields hops key payload (layouts.bit null * 32768) bits }
{
    let [h0, h1] = hops.to_be_bytes();
    let [n0, n1] = (16 + u16::from(key) + u16::from(payload)).to_be_bytes();
    let [f0, f1] = (u16::from(null) * 32768).to_be_bytes();
    let [b0, b1, b2, b3] = bits.to_be_bytes();
    [h0, h1, n0, n1, key, 4, f0, f1, b0, b1, b2, b3]
}
