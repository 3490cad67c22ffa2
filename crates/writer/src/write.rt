// The five types of packet, each written into a lent slice: the records where they shall stand, then the head before them.
ghost use Rattle.std.specs.Prelude.{◌≡◌, [], ◌++◌, ◌+◌, ◌≤◌, ◌<◌, length};
ghost use Rattle.laws.specs.Puts.{Put};
ghost use Rattle.protocol.specs.declared.Kind.TheVariants.{Ca};
ghost use Rattle.protocol.specs.Sizes.{id_length};
ghost use Rattle.protocol.specs.Fields.{put4};
ghost use Rattle.protocol.specs.Messages.{ca};
ghost use Rattle.protocol.specs.Layouts.{flags_field, record_octets, packet_of};
ghost use Rattle.writer.specs.Write.{named_record, hello_message, csu_body, csu_kind, receiver_length, common_part, Wrote, Behind, FinishesWith};

use crate::put::{common_part, flags_of, hello_fields, put_head, record_head};
use numbers::bits_of;
use octets::{first, put};
use protocol::{CaFlags, CaNumber, CsaNumber, Kind};

// What every packet says of its group and its two servers.
#[derive(Clone, Copy)]
pub struct Common {
    pub protocol: u16,
    pub group: u16,
    pub sender: [u8; 4],
    pub receiver: [u8; 4],
}

// A record at a position: the next one. Below the events: asks for the room and for a name and a payload that fit a record.
pub fn put_record(
    out: &mut [u8],
    at: usize,
    hops: u16,
    null: bool,
    number: CsaNumber,
    name: &[u8],
    payload: &[u8],
) -> usize
    requires { ((4 ≤ length name.now) × (length name.now ≤ 20)) × ((length payload.now ≤ 32) × (at + 64 ≤ length out.old)) }
    ensures { Put (record_octets 0 (named_record hops null number name.now payload.now)) at out.old out.new result
        × (result ≡ at + 12 + length name.now + length payload.now) }
{
    let h = record_head(
        hops,
        (name.len() - 4) as u8,
        payload.len() as u8,
        null,
        bits_of(number),
    );
    let a = put(out, at, &h);
    let b = put(out, a, name);
    // A summary has no payload, and the copy of none is a call all the same.
    if payload.len() == 0 {
        return b;
    }
    put(out, b, payload)
}

// The types of packet of CSA records with no CA sequence number.
#[derive(Clone, Copy, PartialEq, Eq)]
pub enum Csu {
    Request,
    Reply,
    Solicit,
}

impl From<Csu> for Kind {
    ghost from_gives = { λ t k. k ≡ csu_kind t };

    fn from(t: Csu) -> Kind {
        match t {
            Csu::Request => Kind::CsuRequest,
            Csu::Reply => Kind::CsuReply,
            Csu::Solicit => Kind::Csus,
        }
    }
}

// The head of a packet whose records stand in `out` from octet 28 up to n, and its checksum. Records that were put there are a whole packet
// then; whatever else stands there is left, with the same head before it.
pub fn finish_csu(out: &mut [u8], t: Csu, c: Common, count: u16, n: usize)
    requires { (28 ≤ n) × ((n < 65536) × (n ≤ length out.old)) }
    ensures finishes_with { FinishesWith (csu_body t) c 28 count n out.old out.new }
    ensures octets { Behind (csu_kind t) (common_part c 0 id_length count) 28 n out.old out.new }
{
    put_head(out, t.into(), &[], &common_part(c, 0, 4, count), n);
}

// The records of a CA start at octet 32.
pub fn finish_ca(out: &mut [u8], c: Common, number: CaNumber, flags: CaFlags, count: u16, n: usize)
    requires { (32 ≤ n) × ((n < 65536) × (n ≤ length out.old)) }
    ensures finishes_with { FinishesWith (ca number flags) c 32 count n out.old out.new }
    ensures octets { Behind Ca (put4 number.0 [] ++ common_part c (flags_field flags) id_length count) 32 n out.old
        out.new }
{
    let common = common_part(c, flags_of(flags), 4, count);
    put_head(out, Kind::Ca, &number.0.to_be_bytes(), &common, n);
}

fn receiver_len(named: bool) -> u8
    ensures { (result ≡ receiver_length named) × (result ≤ 4) }
{
    if named { 4 } else { 0 }
}

// A Hello that names the receiver, or nobody: how many octets it has. Below the events: asks for the room.
pub fn write_hello(out: &mut [u8], c: Common, interval: u16, factor: u16, named: bool) -> usize
    requires { 36 ≤ length out.old }
    ensures { Wrote (packet_of (hello_message c interval factor named)) out.old out.new result }
{
    let len = receiver_len(named);
    let n = 32 + usize::from(len);
    let common = common_part(c, 0, len, 0);
    put_head(
        out,
        Kind::Hello,
        &hello_fields(interval, factor),
        first(&common, n - 16),
        n,
    );
    n
}
