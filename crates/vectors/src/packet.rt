// The lines of a packet.
ghost use Rattle.std.specs.Prelude.{◌≡◌, ◌≤◌};
ghost use Rattle.protocol.specs.Reading as reading;
ghost use Rattle.wire.specs.Views.{refused_as};

use crate::print;
use protocol::{CaFlags, Kind};
use wire::read::{Head, Refusal};
use wire::record;
use wire::record::Cursor;

// The table's number of a refusal.
fn refusal_number(r: Refusal) -> u64
    ensures { result ≡ reading.refusal_of (refused_as r) }
{
    match r {
        Refusal::Length => 5,
        Refusal::Version => 6,
        Refusal::Type => 7,
        Refusal::Checksum => 8,
        Refusal::Extensions => 9,
        Refusal::Malformed(_) => 10,
    }
}

// A malformed packet's with its position: its number and the space are printed at once.
fn refusal_line(r: Refusal) {
    match r {
        Refusal::Malformed(at) => {
            print::text(b"10 ");
            print::number(at as u64);
        }
        _ => print::number(refusal_number(r)),
    }
    print::line_end();
}

fn head_numbers(k: Kind, protocol: u16, group: u16) {
    print::text(b"0 ");
    print::number(u8::from(k).into());
    print::space();
    print::number(protocol as u64);
    print::space();
    print::number(group as u64);
}

fn head_line(p: &[u8], h: Head) {
    head_numbers(h.kind, h.protocol, h.group);
    print::space();
    print::octets(wire::read::sender(p, h));
    print::space();
    print::octets(wire::read::receiver(p, h));
    print::line_end();
}

fn flags(f: CaFlags) {
    print::space();
    print::bit(f.master);
    print::space();
    print::bit(f.initial);
    print::space();
    print::bit(f.more);
}

fn ca_line(p: &[u8]) {
    let n = wire::read::ca_number(p);
    print::indent();
    print::number(n.0 as u64);
    flags(wire::read::ca_flags(p));
    print::line_end();
}

fn hello_line(p: &[u8]) {
    print::indent();
    print::number(wire::read::interval(p) as u64);
    print::space();
    print::number(wire::read::dead_factor(p) as u64);
    print::line_end();
}

fn record_numbers(p: &[u8], r: usize)
    requires { r ≤ 4294967296 }
{
    print::indent();
    print::number(record::hops(p, r) as u64);
    print::space();
    print::bit(record::null(p, r));
    print::space();
    io::print_hex(1, numbers::bits_of(record::number(p, r)) as u64, 8);
}

// The key is all of a name but the originator, its last four octets.
fn name_octets(name: &[u8]) {
    if name.len() < 4 {
        return;
    }
    let n = name.len() - 4;
    print::space();
    print::octets(octets::first(name, n));
    print::space();
    print::octets(octets::tail(name, n));
}

fn record_line(p: &[u8], r: usize)
    requires { r ≤ 4294967296 }
{
    record_numbers(p, r);
    name_octets(record::name(p, r));
    print::space();
    print::octets(record::payload(p, r));
    print::line_end();
}

// The position of a record in a packet that was read is far below the bound.
fn records(p: &[u8], from: Cursor) {
    let mut at = from.at;
    for _ in 0..from.left {
        if at > 1048576 {
            return;
        }
        record_line(p, at);
        at += record::size(p, at);
    }
}

fn receiver_line(p: &[u8], at: usize)
    requires { at ≤ 4294967296 }
{
    print::indent();
    print::octets(record::receiver(p, at));
    print::line_end();
}

// As `records` is.
fn receivers(p: &[u8], from: Cursor) {
    let mut at = from.at;
    for _ in 0..from.left {
        if at > 1048576 {
            return;
        }
        receiver_line(p, at);
        at += 5;
    }
}

// By the type of the packet.
fn body_lines(p: &[u8], k: Kind, from: Cursor) {
    match k {
        Kind::Ca => {
            ca_line(p);
            records(p, from);
        }
        Kind::CsuRequest | Kind::CsuReply | Kind::Csus => records(p, from),
        Kind::Hello => {
            hello_line(p);
            receivers(p, from);
        }
    }
}

fn head_lines(p: &[u8], h: Head) {
    head_line(p, h);
    body_lines(p, h.kind, h.records);
}

pub fn lines(p: &[u8]) {
    match wire::read::read(p) {
        Ok(h) => head_lines(p, h),
        Err(r) => refusal_line(r),
    }
}
