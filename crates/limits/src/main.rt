// What no short list shows, by the functions that a host calls: code 3, for an out buffer under 284 octets, the missed count and the count of
// update requests, which stop at 65535. Prints a line for each code, and for each count as it nears its end.
#![tactic(auto)]

ghost use Rattle.std.specs.Prelude.{◌≡◌, ◌+◌, ◌≤◌, length};

use memory::Storage;
use protocol::{CaFlags, CaNumber, CsaNumber};
use server::answers::Answer;
use server::{events, queries};
use slots::state::{Server, Settings};
use table::Slots;
use writer::write;
use writer::write::Common;

fn print(n: u64) {
    io::print_decimal(1, n);
    io::write_all(1, b"\n");
}

fn print_code(a: Answer) {
    print(slots::answers::code(a.outcome) as u64);
}

// ---- the peer's packets
fn common() -> Common {
    Common {
        protocol: 2,
        group: 7,
        sender: [10, 0, 0, 9],
        receiver: [10, 0, 0, 2],
    }
}

fn packet_of(p: &[u8; 284], n: usize) -> &[u8] {
    octets::first(p, n)
}

// A summary of the entry with this number for a key, at a position: the next one.
fn put_summary(out: &mut [u8], at: usize, n: u32) -> usize
    requires { at + 64 ≤ length out.old }
    ensures { result ≡ at + 20 }
{
    let [a, b, c, d] = n.to_be_bytes();
    write::put_record(
        out,
        at,
        1,
        false,
        CsaNumber(0),
        &[a, b, c, d, 10, 0, 0, 9],
        &[],
    )
}

// Four summaries, each of an entry that no other has, behind the head of a CA.
fn put_summaries(out: &mut [u8], n: u32) -> usize
    requires { length out.old ≡ 284 }
    ensures { result ≡ 112 }
{
    let first = n.wrapping_mul(4);
    let mut at = 32;
    for i in 0..4 {
        at = put_summary(out, at, first.wrapping_add(i));
    }
    at
}

// The master's n-th CA: the first has M, I and O set and no records, each later one four summaries.
fn write_ca(out: &mut [u8], n: u32) -> usize
    requires { length out.old ≡ 284 }
{
    let first = n == 0;
    let flags = CaFlags {
        master: true,
        initial: first,
        more: true,
    };
    if first {
        write::finish_ca(out, common(), CaNumber(n), flags, 0, 32);
        return 32;
    }
    let len = put_summaries(out, n);
    write::finish_ca(out, common(), CaNumber(n), flags, 4, len);
    len
}

// ---- the server's part
fn start(slots: &mut Slots, memory: &mut Storage, interval: u16) -> Server {
    let settings = Settings {
        id: [10, 0, 0, 2],
        protocol: 2,
        group: 7,
        interval,
        factor: 3,
    };
    let a = events::start(settings, slots, memory);
    let b = events::add_peer(a.server, slots, memory, 0, &[10u8, 0, 0, 9]);
    let c = events::link_up(b.server, slots, memory, 0, 0);
    c.server
}

// A poll and a Hello of the peer.
fn poll_and_hello(s: Server, slots: &mut Slots, memory: &mut Storage, out: &mut [u8]) -> Server {
    let mut hello = [0u8; 284];
    let n = write::write_hello(&mut hello, common(), 10, 3, true);
    let a = events::poll(s, slots, memory, 0, 0, out);
    print_code(a);
    let b = events::packet(a.server, slots, memory, 0, 0, packet_of(&hello, n), out);
    print_code(b);
    b.server
}

// With 283 octets of room, then with 284.
fn short_out(s: Server, slots: &mut Slots, memory: &mut Storage) -> Server {
    let mut less = [0u8; 283];
    let mut out = [0u8; 284];
    let t = poll_and_hello(s, slots, memory, &mut less);
    poll_and_hello(t, slots, memory, &mut out)
}

fn take_ca(s: Server, slots: &mut Slots, memory: &mut Storage, n: u32) -> Server {
    let mut out = [0u8; 284];
    let mut ca = [0u8; 284];
    let len = write_ca(&mut ca, n);
    let a = events::packet(s, slots, memory, 0, 0, packet_of(&ca, len), &mut out);
    a.server
}

// 64 requests fill the list with 16 CAs; each CA behind them misses four more.
fn missed(s: Server, slots: &mut Slots, memory: &mut Storage) {
    let mut x = s;
    for n in 0..16403u32 {
        x = take_ca(x, slots, memory, n);
        if n == 16 {
            print(queries::requests_of(memory, 0) as u64);
            print(queries::missed_of(slots, 0) as u64);
        }
        if 16398 <= n {
            print(queries::missed_of(slots, 0) as u64);
        }
    }
}

// ---- the count of update requests
// Of a slot, or the code that the query refuses with.
fn print_updates(slots: &Slots, slot: usize) {
    match queries::status_of(slots, slot) {
        Ok(x) => print(x.updates as u64),
        Err(f) => print(slots::answers::code(Err(f)) as u64),
    }
}

// A Hello of the peer that is alive for as long as a Hello can be.
fn take_hello(s: Server, slots: &mut Slots, memory: &mut Storage, time: u32) -> Server {
    let mut out = [0u8; 284];
    let mut hello = [0u8; 284];
    let n = write::write_hello(&mut hello, common(), 65535, 65535, true);
    let a = events::packet(s, slots, memory, 0, time, packet_of(&hello, n), &mut out);
    a.server
}

// The master's second CA, with O clear and no summaries: the slot is Aligned.
fn take_last_ca(s: Server, slots: &mut Slots, memory: &mut Storage) -> Server {
    let mut out = [0u8; 284];
    let mut ca = [0u8; 284];
    let flags = CaFlags {
        master: true,
        initial: false,
        more: false,
    };
    write::finish_ca(&mut ca, common(), CaNumber(1), flags, 0, 32);
    let a = events::packet(s, slots, memory, 0, 0, packet_of(&ca, 32), &mut out);
    a.server
}

fn poll_at(s: Server, slots: &mut Slots, memory: &mut Storage, time: u32) -> Server {
    let mut out = [0u8; 284];
    let a = events::poll(s, slots, memory, 0, time, &mut out);
    a.server
}

// An entry waits, and is never acknowledged: a poll every second writes an update request, but where our Hello is due, at 0 and at 65535.
fn poll_often(s: Server, slots: &mut Slots, memory: &mut Storage) -> Server {
    let mut x = s;
    for time in 0..65539u32 {
        x = poll_at(x, slots, memory, time);
        if 65533 <= time {
            print_updates(slots, 0);
        }
    }
    x
}

// Then link down, which leaves the count, and a new Negotiate, which ends it; and a slot with no peer.
fn updates(slots: &mut Slots, memory: &mut Storage) {
    let s = start(slots, memory, 65535);
    let a = take_hello(s, slots, memory, 0);
    let b = take_ca(a, slots, memory, 0);
    let c = take_last_ca(b, slots, memory);
    let d = events::set(c, slots, memory, b"A", b"x");
    let e = poll_often(d.server, slots, memory);
    let f = events::link_down(e, slots, memory, 0, 65539);
    print_updates(slots, 0);
    let g = events::link_up(f.server, slots, memory, 0, 65539);
    print_updates(slots, 0);
    take_hello(g.server, slots, memory, 65539);
    print_updates(slots, 0);
    print_updates(slots, 1);
}

fn main() {
    let mut slots = table::empty();
    let mut memory = [0u8; 21504];
    let s = start(&mut slots, &mut memory, 10);
    let t = short_out(s, &mut slots, &mut memory);
    missed(t, &mut slots, &mut memory);
    updates(&mut slots, &mut memory);
}
