// Searches, stores and next rows on a memory of the server, in number and kind as standard input asks: for tests/bench, which times it
// against the same work in Rust. Input: kind (0 find, 1 store, 2 next four), rows used (at most 64), how often (4 octets).
#![tactic(auto)]

ghost use Rattle.std.specs.Prelude.{◌<◌};

use memory::Storage;
use memory::names::EntryName;
use memory::next::Picks;
use memory::store::{Held, Payload};
use protocol::Index;

// What is timed.
#[derive(Clone, Copy)]
enum Kind {
    Find,
    Store,
    Next,
}

impl From<u8> for Kind {
    fn from(octet: u8) -> Self {
        match octet {
            0 => Kind::Find,
            1 => Kind::Store,
            _ => Kind::Next,
        }
    }
}

// The next of a row of numbers that go up and down.
fn scrambled(x: u32) -> u32 {
    x.wrapping_mul(1664525).wrapping_add(1013904223)
}

// The name of entry n: a key of 8 octets, and the originator.
fn name_of(n: u32) -> [u8; 12] {
    [(n % 256) as u8, 1, 2, 3, 4, 5, 6, 7, 10, 0, 0, 1]
}

// The row of entry n, 64 for none.
fn find(memory: &Storage, n: u32) -> u32
    ensures { result < 65 }
{
    let name = name_of(n);
    memory::rows::find(memory, &name).map_or(64, |i| i.at as u32)
}

// A record of entry n with this number: stored where the entry is new and a row is free (1, or 2 where none is), or the number is newer.
fn store(memory: &mut Storage, n: u32, number: u32) -> u32
    ensures { result < 3 }
{
    let name = name_of(n);
    let v = Held {
        number: numbers::csa_of(number),
        payload: Payload { octets: &[9; 16] },
        remaining: 15,
        marks: 255,
    };
    match memory::rows::find(memory, &name) {
        Some(i) => {
            if numbers::newer(v.number, memory::rows::number_of(memory, i)) {
                memory::store::put_value(memory, i, v);
                return 1;
            }
            0
        }
        None => match memory::store::insert(memory, EntryName { octets: &name }, v) {
            Some(_) => 1,
            None => 2,
        },
    }
}

// The next four rows for slot 0 from a row on: how many there are, and where to go on.
fn next(memory: &Storage, from: u32) -> u32 {
    let at = (from % 64) as usize;
    let p = Picks::next_waiting(memory, Index { at: 0 }, at);
    ((p.count % 64 * 64 + p.next % 64) % 4096) as u32
}

// Step i of the work, with x for chance.
fn step(memory: &mut Storage, kind: Kind, rows: u32, i: u32, x: u32) -> u32
    requires { 0 < rows }
{
    let n = x / 65536;
    match kind {
        Kind::Find => find(memory, n % 96),
        Kind::Store => store(memory, n % rows, i),
        Kind::Next => next(memory, n),
    }
}

fn mixed(sum: u32, r: u32) -> u32 {
    sum.wrapping_mul(31).wrapping_add(r)
}

fn work(memory: &mut Storage, kind: Kind, rows: u32, count: u32) -> u32
    requires { 0 < rows }
{
    for n in 0..rows {
        store(memory, n, 1);
    }
    let mut x: u32 = 1;
    let mut sum: u32 = 0;
    for i in 0..count {
        x = scrambled(x);
        sum = mixed(sum, step(memory, kind, rows, i, x));
    }
    sum
}

fn main() {
    let mut buf = io::buffer();
    let n = io::read_full(0, &mut buf);
    let input = octets::first(&buf, n);
    let kind = Kind::from(octets::octet(input, 0));
    let rows = octets::octet(input, 1);
    let count = octets::field4(input, 2);
    let mut memory = [0u8; 21504];
    if rows > 0 {
        let sum = work(&mut memory, kind, rows as u32, count);
        io::print_decimal(1, sum as u64);
        io::write_all(1, b"\n");
    }
}
