// Replays lists of events and prints, behind each line, the octets written at that event and the state of the slot that the record's second octet
// names. Input: for each list how many records it has (4 octets), then the records. For tests: the lines are compared with those of the reference.
#![tactic(auto)]

ghost use Rattle.std.specs.Prelude.{◌≡◌, ◌+◌, ◌*◌, ◌≤◌, length};

use memory::Storage;
use protocol::{Alignment, HelloState, Role};
use server::answers::Answer;
use server::queries;
use server::queries::SlotState;
use slots::answers::Failure;
use slots::state::Server;
use table::Slots;

fn put_octet(text: &mut [u8], at: usize, x: u8)
    requires { at + 2 ≤ length text.old }
{
    let digits = b"0123456789abcdef";
    text[at] = digits[x as usize / 16];
    text[at + 1] = digits[x as usize % 16];
}

// The octets in hexadecimal, `-` for none, and a space: the place behind them.
fn put_octets(text: &mut [u8], from: usize, p: &[u8]) -> usize
    requires { from + (length p.now * 2 + 2) ≤ length text.old }
    ensures { result ≤ from + (length p.now * 2 + 2) }
{
    if p.is_empty() {
        return octets::put(text, from, b"- ");
    }
    let mut at = from;
    for x in p {
        put_octet(text, at, *x);
        at += 2;
    }
    text[at] = 32;
    at + 1
}

// The numbers of a line, with a space for its line end.
fn put_numbers(text: &mut [u8], number: u64, code: u8, written: usize, used: usize) -> usize
    requires { 84 ≤ length text.old }
    ensures { result ≤ 84 }
{
    let n = lines::text::put_line(text, 0, number, code, written, used);
    if n == 0 {
        return 0;
    }
    text[n - 1] = 32;
    n
}

// ---- a slot's state
// The numbers of the reference's lines, which are not the enums' own: a `match` each.
fn hello_number(h: HelloState) -> u64 {
    match h {
        HelloState::Down => 0,
        HelloState::Waiting => 1,
        HelloState::Unidirectional => 2,
        HelloState::Bidirectional => 3,
    }
}

fn alignment_number(a: Alignment) -> u64 {
    match a {
        Alignment::Down => 0,
        Alignment::Negotiate => 1,
        Alignment::Summarize(_) => 2,
        Alignment::Update => 3,
        Alignment::Aligned => 4,
    }
}

fn role_number(r: Role) -> u64 {
    match r {
        Role::Master => 1,
        Role::Slave => 2,
    }
}

// There is no role before Summarize.
fn role_in(a: Alignment, r: Role) -> u64 {
    match a {
        Alignment::Down | Alignment::Negotiate => 0,
        _ => role_number(r),
    }
}

fn put_states(text: &mut [u8], at: usize, x: SlotState) -> usize
    requires { at + 63 ≤ length text.old }
    ensures { result ≤ at + 63 }
{
    let second = lines::text::put_number(text, at, hello_number(x.hello), 32);
    let third = lines::text::put_number(text, second, alignment_number(x.alignment), 32);
    lines::text::put_number(text, third, role_in(x.alignment, x.role), 32)
}

fn put_counts(text: &mut [u8], at: usize, x: SlotState) -> usize
    requires { at + 42 ≤ length text.old }
    ensures { result ≤ at + 42 }
{
    let second = lines::text::put_number(text, at, x.updates as u64, 32);
    lines::text::put_number(text, second, x.missed as u64, 10)
}

// Hello and alignment state, role, update requests, missed; `-` for no peer; and a line end.
fn put_state(text: &mut [u8], at: usize, s: Result<SlotState, Failure>) -> usize
    requires { at + 105 ≤ length text.old }
    ensures { result ≤ at + 105 }
{
    match s {
        Err(_) => octets::put(text, at, b"-\n"),
        Ok(x) => {
            let behind = put_states(text, at, x);
            put_counts(text, behind, x)
        }
    }
}

// A line, the octets written and the slot's state behind it.
fn put_answer(
    text: &mut [u8],
    number: u64,
    a: Answer,
    used: usize,
    out: &[u8],
    state: Result<SlotState, Failure>,
) -> usize
    requires { (length text.old ≡ 1024) × (length out.now ≡ 284) }
    ensures { result ≤ 1024 }
{
    let written = a.outcome.unwrap_or(0);
    let n = put_numbers(text, number, slots::answers::code(a.outcome), written, used);
    let at = put_octets(text, n, octets::first(out, written));
    put_state(text, at, state)
}

fn line(
    number: u64,
    a: Answer,
    memory: &Storage,
    out: &[u8; 284],
    state: Result<SlotState, Failure>,
) {
    let mut text = [0u8; 1024];
    let used = queries::rows_used(memory);
    let end = put_answer(&mut text, number, a, used, out, state);
    io::write_all(1, &text[..end]);
}

fn record(s: Server, slots: &mut Slots, memory: &mut Storage, r: &[u8], number: u64) -> Server {
    let mut out = [0u8; 284];
    let a = lines::take::take(s, slots, memory, r, &mut out);
    let state = queries::status_of(slots, lines::record::slot(r));
    line(number, a, memory, &out, state);
    a.server
}

fn records(s: Server, slots: &mut Slots, memory: &mut Storage, count: u32) {
    let mut input = [0u8; 292];
    let mut x = s;
    for i in 1..count {
        if io::read_full(0, &mut input) < 292 {
            return;
        }
        x = record(x, slots, memory, &input, i as u64);
    }
}

fn list(slots: &mut Slots, memory: &mut Storage, count: u32) {
    let mut input = [0u8; 292];
    let n = io::read_full(0, &mut input);
    let first = lines::take::begin(slots, memory, octets::first(&input, n));
    if first.outcome.is_err() {
        io::write_all(1, b"cut\n");
        return;
    }
    let out = [0u8; 284];
    let state = queries::status_of(slots, lines::record::slot(&input));
    line(0, first, memory, &out, state);
    records(first.server, slots, memory, count);
}

fn main() {
    let mut slots = table::empty();
    let mut memory = [0u8; 21504];
    let mut head = [0u8; 4];
    for _ in 0..u64::MAX {
        if io::read_full(0, &mut head) < 4 {
            return;
        }
        list(&mut slots, &mut memory, octets::field4(&head, 0));
    }
}
