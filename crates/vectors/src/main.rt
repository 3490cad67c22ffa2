// Reads entries from standard input and prints what the reader makes of each.
// An entry: kind (1 checksum, 2 packet, 3 checksum field), length (2 octets), the octets.
// tests/vectors/make.py writes the entries and the lines that are expected.
#![tactic(auto)]

ghost use Rattle.std.specs.Prelude.{◌≤◌, length};

mod packet;
mod print;

// The size of the entry at a position.
fn entry_size(s: &[u8], at: usize) -> usize
    requires { at ≤ 65536 }
    ensures { (3 ≤ result) × (result ≤ 65538) }
{
    (octets::field2(s, at + 1) as usize) + 3
}

fn checksum(p: &[u8]) {
    if p.len() > 65536 {
        return;
    }
    let sum = numbers::sum::ones_sum(p);
    print::sum_line(sum);
}

fn field(p: &[u8]) {
    if p.len() > 65536 {
        return;
    }
    let good = numbers::sum::good_sum(p);
    print::field_line(octets::field2(p, 4), good);
}

// By the kind that the input names.
fn entry(e: &[u8]) {
    let kind = octets::octet(e, 0);
    let p = octets::tail(e, 3);
    match kind {
        1 => checksum(p),
        2 => packet::lines(p),
        3 => field(p),
        _ => {}
    }
}

// By hand, as each entry says its own size.
fn entries(s: &[u8])
    requires { length s.now ≤ 65536 }
{
    let mut at = 0;
    while at < s.len() {
        let size = entry_size(s, at);
        entry(octets::part_of(s, at, size));
        at += size;
    }
}

fn main() {
    let mut buf = io::large_buffer();
    let n = io::read_full(0, &mut buf);
    entries(&buf[..n]);
}
