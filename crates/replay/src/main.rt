// Reads records of 292 octets from standard input and prints a line for each: event number, code, octets written, rows used. All of it but the
// reading and the writing is `lines::chunk`.
#![tactic(auto)]

use memory::Storage;
use slots::state::Server;
use table::Slots;

// Whole records that are read at once: 224.
const CHUNK: usize = 65408;

// Alike in inputs: `lines`, which `host` links, only makes text and writes nothing.
fn print(text: &[u8; 20480], n: usize) {
    io::write_all(1, octets::first(text, n));
}

// The records behind the first, a chunk at a time: the input ends where it does not fill the space for a chunk.
fn rest(
    s: Server,
    slots: &mut Slots,
    memory: &mut Storage,
    input: &mut [u8],
    text: &mut [u8; 20480],
) {
    let mut x = s;
    let mut number: u64 = 1;
    for _ in 0..u64::MAX {
        let n = io::read_full(0, input);
        let last = n < input.len();
        let c = lines::chunk::replay(
            x,
            slots,
            memory,
            octets::first(input, n),
            last,
            number,
            text,
        );
        print(text, c.text);
        if last {
            return;
        }
        x = c.server;
        number = c.number;
    }
}

fn main() {
    let mut slots = table::empty();
    let mut memory = [0u8; 21504];
    let mut text = [0u8; 20480];
    let mut input = [0u8; 292];
    let n = io::read_full(0, &mut input);
    let first = lines::chunk::open(&mut slots, &mut memory, octets::first(&input, n), &mut text);
    print(&text, first.text);
    let a = first.answer;
    if a.outcome.is_err() {
        return;
    }
    let mut space = [0u8; CHUNK];
    rest(a.server, &mut slots, &mut memory, &mut space, &mut text);
}
