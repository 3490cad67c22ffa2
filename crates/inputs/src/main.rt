// Replays several inputs, one after the other, each as the replay program does. Input: for each its length (4 octets), at most 65700, then its
// octets. For tests of what ends an input: nothing, settings that are refused, a short record.
#![tactic(auto)]

use memory::Storage;
use table::Slots;

const SPACE: usize = 65700;

// Alike in replay: `lines`, which `host` links, only makes text and writes nothing.
fn print(text: &[u8; 20480], n: usize) {
    io::write_all(1, octets::first(text, n));
}

// One input, its first record and one chunk behind it.
fn replay(slots: &mut Slots, memory: &mut Storage, input: &[u8], text: &mut [u8; 20480]) {
    let first = lines::chunk::open(slots, memory, octets::first(input, 292), text);
    print(text, first.text);
    let a = first.answer;
    if a.outcome.is_ok() {
        let rest = octets::tail(input, 292);
        let c = lines::chunk::replay(a.server, slots, memory, rest, true, 1, text);
        print(text, c.text);
    }
}

// Reads an input of n octets, as many as there is space for.
fn read(space: &mut [u8], n: usize) -> usize {
    if n <= space.len() {
        return io::read_full(0, &mut space[..n]);
    }
    io::read_full(0, space)
}

fn main() {
    let mut slots = table::empty();
    let mut memory = [0u8; 21504];
    let mut text = [0u8; 20480];
    let mut space = [0u8; SPACE];
    let mut head = [0u8; 4];
    for _ in 0..u64::MAX {
        if io::read_full(0, &mut head) < 4 {
            return;
        }
        let n = read(&mut space, octets::field4(&head, 0) as usize);
        replay(&mut slots, &mut memory, octets::first(&space, n), &mut text);
    }
}
