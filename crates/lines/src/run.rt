// A whole slice of records, from the settings to the last.
ghost use Rattle.lines.specs.Lines.{RunsFrom, Runs};

use crate::take;
use memory::Storage;
use server::answers;
use server::answers::Answer;
use slots::state::Server;
use table::Slots;

// The records behind the first, each taken by the server that the last one left.
fn run_from(s: Server, slots: &mut Slots, memory: &mut Storage, input: &[u8]) -> Server
    ensures { RunsFrom s slots.old slots.new memory.old memory.new input.now result }
{
    let mut out = [0u8; 284];
    let mut x = s;
    for r in octets::tail(input, 292).chunks_exact(292) {
        x = take::take(x, slots, memory, r, &mut out).server;
    }
    x
}

// Demand 3 of the server, slots and memory that any slice leaves.
pub fn run(slots: &mut Slots, memory: &mut Storage, input: &[u8]) -> Answer
    ensures { Runs input.now slots.old slots.new memory.old memory.new result }
{
    let first = take::begin(slots, memory, input);
    if first.outcome.is_err() {
        return first;
    }
    answers::take(run_from(first.server, slots, memory, input))
}
