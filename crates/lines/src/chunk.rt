// The replay program's work on its input, chunk by chunk: the records taken, and the text of their lines.
ghost use Rattle.std.specs.Prelude.{◌≡◌, ◌+◌, ◌/◌, ◌≤◌, ◌&&◌, [], ◌∷◌, length, nat_le, nat_lt};
ghost use Rattle.laws.specs.Choice.{pick};
ghost use Rattle.laws.specs.Puts.{Put};
ghost use Rattle.rules.specs.Server.{rows_used};
ghost use Rattle.rules.specs.Replay.{record_kind};
ghost use Rattle.memory.specs.Memory.{rows_in};
ghost use Rattle.slots.specs.Codes.{code_number, written_of};
ghost use Rattle.lines.specs.Text.{cut_text, PutsNumbers};
ghost use Rattle.lines.specs.Chunks.{Opens, Lined, Chunks};

use crate::{take, text};
use memory::Storage;
use server::answers::Answer;
use slots::state::Server;
use table::Slots;

// The answer to the first record, and how many octets of text there are.
#[derive(Clone, Copy)]
pub struct Opened {
    pub answer: Answer,
    pub text: usize,
}

// The server behind a record, and the place behind its line.
#[derive(Clone, Copy)]
pub struct Stepped {
    pub server: Server,
    pub text: usize,
}

// The server behind a chunk, the number of the next event, the octets taken of the chunk, and how many octets of text there are.
#[derive(Clone, Copy)]
pub struct Chunk {
    pub server: Server,
    pub number: u64,
    pub taken: usize,
    pub text: usize,
}

// The line of an answer.
fn put_answer(text: &mut [u8], at: usize, number: u64, a: Answer, memory: &Storage) -> usize
    requires { at + 84 ≤ length text.old }
    ensures puts_numbers { PutsNumbers (number ∷ code_number a.outcome ∷ written_of a.outcome ∷ rows_used (rows_in memory.now) ∷ []) at
        text.old
        text.new result }
    ensures most { result ≤ at + 84 }
{
    text::put_line(
        text,
        at,
        number,
        slots::answers::code(a.outcome),
        a.outcome.unwrap_or(0),
        server::queries::rows_used(memory),
    )
}

// The first record and its line; `cut` where it is not accepted settings.
pub fn open(slots: &mut Slots, memory: &mut Storage, input: &[u8], text: &mut [u8; 20480]) -> Opened
    ensures { Opens input.now slots.old slots.new memory.old memory.new text.old
        text.new result }
{
    let answer = take::begin(slots, memory, input);
    let end = match answer.outcome {
        Ok(_) => text::put_line(text, 0, 0, 0, 0, 0),
        Err(_) => octets::put(text, 0, b"cut\n"),
    };
    Opened { answer, text: end }
}

// One record and its line.
fn one(
    s: Server,
    slots: &mut Slots,
    memory: &mut Storage,
    r: &[u8],
    out: &mut [u8; 284],
    number: u64,
    text: &mut [u8],
    at: usize,
) -> Stepped
    requires { at + 84 ≤ length text.old }
    ensures { Lined (record_kind r.now) number s slots.old slots.new memory.old memory.new at
        text.old text.new result }
{
    let a = take::take(s, slots, memory, r, out);
    let text = put_answer(text, at, number, a, memory);
    Stepped {
        server: a.server,
        text,
    }
}

// The whole records that are taken at once.
fn records_in(len: usize) -> usize
    ensures { result ≡ pick (nat_le (len / 292) 224) (len / 292) 224 }
{
    (len / 292).min(224)
}

// Whether the input ends in this chunk, with all its whole records taken, and something is left.
fn ends_short(last: bool, len: usize, at: usize) -> bool
    ensures { result ≡ ((last && nat_le (len / 292) 224) && nat_lt at len) }
{
    last && len / 292 <= 224 && at < len
}

// The whole records of a chunk behind the first record, at most 224 of them, and their lines. `last`: the input ends with it.
pub fn replay(
    s: Server,
    slots: &mut Slots,
    memory: &mut Storage,
    input: &[u8],
    last: bool,
    number: u64,
    text: &mut [u8; 20480],
) -> Chunk
    ensures { Chunks input.now last number s slots.old slots.new memory.old memory.new
        text.old text.new result }
{
    let mut out = [0u8; 284];
    let mut x = s;
    let mut end: usize = 0;
    let n = records_in(input.len());
    let taken = n * 292;
    for (i, r) in input[..taken].chunks_exact(292).enumerate() {
        let a = one(
            x,
            slots,
            memory,
            r,
            &mut out,
            number.wrapping_add(i as u64),
            text,
            end,
        );
        x = a.server;
        end = a.text;
    }
    if ends_short(last, input.len(), taken) {
        end = octets::put(text, end, b"cut\n");
    }
    Chunk {
        server: x,
        number: number.wrapping_add(n as u64),
        taken,
        text: end,
    }
}
