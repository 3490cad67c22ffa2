// Document 01, 'Answers to an event': the cases of codes 1 to 4, and what is answered.
ghost use Rattle.std.specs.Prelude.{◌≡◌, List, ℕ, IfOk, Ok, Err};
ghost use Rattle.rules.specs.Refusals as rules;
ghost use Rattle.slots.specs.Codes.{code_number};
ghost use Rattle.server.specs.State.{server_of, answer_of};

use protocol::{Index, SlotIndex};
use slots::answers::Failure;
use slots::hello;
use slots::state::Server;
use table::Slots;

// The server after an event, and how many octets were written, or why it is refused.
#[derive(Clone, Copy)]
pub struct Answer {
    pub server: Server,
    pub outcome: Result<usize, Failure>,
}

// The slot: none above 7 or with no peer in it; time before the server's time.
pub fn link_code(s: Server, slots: &Slots, slot: usize, time: u32) -> Result<SlotIndex, Failure>
    ensures code { (memory : List ℕ) → code_number result ≡ rules.link_code (server_of s slots.now memory) slot time }
    ensures index { IfOk result (λ k. k.at ≡ slot) }
{
    let k = Index::new(slot).ok_or(Failure::NoPeer)?;
    if !table::used_at(slots, k) {
        return Err(Failure::NoPeer);
    }
    if time < s.time {
        return Err(Failure::TimeBefore);
    }
    Ok(k)
}

// Codes 1 to 4.
pub fn poll_code(
    s: Server,
    slots: &Slots,
    slot: usize,
    time: u32,
    room: usize,
) -> Result<SlotIndex, Failure>
    ensures code { (memory : List ℕ) → code_number result ≡ rules.poll_code (server_of s slots.now memory) slot time room }
    ensures index { IfOk result (λ k. k.at ≡ slot) }
{
    let k = link_code(s, slots, slot, time)?;
    if room < 284 {
        return Err(Failure::ShortOut);
    }
    if hello::is_down(table::hello_at(slots, k)) {
        return Err(Failure::LinkDown);
    }
    Ok(k)
}

// The answer to an event: the server that it leaves and the octets written, or a refusal, with the server as it came.
pub fn of_event(s: Server, r: Result<(Server, usize), Failure>) -> Answer
    ensures { result ≡ answer_of s r }
{
    match r {
        Ok((server, n)) => Answer {
            server,
            outcome: Ok(n),
        },
        Err(f) => refuse(s, f),
    }
}

// A refusal: nothing is changed, nothing written.
pub fn refuse(s: Server, f: Failure) -> Answer
    ensures { result ≡ record { server = s; outcome = Err f } }
{
    Answer {
        server: s,
        outcome: Err(f),
    }
}

// An event that wrote nothing is taken.
pub fn take(s: Server) -> Answer
    ensures { result ≡ record { server = s; outcome = Ok 0 } }
{
    Answer {
        server: s,
        outcome: Ok(0),
    }
}
