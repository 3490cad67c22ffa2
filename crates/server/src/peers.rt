// Settings taken, and peers added.
ghost use Rattle.std.specs.Prelude.{◌≡◌, ◌&&◌, List, ℕ, length, IfOk};
ghost use Rattle.laws.specs.Tables.{has, same};
ghost use Rattle.rules.specs.Events as events;
ghost use Rattle.rules.specs.Refusals as rules;
ghost use Rattle.rules.specs.Server.{settings_code};
ghost use Rattle.table.specs.Slots.{unused, slot_in};
ghost use Rattle.slots.specs.Codes.{code_number};
ghost use Rattle.slots.specs.State.{settings_of};
ghost use Rattle.server.specs.State.{slots_of, server_of, answer_of, Steps, Starts};

use crate::answers;
use crate::answers::Answer;
use actions::parts;
use memory::{Storage, store};
use protocol::{Index, SlotIndex};
use slots::answers::Failure;
use slots::state;
use slots::state::{Server, Settings, Slot};
use table::Slots;

// 17 for HelloInterval or DeadFactor 0. The table may be longer than eight slots: of one that is cleared `Starts` says what the first eight are, `cleared` all.
pub fn start(settings: Settings, slots: &mut [Slot], memory: &mut Storage) -> Answer
    ensures starts { Starts settings slots.old slots.new memory.old memory.new result }
    ensures cleared { settings_code (settings_of settings) ≡ 0 → (k : ℕ) → slot_in slots.new k ≡ unused }
{
    let id = settings.id;
    octets::bounded(&id);
    let server = Server { settings, time: 0 };
    if settings.interval == 0 || settings.factor == 0 {
        return answers::refuse(server, Failure::Size);
    }
    table::clear(slots);
    store::fresh(memory);
    answers::take(server)
}

// ---- adding a peer
fn is_peer(slots: &Slots, k: SlotIndex, id: &[u8]) -> bool
    ensures { result ≡ ((slot_in slots.now k.at).used && same (slot_in slots.now k.at).peer id.now) }
{
    table::used_at(slots, k) && octets::same(&table::peer_at(slots, k), id)
}

// Whether some slot has this peer.
fn has_peer(slots: &Slots, id: &[u8]) -> bool
    ensures { (memory : List ℕ) → result ≡ has (rules.is_peer id.now) (slots_of slots.now memory) }
{
    // A loop: a closure would not know that k is below 8.
    for k in 0..8 {
        if is_peer(slots, Index { at: k }, id) {
            return true;
        }
    }
    false
}

fn add_code(s: Server, slots: &Slots, slot: usize, id: &[u8]) -> Result<SlotIndex, Failure>
    ensures code { (memory : List ℕ) → code_number result ≡ rules.add_peer_code (server_of s slots.now memory) slot id.now }
    ensures index { IfOk result (λ k. k.at ≡ slot) }
{
    let k = Index::new(slot).ok_or(Failure::NoPeer)?;
    if id.len() != 4 || table::used_at(slots, k) {
        return Err(Failure::Size);
    }
    if octets::same(id, &s.settings.id) || has_peer(slots, id) {
        return Err(Failure::Size);
    }
    Ok(k)
}

// It has no requests, no kept CA, and no row waits for a slot that had no peer.
fn add_taken(s: Server, slots: &mut Slots, memory: &mut Storage, k: SlotIndex, id: &[u8]) -> Server
    requires { length id.now ≡ 4 }
    ensures { server_of result slots.new memory.new ≡ events.acted (server_of s slots.old memory.old)
        (events.add_peer k.at id.now) }
{
    parts::empty_lists(memory, k);
    let x = state::peer_slot(octets::array4(id));
    table::put_slot(slots, k, x);
    s
}

pub fn add_peer(
    s: Server,
    slots: &mut Slots,
    memory: &mut Storage,
    slot: usize,
    id: &[u8],
) -> Result<(Server, usize), Failure>
    ensures { Steps (events.add_peer slot id.now) s slots.old slots.new memory.old memory.new (answer_of s result) }
{
    let k = add_code(s, slots, slot, id)?;
    let server = add_taken(s, slots, memory, k, id);
    Ok((server, 0))
}
