// Link up and link down.
ghost use Rattle.rules.specs.Events as events;
ghost use Rattle.server.specs.State.{Steps, answer_of};
ghost use Rattle.server.specs.Events.{Ups};

use crate::{answers, ends};
use actions::moves;
use memory::Storage;
use protocol::{HelloState, SlotIndex};
use slots::answers::Failure;
use slots::hello;
use slots::state::Server;
use table::{Slots, fields};

// Down to Waiting; no Hello was sent since.
fn up(slots: &mut Slots, memory: &mut Storage, k: SlotIndex)
    ensures { Ups k.at slots.old slots.new memory.old memory.new }
{
    if hello::is_down(table::hello_at(slots, k)) {
        moves::move_to(slots, memory, k, HelloState::Waiting);
        fields::put_hello_sent(slots, k, None);
    }
}

pub fn link_up(
    s: Server,
    slots: &mut Slots,
    memory: &mut Storage,
    slot: usize,
    time: u32,
) -> Result<(Server, usize), Failure>
    ensures { Steps (events.link_up slot time) s slots.old slots.new memory.old memory.new (answer_of s result) }
{
    let k = answers::link_code(s, slots, slot, time)?;
    let from = table::alignment_at(slots, k);
    up(slots, memory, k);
    let server = ends::close(s, slots, memory, k, time, false, from);
    Ok((server, 0))
}

// Beside `link_up`, another event of the rules: with a closure for the move, which alone differs, neither is plainer.
pub fn link_down(
    s: Server,
    slots: &mut Slots,
    memory: &mut Storage,
    slot: usize,
    time: u32,
) -> Result<(Server, usize), Failure>
    ensures { Steps (events.link_down slot time) s slots.old slots.new memory.old memory.new (answer_of s result) }
{
    let k = answers::link_code(s, slots, slot, time)?;
    let from = table::alignment_at(slots, k);
    moves::move_to(slots, memory, k, HelloState::Down);
    let server = ends::close(s, slots, memory, k, time, false, from);
    Ok((server, 0))
}
