// A poll.
ghost use Rattle.std.specs.Prelude.{◌≡◌, ◌≤◌, ◌<◌, length, Ok};
ghost use Rattle.rules.specs.Events as events;
ghost use Rattle.server.specs.State.{StepsOut, answer_of};
ghost use Rattle.server.specs.Events.{PollsTaken};

use crate::{answers, ends};
use actions::poll;
use memory::Storage;
use protocol::SlotIndex;
use slots::answers::Failure;
use slots::state::Server;
use table::Slots;

fn poll_taken(
    s: Server,
    slots: &mut Slots,
    memory: &mut Storage,
    k: SlotIndex,
    time: u32,
    out: &mut [u8],
) -> (Server, usize)
    requires { 284 ≤ length out.old }
    ensures { PollsTaken k.at time s slots.old slots.new memory.old memory.new out.old
        out.new (answer_of s (Ok result)) }
{
    let from = table::alignment_at(slots, k);
    let settings = s.settings;
    let n = poll::poll_slot(settings, slots, memory, k, time, out);
    let server = ends::close(s, slots, memory, k, time, false, from);
    (server, n)
}

pub fn poll(
    s: Server,
    slots: &mut Slots,
    memory: &mut Storage,
    slot: usize,
    time: u32,
    out: &mut [u8],
) -> Result<(Server, usize), Failure>
    ensures { StepsOut (events.poll slot time (length out.old)) s slots.old slots.new memory.old
        memory.new out.old out.new (answer_of s result) }
{
    let k = answers::poll_code(s, slots, slot, time, out.len())?;
    Ok(poll_taken(s, slots, memory, k, time, out))
}
