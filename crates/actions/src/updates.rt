// Document 01, 'Updates': a CSU Request and a CSUS taken.
ghost use Rattle.std.specs.Prelude.{◌≤◌, length};
ghost use Rattle.memory.specs.Memory.{is_marked};
ghost use Rattle.records.specs.Views.{records_left};
ghost use Rattle.slots.specs.State.{settings_of};
ghost use Rattle.actions.specs.Steps.{TakesRequest, TakesCsus};

use crate::{moves, packets};
use memory::{Storage, kept};
use protocol::SlotIndex;
use records::packet::Records;
use records::{solicited, updates};
use slots::state::Settings;
use table::Slots;
use writer::write::Csu;

// A CSU Request is taken. `live`: the slots that changes are put to.
pub fn take_request(
    s: Settings,
    slots: &mut Slots,
    memory: &mut Storage,
    live: u8,
    records: Records,
    k: SlotIndex,
    out: &mut [u8],
) -> usize
    requires { 284 ≤ length out.old }
    ensures { TakesRequest (is_marked live) k.at (settings_of s) (records_left records.entry) slots.old slots.new
        memory.old memory.new out.old out.new result }
{
    let peer = table::peer_at(slots, k);
    let to = updates::update_all(memory, live, k, records, out);
    let n = packets::write_csu(Csu::Reply, packets::common(s, peer), to.count, to.next, out);
    moves::put_completed(slots, memory, k);
    n
}

// A CSUS is taken: it is answered, what was sent waits, and the kept CA goes.
pub fn take_csus(
    s: Settings,
    slots: &Slots,
    memory: &mut Storage,
    records: Records,
    k: SlotIndex,
    out: &mut [u8],
) -> usize
    requires { 284 ≤ length out.old }
    ensures { TakesCsus k.at (settings_of s) (records_left records.entry) slots.now memory.old memory.new
        out.old out.new result }
{
    let peer = table::peer_at(slots, k);
    let next = solicited::solicit_all(memory, k, records, out);
    let n = packets::write_csu(
        Csu::Request,
        packets::common(s, peer),
        records.cursor.left,
        next,
        out,
    );
    kept::drop_kept(memory, k);
    n
}
