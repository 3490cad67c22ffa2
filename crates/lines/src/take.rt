// A record taken: the event that it is, and its answer.
ghost use Rattle.std.specs.Prelude.{◌≡◌};
ghost use Rattle.rules.specs.Replay as replay;
ghost use Rattle.lines.specs.Lines.{no_settings, Begins, Takes};

use crate::record;
use memory::Storage;
use server::answers::Answer;
use server::{answers, events};
use slots::answers::Failure;
use slots::state::{Server, Settings};
use table::Slots;

// Settings that are refused.
fn no_settings() -> Settings
    ensures { result ≡ no_settings }
{
    Settings {
        id: [0; 4],
        protocol: 0,
        group: 0,
        interval: 0,
        factor: 0,
    }
}

// The first record: a server, if it is a whole record of settings that are accepted.
pub fn begin(slots: &mut Slots, memory: &mut Storage, r: &[u8]) -> Answer
    ensures { Begins r.now slots.old slots.new memory.old memory.new result }
{
    if r.len() < 292 || record::kind(r) != 0 {
        return events::start(no_settings(), slots, memory);
    }
    events::start(record::settings(r), slots, memory)
}

// A later record. A match on the numbers that document 01 gives the kinds.
pub fn take(
    s: Server,
    slots: &mut Slots,
    memory: &mut Storage,
    r: &[u8],
    out: &mut [u8; 284],
) -> Answer
    ensures { Takes (replay.record_kind r.now) s slots.old slots.new memory.old memory.new
        out.old out.new result }
{
    match record::kind(r) {
        1 => events::link_up(s, slots, memory, record::slot(r), record::time(r)),
        2 => events::link_down(s, slots, memory, record::slot(r), record::time(r)),
        3 => events::packet(
            s,
            slots,
            memory,
            record::slot(r),
            record::time(r),
            record::packet(r),
            out,
        ),
        4 => events::poll(s, slots, memory, record::slot(r), record::time(r), out),
        5 => events::set(s, slots, memory, record::key(r), record::payload(r)),
        6 => events::withdraw(s, slots, memory, record::key(r)),
        7 => events::purge(s, slots, memory, record::key(r)),
        8 => events::add_peer(s, slots, memory, record::slot(r), record::id(r)),
        _ => answers::refuse(s, Failure::Size),
    }
}
