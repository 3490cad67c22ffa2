// Document 01, 'Poll': the Hello check, and the first packet that is due.
// Slots, memory and slot number stay parameters: in a struct of references the contracts would name the same three, only longer.
ghost use Rattle.std.specs.Prelude.{List, ℕ, ◌%◌, ◌≤◌, length};
ghost use Rattle.protocol.specs.Layouts.{packet_of};
ghost use Rattle.rules.specs.Rows.{next_waiting};
ghost use Rattle.rules.specs.Slots.{with_cursor, update_sent, update_counted};
ghost use Rattle.memory.specs.Marks.{Picked};
ghost use Rattle.rules.specs.Poll as rules;
ghost use Rattle.rules.specs.Sent.{octets_of};
ghost use Rattle.memory.specs.Memory.{rows_in};
ghost use Rattle.slots.specs.State.{settings_of};
ghost use Rattle.table.specs.Slots.{slot_in, Changes};
ghost use Rattle.writer.specs.Write.{Wrote};
ghost use Rattle.actions.specs.Parts.{slot_now, Leaves, ActsAt};
ghost use Rattle.actions.specs.Steps.{SendsCa, SendsCsus, due_kind, GoodPicks, WritesDue, PutsDue, PollsAt};

use crate::due::Due;
use crate::{alignment, due, moves, packets};
use memory::next::Picks;
use memory::{Storage, kept, requests};
use protocol::{CaFlags, SlotIndex};
use slots::state::Settings;
use table::{Slots, fields};
use writer::write;

// ---- what is written
fn send_hello(s: Settings, slots: &Slots, k: SlotIndex, out: &mut [u8]) -> usize
    requires { 284 ≤ length out.old }
    ensures { (memory : List ℕ) → Wrote (packet_of (rules.hello_of (settings_of s) (slot_now slots.now k.at memory))) out.old
        out.new result }
{
    let named = slots::hello::hears_peer(table::hello_at(slots, k));
    let c = packets::common(s, table::peer_at(slots, k));
    write::write_hello(out, c, s.interval, s.factor, named)
}

// M, I, O set, no records; it is kept.
fn send_first_ca(
    s: Settings,
    slots: &Slots,
    memory: &mut Storage,
    k: SlotIndex,
    out: &mut [u8],
) -> usize
    requires { 284 ≤ length out.old }
    ensures { SendsCa k.at (packet_of (rules.first_ca_of (settings_of s) (slot_now slots.now k.at memory.old))) memory.old
        memory.new out.old out.new result }
{
    let flags = CaFlags {
        master: true,
        initial: true,
        more: true,
    };
    let none = Picks {
        count: 0,
        rows: [0; 4],
        next: 0,
    };
    let c = packets::common(s, table::peer_at(slots, k));
    alignment::send_ca(memory, k, c, fields::number_at(slots, k), flags, none, out)
}

// The first four requests, which move to the end.
fn send_csus(
    s: Settings,
    slots: &Slots,
    memory: &mut Storage,
    k: SlotIndex,
    out: &mut [u8],
) -> usize
    requires { 284 ≤ length out.old }
    ensures { SendsCsus k.at (packet_of (rules.csus_of (settings_of s) (slot_now slots.now k.at memory.old))) memory.old
        memory.new out.old out.new result }
{
    let c = packets::common(s, table::peer_at(slots, k));
    let n = packets::write_csus(memory, k, c, out);
    requests::rotate(memory, k);
    n
}

// The rows that were picked, hop count what remains.
fn send_update(
    s: Settings,
    slots: &Slots,
    memory: &Storage,
    k: SlotIndex,
    picks: Picks,
    out: &mut [u8],
) -> usize
    requires { (284 ≤ length out.old) × Picked (slot_in slots.now k.at).cursor
        (next_waiting (rows_in memory.now) k.at (slot_in slots.now k.at).cursor) picks }
    ensures { Wrote (packet_of (rules.update_of (settings_of s) (rows_in memory.now) k.at (slot_now slots.now k.at memory.now)))
        out.old out.new result }
{
    let c = packets::common(s, table::peer_at(slots, k));
    packets::write_update(memory, c, picks, out)
}

// A match on what document 01 lets be due; `put_due` has the same cases.
fn write_due(
    s: Settings,
    slots: &Slots,
    memory: &mut Storage,
    k: SlotIndex,
    d: Due,
    out: &mut [u8],
) -> usize
    requires { (284 ≤ length out.old) × GoodPicks d k.at (slot_in slots.now k.at) memory.old }
    ensures { WritesDue (due_kind d) k.at (settings_of s) (slot_in slots.now k.at) memory.old memory.new
        out.old out.new result }
{
    match d {
        Due::Hello => send_hello(s, slots, k, out),
        Due::FirstCa => send_first_ca(s, slots, memory, k, out),
        Due::KeptCa => kept::copy_kept(memory, k, out),
        Due::Csus => send_csus(s, slots, memory, k, out),
        Due::Update(picks) => send_update(s, slots, memory, k, picks, out),
    }
}

fn put_update(slots: &mut Slots, k: SlotIndex, time: u32, picks: Picks)
    ensures { Changes k.at (λ x. update_counted (update_sent time (with_cursor (picks.next % 64) x))) slots.old slots.new }
{
    fields::put_cursor(slots, k, (picks.next % 64) as u32);
    fields::put_update_sent(slots, k, time);
    fields::put_updates(slots, k, numbers::one_more(fields::updates_at(slots, k)));
}

// The slot after it.
fn put_due(slots: &mut Slots, k: SlotIndex, time: u32, d: Due)
    ensures { PutsDue d time k.at slots.old slots.new }
{
    match d {
        Due::Hello => fields::put_hello_sent(slots, k, Some(time)),
        Due::FirstCa | Due::KeptCa => fields::put_ca_sent(slots, k, time),
        Due::Csus => fields::put_csus_sent(slots, k, time),
        Due::Update(picks) => put_update(slots, k, time, picks),
    }
}

fn send(
    s: Settings,
    slots: &mut Slots,
    memory: &mut Storage,
    k: SlotIndex,
    time: u32,
    d: Due,
    out: &mut [u8],
) -> usize
    requires { (284 ≤ length out.old) × GoodPicks d k.at (slot_in slots.old k.at) memory.old }
    ensures { ActsAt k.at (rules.due_slot (due_kind d) (settings_of s) time (rows_in memory.old) k.at
        (slot_now slots.old k.at memory.old)) (rows_in memory.old)
        (octets_of (rules.due_sent (due_kind d) (settings_of s) (rows_in memory.old) k.at (slot_now slots.old k.at memory.old)))
        slots.old slots.new memory.old memory.new out.old out.new result }
{
    let n = write_due(s, slots, memory, k, d, out);
    put_due(slots, k, time, d);
    n
}

// ---- the event
// Past Summarize the kept CA goes 5 seconds after it was last sent.
fn drop_old(slots: &Slots, memory: &mut Storage, k: SlotIndex, time: u32)
    ensures { Leaves k.at (rules.kept_dropped time (slot_now slots.now k.at memory.old)) (rows_in memory.old)
        memory.old memory.new (slot_in slots.now k.at) }
{
    if slots::alignment::is_past(table::alignment_at(slots, k)) && due::ca_passed(slots, k, time) {
        kept::drop_kept(memory, k);
    }
}

pub fn poll_slot(
    s: Settings,
    slots: &mut Slots,
    memory: &mut Storage,
    k: SlotIndex,
    time: u32,
    out: &mut [u8],
) -> usize
    requires { 284 ≤ length out.old }
    ensures { PollsAt k.at time (settings_of s) slots.old slots.new memory.old memory.new out.old
        out.new result }
{
    moves::check(slots, memory, k, time);
    drop_old(slots, memory, k, time);
    match due::due_of(s, slots, memory, k, time) {
        None => 0,
        Some(d) => send(s, slots, memory, k, time, d, out),
    }
}
