// A packet in a slot: the refusal that it gets, or what it does by its type.
ghost use Rattle.std.specs.Prelude.{◌≡◌, List, ℕ, ◌≤◌, length, true, false};
ghost use Rattle.protocol.specs.Sizes.{id_length};
ghost use Rattle.protocol.specs.Reading as reading;
ghost use Rattle.rules.specs.Alignment.{rule_for};
ghost use Rattle.rules.specs.Server as server;
ghost use Rattle.rules.specs.Refusals as rules;
ghost use Rattle.rules.specs.Events as events;
ghost use Rattle.table.specs.Slots.{slot_in};
ghost use Rattle.wire.specs.Views.{records_of, message_of, refused_as};
ghost use Rattle.slots.specs.Codes.{failure_number};
ghost use Rattle.records.specs.Views.{records_left};
ghost use Rattle.slots.specs.State.{settings_of, rule_of};
ghost use Rattle.actions.specs.Parts.{slot_with};
ghost use Rattle.actions.specs.Steps.{ca_packet_at};
ghost use Rattle.server.specs.State.{StepsOut, answer_of};
ghost use Rattle.server.specs.Events.{Reaches, Reaches-prop, is_ca_kind, ActsOn, DoesRead};

use crate::answers::Answer;
use crate::{answers, codes, ends};
use actions::hello::Hello;
use actions::moves;
use memory::Storage;
use protocol::{HelloState, Kind, SlotIndex};
use records::packet::Records;
use records::replies;
use slots::alignment::CaRule;
use slots::answers::Failure;
use slots::state::{Server, Settings, Slot};
use table::Slots;
use wire::read;
use wire::read::{Head, Refusal};

// A packet that was read: its records or receivers are in reach, and a row has room for each record.
#[derive(Clone, Copy)]
struct Received<'a> {
    octets: &'a [u8],
    head: Head,
    ghost reaches: { Reaches octets.now head } by { Reaches-prop octets.now head },
}

impl<'a> Received<'a> {
    // Of any packet but a Hello.
    fn records(self) -> Records<'a>
        requires { rules.is_hello (message_of self.octets.now self.head).body ≡ false }
        ensures { records_left result ≡ records_of self.entry.octets.now self.entry.head.records }
    {
        Records {
            packet: self.octets,
            cursor: self.head.records,
        }
    }
}

// ---- what a taken packet does, by its type
// Whether a packet of this type may change rows.
fn changes_rows(h: Head) -> bool
    ensures { (p : List ℕ) → result ≡ events.body_changes (message_of p h).body }
{
    matches!(h.kind, Kind::CsuRequest | Kind::CsuReply)
}

// A CA is taken in slot k, which was x.
fn take_ca(
    s: Settings,
    slots: &mut Slots,
    memory: &mut Storage,
    p: Received,
    k: SlotIndex,
    time: u32,
    x: Slot,
    rule: CaRule,
    out: &mut [u8],
) -> usize
    requires { (284 ≤ length out.old) × ((is_ca_kind p.head.kind ≡ true)
        × ((x ≡ slot_in slots.old k.at) × (rule_of rule ≡ rule_for s.id (ca_packet_at p.octets.now p.head) (slot_with x k.at memory.old)))) }
    ensures { ActsOn (message_of p.entry.octets.now p.entry.head) k.at time (settings_of s) slots.old slots.new memory.old
        memory.new out.old out.new result }
{
    let acted = actions::alignment::take_ca(
        s,
        memory,
        actions::alignment::head_of(p.octets),
        p.records(),
        k,
        time,
        x,
        rule,
        out,
    );
    table::put_slot(slots, k, acted.slot);
    acted.written
}

// Any other packet is. A match on its type: each takes other parts of the server.
fn act(
    s: Settings,
    slots: &mut Slots,
    memory: &mut Storage,
    p: Received,
    k: SlotIndex,
    time: u32,
    out: &mut [u8],
) -> usize
    requires { (284 ≤ length out.old) × (is_ca_kind p.head.kind ≡ false) }
    ensures { ActsOn (message_of p.entry.octets.now p.entry.head) k.at time (settings_of s) slots.old slots.new memory.old
        memory.new out.old out.new result }
{
    match p.head.kind {
        Kind::Ca => 0,
        Kind::CsuRequest => {
            let live = ends::live_of(slots);
            actions::updates::take_request(s, slots, memory, live, p.records(), k, out)
        }
        Kind::CsuReply => {
            replies::reply_all(memory, k, p.records());
            0
        }
        Kind::Csus => actions::updates::take_csus(s, slots, memory, p.records(), k, out),
        Kind::Hello => {
            let hello = Hello {
                octets: p.octets,
                head: p.head,
            };
            actions::hello::take_hello(slots, memory, &s.id, hello, k, time);
            0
        }
    }
}

// A CA that was read.
fn ca_message(
    s: Server,
    slots: &mut Slots,
    memory: &mut Storage,
    p: Received,
    k: SlotIndex,
    time: u32,
    out: &mut [u8],
) -> Result<(Server, usize), Failure>
    requires { (284 ≤ length out.old) × (is_ca_kind p.head.kind ≡ true) }
    ensures { DoesRead (reading.message (message_of p.entry.octets.now p.entry.head)) p.entry.octets.now k.at time s slots.old slots.new
        memory.old memory.new out.old out.new (answer_of s result) }
{
    let x = table::slot_at(slots, k);
    let settings = s.settings;
    let rule = actions::alignment::rule_for(memory, &settings.id, p.octets, p.head, k, x);
    codes::message_code(settings, p.octets, p.head, x.peer, codes::is_refuse(rule))?;
    let from = table::alignment_at(slots, k);
    let n = take_ca(settings, slots, memory, p, k, time, x, rule, out);
    let server = ends::close(s, slots, memory, k, time, false, from);
    Ok((server, n))
}

// Any other message.
fn other_message(
    s: Server,
    slots: &mut Slots,
    memory: &mut Storage,
    p: Received,
    k: SlotIndex,
    time: u32,
    out: &mut [u8],
) -> Result<(Server, usize), Failure>
    requires { (284 ≤ length out.old) × (is_ca_kind p.head.kind ≡ false) }
    ensures { DoesRead (reading.message (message_of p.entry.octets.now p.entry.head)) p.entry.octets.now k.at time s slots.old slots.new
        memory.old memory.new out.old out.new (answer_of s result) }
{
    let settings = s.settings;
    let from = table::alignment_at(slots, k);
    let peer = table::peer_at(slots, k);
    codes::message_code(
        settings,
        p.octets,
        p.head,
        peer,
        codes::unusable(p.head, from),
    )?;
    let n = act(settings, slots, memory, p, k, time, out);
    let server = ends::close(s, slots, memory, k, time, changes_rows(p.head), from);
    Ok((server, n))
}

// A packet that was read. Only a CA reads its slot whole.
fn message(
    s: Server,
    slots: &mut Slots,
    memory: &mut Storage,
    p: Received,
    k: SlotIndex,
    time: u32,
    out: &mut [u8],
) -> Result<(Server, usize), Failure>
    requires { 284 ≤ length out.old }
    ensures { DoesRead (reading.message (message_of p.entry.octets.now p.entry.head)) p.entry.octets.now k.at time s slots.old slots.new
        memory.old memory.new out.old out.new (answer_of s result) }
{
    if p.head.kind == Kind::Ca {
        return ca_message(s, slots, memory, p, k, time, out);
    }
    other_message(s, slots, memory, p, k, time, out)
}

// A malformed packet: if it is a Hello its slot moves to Waiting.
fn malformed(
    s: Server,
    slots: &mut Slots,
    memory: &mut Storage,
    p: &[u8],
    k: SlotIndex,
    time: u32,
) -> Answer
    ensures { (at : ℕ) (out : List ℕ) → DoesRead (reading.malformed at) p.now k.at time s slots.old slots.new
        memory.old memory.new out out result }
{
    if octets::octet(p, 1) != 5 {
        return answers::refuse(s, Failure::Malformed);
    }
    let from = table::alignment_at(slots, k);
    moves::move_to(slots, memory, k, HelloState::Waiting);
    let server = ends::close(s, slots, memory, k, time, false, from);
    answers::refuse(server, Failure::Malformed)
}

// The code of a packet that is no message.
fn failure_of(r: Refusal) -> Failure
    ensures { (s : server.Settings) (x : server.Slot) → rules.reading_code s x (refused_as r) ≡ failure_number result }
{
    match r {
        Refusal::Length => Failure::Length,
        Refusal::Version => Failure::Version,
        Refusal::Type => Failure::Type,
        Refusal::Checksum => Failure::Checksum,
        Refusal::Extensions => Failure::Extensions,
        Refusal::Malformed(_) => Failure::Malformed,
    }
}

// The packet is read, and taken or refused. No `Result`: a malformed Hello is refused with another server than came.
fn reading(
    s: Server,
    slots: &mut Slots,
    memory: &mut Storage,
    p: &[u8],
    k: SlotIndex,
    time: u32,
    out: &mut [u8],
) -> Answer
    requires { 284 ≤ length out.old }
    ensures { DoesRead (reading.read_packet id_length p.now) p.now k.at time s slots.old slots.new
        memory.old memory.new out.old out.new result }
{
    match read::read(p) {
        Ok(head) => {
            let p = Received { octets: p, head };
            answers::of_event(s, message(s, slots, memory, p, k, time, out))
        }
        Err(Refusal::Malformed(_)) => malformed(s, slots, memory, p, k, time),
        Err(r) => answers::refuse(s, failure_of(r)),
    }
}

pub fn packet(
    s: Server,
    slots: &mut Slots,
    memory: &mut Storage,
    slot: usize,
    time: u32,
    p: &[u8],
    out: &mut [u8],
) -> Answer
    ensures { StepsOut (events.packet slot time p.now (length out.old)) s slots.old slots.new
        memory.old memory.new out.old out.new result }
{
    match answers::poll_code(s, slots, slot, time, out.len()) {
        Err(f) => answers::refuse(s, f),
        Ok(k) => reading(s, slots, memory, p, k, time, out),
    }
}
