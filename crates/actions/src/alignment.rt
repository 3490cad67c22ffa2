// Document 01, 'Alignment': a CA taken, and the answer to it.
ghost use Rattle.std.specs.Prelude.{◌≡◌, List, [], Bool, true, ℕ, ◌≤◌, length};
ghost use Rattle.protocol.specs.Messages.{ca};
ghost use Rattle.protocol.specs.Layouts.{packet_of};
ghost use Rattle.rules.specs.Alignment as rules;
ghost use Rattle.rules.specs.Links as links;
ghost use Rattle.rules.specs.Rows.{rows_of, used_from};
ghost use Rattle.rules.specs.Server.{Request};
ghost use Rattle.rules.specs.Slots as slots;
ghost use Rattle.rules.specs.Sent.{new_packet, octets_of};
ghost use Rattle.memory.specs.Memory.{rows_in, kept_in};
ghost use Rattle.memory.specs.Marks.{picks_of};
ghost use Rattle.records.specs.Views.{records_left};
ghost use Rattle.slots.specs.State.{settings_of, slot_of, rule_of, ca_in};
ghost use Rattle.writer.specs.Write.{Wrote};
ghost use Rattle.actions.specs.Parts.{slot_with, Leaves, Acts};
ghost use Rattle.actions.specs.Steps.{our_message, SendsCa, head_at, ca_packet_by, ca_packet_at, is_master, answers, taking_in, TakesCa};

use crate::parts::Acted;
use crate::{packets, parts};
use memory::next::Picks;
use memory::{Storage, kept, next, requests};
use protocol::{CaFlags, CaHead, CaNumber, Link, Role, SlotIndex};
use records::packet::Records;
use records::summaries;
use slots::alignment::CaRule;
use slots::state::{Settings, Slot};
use slots::{alignment, hello, state};
use wire::read;
use wire::read::Head;
use writer::write::Common;

// ---- what is written
// A CA with the rows that were picked, kept octet for octet.
pub fn send_ca(
    memory: &mut Storage,
    k: SlotIndex,
    c: Common,
    number: CaNumber,
    flags: CaFlags,
    picks: Picks,
    out: &mut [u8],
) -> usize
    requires { 284 ≤ length out.old }
    ensures { SendsCa k.at (packet_of (our_message c (ca number flags (rows_of rules.summary_record (rows_in memory.old) (picks_of picks)))))
        memory.old memory.new out.old out.new result }
{
    let n = packets::write_ca(memory, c, number, flags, picks, out);
    kept::keep(memory, k, octets::first(out, n));
    n
}

// ---- the rule
// A CA's number and flags.
pub fn head_of(p: &[u8]) -> CaHead
    ensures { result ≡ head_at p.now }
{
    CaHead {
        number: read::ca_number(p),
        flags: read::ca_flags(p),
    }
}

// The rule that the packet takes, as a CA.
pub fn rule_for(memory: &Storage, id: &[u8], p: &[u8], h: Head, k: SlotIndex, x: Slot) -> CaRule
    ensures { rule_of result ≡ rules.rule_for id.now (ca_packet_at p.now h) (slot_with x k.at memory.now) }
{
    let kept = kept::kept_len(memory, k) != 0;
    slots::rule::ca_rule(
        id,
        head_of(p),
        read::sender(p, h),
        h.records.left == 0,
        kept,
        x.link,
    )
}

// ---- the answer
fn answer_from(rule: CaRule, x: Slot) -> usize
    ensures { (qs : List Request) (kept : List ℕ) → result ≡ rules.answer_from (rule_of rule) (slot_of x qs kept) }
{
    match rule {
        CaRule::Refuse | CaRule::BecomeSlave | CaRule::BecomeMaster => 0,
        _ => x.listed,
    }
}

// M set by the master, I clear.
fn flags_of(l: Link) -> CaFlags
    ensures { result ≡ rules.ca_flags (is_master l.role) l.more }
{
    CaFlags {
        master: l.role == Role::Master,
        initial: false,
        more: l.more,
    }
}

// The slot once its summaries were taken in: its link moved, and the requests that found no room.
fn taken_in(memory: &mut Storage, k: SlotIndex, records: Records, x: Slot, l: Link) -> Slot
    ensures { Leaves k.at (taking_in l (rows_in memory.old) (records_left records.entry) (slot_with x k.at memory.old))
        (rows_in memory.old) memory.old memory.new result }
{
    let missed = summaries::take_all(memory, k, records, x.missed);
    state::with_missed(state::with_link(x, l), missed)
}

// Update with an empty request list becomes Aligned.
fn complete(memory: &Storage, k: SlotIndex, x: Slot) -> Slot
    ensures { slot_with result k.at memory.now ≡ slots.completed (slot_with x k.at memory.now) }
{
    state::completed(x, requests::count(memory, k) == 0)
}

// The link after the CA; the next answer goes on from the row `next`.
fn link_after(memory: &Storage, head: CaHead, rule: CaRule, x: Slot, next: usize) -> Link
    ensures { (sender : List ℕ) (empty : Bool) → result ≡ links.ca_move (rule_of rule) (ca_in head sender empty)
        (used_from (rows_in memory.now) next) x.link }
{
    alignment::ca_move(rule, head, next::used_from(memory, next), x.link)
}

// The CA that its link says, with the rows that were picked. Update with an empty request list becomes Aligned.
fn send_answer(
    s: Settings,
    memory: &mut Storage,
    k: SlotIndex,
    time: u32,
    x: Slot,
    picks: Picks,
    out: &mut [u8],
) -> Acted
    requires { 284 ≤ length out.old }
    ensures { let m = slots.to_peer (settings_of s) (slot_with x k.at memory.old)
        (ca x.link.number (rules.ca_flags (is_master x.link.role) x.link.more) (rows_of rules.summary_record (rows_in memory.old)
        (picks_of picks))) in Acts k.at (slots.completed (rules.keeping (new_packet m) time picks.next (slot_with x k.at memory.old)))
        (rows_in memory.old) (packet_of m) memory.old memory.new out.old out.new result }
{
    let c = packets::common(s, x.peer);
    let written = send_ca(memory, k, c, x.link.number, flags_of(x.link), picks, out);
    let y = state::ca_sent(state::with_listed(x, picks.next), time);
    Acted {
        slot: complete(memory, k, y),
        written,
    }
}

// The answer: the next used rows.
fn answer(
    s: Settings,
    memory: &mut Storage,
    head: CaHead,
    records: Records,
    k: SlotIndex,
    time: u32,
    x: Slot,
    rule: CaRule,
    out: &mut [u8],
) -> Acted
    requires { (284 ≤ length out.old) × (answers (rule_of rule) ≡ true) }
    ensures { (sender : List ℕ) → let c = ca_packet_by head (records_left records.entry) sender in
        Acts k.at (rules.ca_slot (rule_of rule) (settings_of s) time (rows_in memory.old) c (slot_with x k.at memory.old))
        (rows_in memory.old) (octets_of (rules.ca_sent_by (rule_of rule) (settings_of s) (rows_in memory.old) c
        (slot_with x k.at memory.old))) memory.old memory.new out.old out.new result }
{
    let picks = Picks::next_used(memory, answer_from(rule, x));
    let l = link_after(memory, head, rule, x, picks.next);
    let y = taken_in(memory, k, records, x, l);
    send_answer(s, memory, k, time, y, picks, out)
}

// ---- the other rules
// The kept CA is sent again.
fn repeat(memory: &Storage, k: SlotIndex, time: u32, x: Slot, out: &mut [u8]) -> Acted
    requires { 284 ≤ length out.old }
    ensures { (slot_with result.slot k.at memory.now ≡ slots.ca_sent time (slot_with x k.at memory.now))
        × Wrote (kept_in memory.now k.at) out.old out.new result.written }
{
    let written = kept::copy_kept(memory, k, out);
    Acted {
        slot: state::ca_sent(x, time),
        written,
    }
}

// The master drops its kept CA on entering Update.
fn done(memory: &mut Storage, head: CaHead, records: Records, k: SlotIndex, x: Slot) -> Slot
    ensures { (sender : List ℕ) → Leaves k.at (slots.completed (slots.with_kept [] (rules.taking links.master_done
        (rows_in memory.old) (ca_packet_by head (records_left records.entry) sender) (slot_with x k.at memory.old))))
        (rows_in memory.old) memory.old memory.new result }
{
    let l = alignment::ca_move(CaRule::MasterDone, head, x.link.more, x.link);
    let y = taken_in(memory, k, records, x, l);
    kept::drop_kept(memory, k);
    complete(memory, k, y)
}

// A CA is taken, by its rule; whose it is was told with the rule. A match: document 01 has these rules and no more.
pub fn take_ca(
    s: Settings,
    memory: &mut Storage,
    head: CaHead,
    records: Records,
    k: SlotIndex,
    time: u32,
    x: Slot,
    rule: CaRule,
    out: &mut [u8],
) -> Acted
    requires { 284 ≤ length out.old }
    ensures { (sender : List ℕ) → TakesCa (rule_of rule) k.at time (settings_of s)
        (ca_packet_by head (records_left records.entry) sender) x memory.old memory.new out.old out.new result }
{
    match rule {
        CaRule::Refuse | CaRule::Ignore => parts::silent(x),
        CaRule::BecomeSlave | CaRule::BecomeMaster | CaRule::SlaveOn | CaRule::MasterOn => answer(
            s, memory, head, records, k, time, x, rule, out,
        ),
        CaRule::Repeat => repeat(memory, k, time, x, out),
        CaRule::MasterDone => parts::silent(done(memory, head, records, k, x)),
        CaRule::Restart => parts::silent(parts::move_link(
            memory,
            k,
            x,
            hello::negotiating(x.link),
        )),
    }
}
