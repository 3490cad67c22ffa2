// The events, for any server, table of slots, memory, octets, slot and time. `Does` says what each leaves and answers. That octets are below
// 256 is part of it, by `octets::bounded`. A server, its slots and its memory are apart, as a host lends them. Each event of document 01
// has its function, also where two differ in one word.
ghost use Rattle.std.specs.Prelude.{length};
ghost use Rattle.rules.specs.Events as events;
ghost use Rattle.server.specs.State.{Does, DoesOut, Starts};

use crate::answers::Answer;
use crate::{answers, links, own, packet, peers, poll};
use memory::Storage;
use slots::state::{Server, Settings};
use table::Slots;

// A server with these settings, a table in which no slot has a peer, and a memory with nothing in it. Where they are refused the server counts for nothing.
pub fn start(settings: Settings, slots: &mut Slots, memory: &mut Storage) -> Answer
    ensures { Starts settings slots.old slots.new memory.old memory.new result }
{
    peers::start(settings, slots, memory)
}

pub fn add_peer(
    s: Server,
    slots: &mut Slots,
    memory: &mut Storage,
    slot: usize,
    id: &[u8],
) -> Answer
    ensures { Does (events.add_peer slot id.now) s slots.old slots.new memory.old
        memory.new result }
{
    octets::bounded(id);
    answers::of_event(s, peers::add_peer(s, slots, memory, slot, id))
}

pub fn link_up(s: Server, slots: &mut Slots, memory: &mut Storage, slot: usize, time: u32) -> Answer
    ensures { Does (events.link_up slot time) s slots.old slots.new memory.old memory.new result }
{
    answers::of_event(s, links::link_up(s, slots, memory, slot, time))
}

pub fn link_down(
    s: Server,
    slots: &mut Slots,
    memory: &mut Storage,
    slot: usize,
    time: u32,
) -> Answer
    ensures { Does (events.link_down slot time) s slots.old slots.new memory.old memory.new result }
{
    answers::of_event(s, links::link_down(s, slots, memory, slot, time))
}

pub fn packet(
    s: Server,
    slots: &mut Slots,
    memory: &mut Storage,
    slot: usize,
    time: u32,
    p: &[u8],
    out: &mut [u8],
) -> Answer
    ensures { DoesOut (events.packet slot time p.now (length out.old)) s slots.old slots.new
        memory.old memory.new out.old out.new result }
{
    octets::bounded(p);
    packet::packet(s, slots, memory, slot, time, p, out)
}

pub fn poll(
    s: Server,
    slots: &mut Slots,
    memory: &mut Storage,
    slot: usize,
    time: u32,
    out: &mut [u8],
) -> Answer
    ensures { DoesOut (events.poll slot time (length out.old)) s slots.old slots.new memory.old
        memory.new out.old out.new result }
{
    answers::of_event(s, poll::poll(s, slots, memory, slot, time, out))
}

pub fn set(s: Server, slots: &Slots, memory: &mut Storage, key: &[u8], payload: &[u8]) -> Answer
    ensures { Does (events.set key.now payload.now) s slots.now slots.now memory.old
        memory.new result }
{
    octets::bounded(key);
    octets::bounded(payload);
    answers::of_event(s, own::set(s, slots, memory, key, payload))
}

pub fn withdraw(s: Server, slots: &Slots, memory: &mut Storage, key: &[u8]) -> Answer
    ensures { Does (events.withdraw key.now) s slots.now slots.now memory.old memory.new result }
{
    octets::bounded(key);
    answers::of_event(s, own::withdraw(s, slots, memory, key))
}

pub fn purge(s: Server, slots: &Slots, memory: &mut Storage, key: &[u8]) -> Answer
    ensures { Does (events.purge key.now) s slots.now slots.now memory.old memory.new result }
{
    octets::bounded(key);
    answers::of_event(s, own::purge(s, slots, memory, key))
}
