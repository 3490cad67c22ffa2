// The server beside its memory, and what events do to a slot. The request list and the kept CA of a slot are in the memory.
ghost use Rattle.std.specs.Prelude.{◌≡◌, List, [], ℕ};
ghost use Rattle.laws.specs.Lists.{is_empty};
ghost use Rattle.rules.specs.Server as server;
ghost use Rattle.rules.specs.Server.{Request, fresh_slot};
ghost use Rattle.rules.specs.Links as links;
ghost use Rattle.rules.specs.Slots as rules;
ghost use Rattle.rules.specs.Events.{peer_slot};
ghost use Rattle.slots.specs.State.{slot_of, empty_if};

use crate::alignment;
use protocol::{Alignment, CaFlags, CaHead, CaNumber, HelloState, Link, Role, Timers};

// Own ID, the two group numbers, our HelloInterval and DeadFactor.
#[derive(Clone, Copy)]
pub struct Settings {
    pub id: [u8; 4],
    pub protocol: u16,
    pub group: u16,
    pub interval: u16,
    pub factor: u16,
}

// A peer slot. `listed` is the row that the next CA answer goes on from, `cursor` the row that the next update request does,
// `updates` how many update requests were written at polls since the slot last entered Negotiate, up to 65535 (document 02, L1).
// `used` beside `peer`, and no Option: `Slot` of the rules has both, and `slot_of` maps field to field.
#[derive(Clone, Copy, PartialEq, Eq)]
pub struct Slot {
    pub used: bool,
    pub peer: [u8; 4],
    pub link: Link,
    pub timers: Timers,
    pub listed: usize,
    pub cursor: u32,
    pub missed: u16,
    pub updates: u16,
}

// The slots are in a lent table, so that no event copies them all.
#[derive(Clone, Copy)]
pub struct Server {
    pub settings: Settings,
    pub time: u32,
}

// ---- a slot with no peer, and one that was just given one
fn fresh_link() -> Link
    ensures { result ≡ server.fresh_link }
{
    let flags = CaFlags {
        master: false,
        initial: false,
        more: false,
    };
    Link {
        hello: HelloState::Down,
        heard: 0,
        interval: 0,
        factor: 0,
        alignment: Alignment::Down,
        role: Role::Master,
        number: CaNumber(0),
        last: CaHead {
            number: CaNumber(0),
            flags,
        },
        more: false,
    }
}

fn no_timers() -> Timers
    ensures { result ≡ server.no_timers }
{
    Timers {
        hello: None,
        ca: None,
        csus: None,
        update: None,
    }
}

pub fn fresh_slot() -> Slot
    ensures { slot_of result [] [] ≡ fresh_slot }
{
    Slot {
        used: false,
        peer: [0; 4],
        link: fresh_link(),
        timers: no_timers(),
        listed: 0,
        cursor: 0,
        missed: 0,
        updates: 0,
    }
}

pub fn peer_slot(id: [u8; 4]) -> Slot
    ensures { slot_of result [] [] ≡ peer_slot id }
{
    Slot {
        used: true,
        peer: id,
        ..fresh_slot()
    }
}

// ---- its parts replaced
pub fn with_link(x: Slot, l: Link) -> Slot
    ensures { (qs : List Request) (kept : List ℕ) → slot_of result qs kept ≡ rules.with_link l (slot_of x qs kept) }
{
    Slot { link: l, ..x }
}

// One field each, and a definition of the rules each: a setter by field name would be no shorter.
pub fn with_missed(x: Slot, missed: u16) -> Slot
    ensures { (qs ps : List Request) (kept : List ℕ) → slot_of result qs kept ≡ rules.with_requests qs missed (slot_of x ps kept) }
{
    Slot { missed, ..x }
}

pub fn with_listed(x: Slot, listed: usize) -> Slot
    ensures { (qs : List Request) (kept : List ℕ) → slot_of result qs kept ≡ rules.with_listed listed (slot_of x qs kept) }
{
    Slot { listed, ..x }
}

// ---- when packets were sent
pub fn ca_sent(x: Slot, now: u32) -> Slot
    ensures { (qs : List Request) (kept : List ℕ) → slot_of result qs kept ≡ rules.ca_sent now (slot_of x qs kept) }
{
    let timers = Timers {
        ca: Some(now),
        ..x.timers
    };
    Slot { timers, ..x }
}

// ---- its link moved
// The update requests counted: from Negotiate on, and Down leaves them.
fn updates_in(a: Alignment, n: u16) -> u16
    ensures { result ≡ rules.updates_in a n }
{
    match a {
        Alignment::Negotiate => 0,
        _ => n,
    }
}

// What Down and Negotiate empty, the request list and the kept CA apart.
fn emptied(x: Slot) -> Slot
    ensures { (qs : List Request) (kept : List ℕ) → slot_of result [] [] ≡ rules.emptied (slot_of x qs kept) }
{
    let timers = Timers {
        hello: x.timers.hello,
        ..no_timers()
    };
    Slot {
        timers,
        listed: 0,
        cursor: 0,
        missed: 0,
        updates: updates_in(x.link.alignment, x.updates),
        ..x
    }
}

// The slot with its link moved. Where it enters Down or Negotiate, its list and its kept CA are to be emptied.
pub fn moved(x: Slot, l: Link) -> Slot
    ensures { (qs : List Request) (kept : List ℕ) → slot_of result (empty_if (links.enters x.link.alignment l.alignment) qs)
        (empty_if (links.enters x.link.alignment l.alignment) kept) ≡ rules.moved l (slot_of x qs kept) }
{
    let y = with_link(x, l);
    if alignment::enters(x.link.alignment, l.alignment) {
        emptied(y)
    } else {
        y
    }
}

// Update with an empty request list becomes Aligned.
pub fn completed(x: Slot, none: bool) -> Slot
    ensures { (qs : List Request) (kept : List ℕ) → is_empty qs ≡ none → slot_of result qs kept ≡ rules.completed (slot_of x qs kept) }
{
    let alignment = alignment::completed(none, x.link.alignment);
    with_link(
        x,
        Link {
            alignment,
            ..x.link
        },
    )
}
