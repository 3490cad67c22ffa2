// Document 01, 'Hello': a Hello taken, and one that is malformed.
ghost use Rattle.std.specs.Prelude.{◌≡◌, ◌+◌, ◌*◌, ◌≤◌};
ghost use Rattle.laws.specs.Tables.{has, same};
ghost use Rattle.protocol.specs.Fields.{field2};
ghost use Rattle.rules.specs.Links as links;
ghost use Rattle.rules.specs.Packets as rules;
ghost use Rattle.wire.specs.Views.{message_of, receivers_of};
ghost use Rattle.table.specs.Slots.{slot_in};
ghost use Rattle.actions.specs.Parts.{MovesAt};

use crate::moves;
use memory::Storage;
use protocol::SlotIndex;
use table::Slots;
use wire::read::Head;
use wire::{read, record};

// A Hello that was read: its additional receivers are in reach.
#[derive(Clone, Copy)]
pub struct Hello<'a> {
    pub octets: &'a [u8],
    pub head: Head,
    pub ghost near: { head.records.at + head.records.left * 65535 ≤ 1048576 },
}

// Whether an additional receiver is us. A range, and no `any`: a closure would not know that the receiver is in reach.
fn any_receiver(id: &[u8], h: Hello) -> bool
    ensures { result ≡ has (same id.now) (receivers_of h.entry.octets.now h.entry.head.records) }
{
    let p = h.octets;
    let c = h.head.records;
    for i in 0..c.left {
        if octets::same(id, record::receiver(p, c.at + 5 * i)) {
            return true;
        }
    }
    false
}

// Whether any receiver is us.
fn names_us(id: &[u8], h: Hello) -> bool
    ensures { result ≡ rules.names_us id.now (message_of h.entry.octets.now h.entry.head).receiver
        (receivers_of h.entry.octets.now h.entry.head.records) }
{
    octets::same(id, read::receiver(h.octets, h.head)) || any_receiver(id, h)
}

// A Hello is taken.
pub fn take_hello(
    slots: &mut Slots,
    memory: &mut Storage,
    id: &[u8],
    h: Hello,
    k: SlotIndex,
    time: u32,
)
    ensures { MovesAt k.at (links.hello_move time (field2 h.entry.octets.now 8) (field2 h.entry.octets.now 10)
        (rules.names_us id.now (message_of h.entry.octets.now h.entry.head).receiver
        (receivers_of h.entry.octets.now h.entry.head.records))
        (slot_in slots.old k.at).link) slots.old slots.new memory.old memory.new }
{
    let named = names_us(id, h);
    moves::hear(
        slots,
        memory,
        k,
        time,
        read::interval(h.octets),
        read::dead_factor(h.octets),
        named,
    )
}
