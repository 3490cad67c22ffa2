// The requests of a slot put as records.
ghost use Rattle.std.specs.Prelude.{[], ◌∷◌, map, ◌+◌, ◌≤◌, length, take};
ghost use Rattle.rules.specs.Poll.{request_record};
ghost use Rattle.memory.specs.Memory.{request_in, requests_in};
ghost use Rattle.records.specs.Places.{Puts, Places};

use crate::put::Placed;
use crate::summaries::put_summary;
use memory::requests::RequestIndex;
use memory::{Storage, requests};
use protocol::{Index, SlotIndex};

// Request i of slot k.
fn put_request(memory: &Storage, k: SlotIndex, i: RequestIndex, out: &mut [u8], at: usize) -> usize
    requires { at + 64 ≤ length out.old }
    ensures { Puts 32 (request_record (request_in memory.now k.at i.at) ∷ []) at out.old out.new result }
{
    let number = requests::number_at(memory, k, i);
    put_summary(out, at, number, requests::name_at(memory, k, i))
}

// The first four requests of slot k, or all, from octet 28 on.
pub fn first_requests(memory: &Storage, k: SlotIndex, out: &mut [u8]) -> Placed
    requires { 284 ≤ length out.old }
    ensures { Places 32 (map request_record (take 4 (requests_in memory.now k.at))) 28 out.old
        out.new result }
{
    let count = requests::count(memory, k).min(4);
    let mut next: usize = 28;
    for i in 0..count {
        next = put_request(memory, k, Index { at: i }, out, next);
    }
    Placed { count, next }
}
