// Packets of ours with records: these are put where they are written, and then the head before them.
// A function for each source and type of packet: the requests, the rows as summaries or whole, or what the caller put.
ghost use Rattle.std.specs.Prelude.{◌≡◌, map, ◌≤◌, length, take};
ghost use Rattle.protocol.specs.Messages.{ca, csu_request, csus};
ghost use Rattle.protocol.specs.Layouts.{packet_of};
ghost use Rattle.rules.specs.Alignment.{summary_record};
ghost use Rattle.rules.specs.Poll.{request_record, held_record};
ghost use Rattle.rules.specs.Rows.{rows_of};
ghost use Rattle.memory.specs.Memory.{rows_in, requests_in};
ghost use Rattle.memory.specs.Marks.{picks_of};
ghost use Rattle.writer.specs.Write.{csu_body, Wrote};
ghost use Rattle.actions.specs.Steps.{common_of, our_message, WritesSome};

use memory::Storage;
use memory::next::Picks;
use protocol::{CaFlags, CaNumber, SlotIndex};
use records::held::Shape;
use records::{asked, held};
use slots::state::Settings;
use writer::write;
use writer::write::{Common, Csu};

// Our group and the two servers.
pub fn common(s: Settings, peer: [u8; 4]) -> Common
    ensures { result ≡ common_of s peer }
{
    let id = s.id; // an array field goes into a literal by a variable
    Common {
        protocol: s.protocol,
        group: s.group,
        sender: id,
        receiver: peer,
    }
}

// A CA with the rows that were picked.
pub fn write_ca(
    memory: &Storage,
    c: Common,
    number: CaNumber,
    flags: CaFlags,
    picks: Picks,
    out: &mut [u8],
) -> usize
    requires { 284 ≤ length out.old }
    ensures wrote { Wrote (packet_of (our_message c (ca number flags (rows_of summary_record (rows_in memory.now) (picks_of picks)))))
        out.old out.new result }
    ensures most { result ≤ 284 }
{
    let x = held::picked(memory, picks, Shape::Summary, out, 32);
    write::finish_ca(out, c, number, flags, x.count as u16, x.next);
    x.next
}

// The records that were put from octet 28 up to n as a packet of type t; with none nothing is written.
pub fn write_csu(t: Csu, c: Common, count: usize, n: usize, out: &mut [u8]) -> usize
    requires { (count ≤ 4) × ((28 ≤ n) × ((n ≤ 284) × (284 ≤ length out.old))) }
    ensures { WritesSome (csu_body t) c count n out.old out.new result }
{
    if count == 0 {
        return 0;
    }
    write::finish_csu(out, t, c, count as u16, n);
    n
}

// A CSUS with the first four requests of slot k.
pub fn write_csus(memory: &Storage, k: SlotIndex, c: Common, out: &mut [u8]) -> usize
    requires { 284 ≤ length out.old }
    ensures { Wrote (packet_of (our_message c (csus (map request_record (take 4 (requests_in memory.now k.at)))))) out.old
        out.new result }
{
    let x = asked::first_requests(memory, k, out);
    write::finish_csu(out, Csu::Solicit, c, x.count as u16, x.next);
    x.next
}

// A CSU Request with the rows that were picked, hop count what remains.
pub fn write_update(memory: &Storage, c: Common, picks: Picks, out: &mut [u8]) -> usize
    requires { 284 ≤ length out.old }
    ensures { Wrote (packet_of (our_message c (csu_request (rows_of held_record (rows_in memory.now) (picks_of picks))))) out.old
        out.new result }
{
    let x = held::picked(memory, picks, Shape::Whole, out, 28);
    write::finish_csu(out, Csu::Request, c, x.count as u16, x.next);
    x.next
}
