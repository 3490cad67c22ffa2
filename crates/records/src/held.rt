// Rows put as records.
ghost use Rattle.std.specs.Prelude.{◌+◌, ◌*◌, ◌≤◌, ◌<◌, ◌≡◌, [], ◌∷◌, length};
ghost use Rattle.rules.specs.Rows.{used1, rows_of};
ghost use Rattle.rules.specs.Updates.{record_of};
ghost use Rattle.memory.specs.Memory.{row_entry, value_at, row_in, rows_in};
ghost use Rattle.memory.specs.Marks.{picks_of};
ghost use Rattle.records.specs.Places.{Puts, Adds, Places, shape_of, most_of};

use crate::put::Placed;
use crate::summaries::put_summary;
use memory::next::Picks;
use memory::rows::RowIndex;
use memory::{Storage, rows};
use protocol::Index;
use writer::write::put_record;

// A row is put as its summary or whole, as `shape_of` and `most_of` say.
#[derive(Clone, Copy, PartialEq, Eq)]
pub enum Shape {
    Summary,
    Whole,
}

// What row i holds, with this hop count.
pub fn put_row(memory: &Storage, i: RowIndex, hops: u16, out: &mut [u8], at: usize) -> usize
    requires { at + 64 ≤ length out.old }
    ensures { Puts 64 (record_of hops (row_entry memory.now i.at) (value_at memory.now i.at) ∷ []) at out.old
        out.new result }
{
    let number = rows::number_of(memory, i);
    put_record(
        out,
        at,
        hops,
        false,
        number,
        rows::entry_of(memory, i),
        rows::payload_of(memory, i),
    )
}

// Row i in its shape. Whole, its hop count is what remains.
fn put_as(memory: &Storage, i: RowIndex, shape: Shape, out: &mut [u8], at: usize) -> usize
    requires { at + 64 ≤ length out.old }
    ensures { Puts (most_of shape) (shape_of shape (row_entry memory.now i.at) (value_at memory.now i.at) ∷ []) at
        out.old out.new result }
{
    match shape {
        Shape::Summary => {
            let number = rows::number_of(memory, i);
            put_summary(out, at, number, rows::entry_of(memory, i))
        }
        Shape::Whole => {
            let hops = rows::remaining_of(memory, i);
            put_row(memory, i, hops, out, at)
        }
    }
}

// One more for a used row.
fn put_used(memory: &Storage, i: RowIndex, shape: Shape, out: &mut [u8], to: Placed) -> Placed
    requires { (to.next + 64 ≤ length out.old) × (to.count < 4) }
    ensures { Adds (most_of shape) (used1 (shape_of shape) (row_in memory.now i.at) []) to out.old out.new result }
{
    if rows::is_used(memory, i) {
        let next = put_as(memory, i, shape, out, to.next);
        return Placed {
            count: to.count + 1,
            next,
        };
    }
    to
}

// The rows that were picked, the free ones left out.
pub fn picked(memory: &Storage, p: Picks, shape: Shape, out: &mut [u8], at: usize) -> Placed
    requires { at + (3 * most_of shape + 64) ≤ length out.old }
    ensures { Places (most_of shape) (rows_of (shape_of shape) (rows_in memory.now) (picks_of p)) at out.old
        out.new result }
{
    let mut to = Placed::none(at);
    for place in p.places() {
        to = put_used(memory, Index { at: *place % 64 }, shape, out, to);
    }
    to
}
