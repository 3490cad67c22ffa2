// The next rows to send: the used ones in row order, and those that wait for a slot, going round.
ghost use Rattle.std.specs.Prelude.{◌≡◌, ℕ, ◌-◌, ◌%◌, ◌<◌, ◌≤◌, Bool, length, drop, not, ◌==◌};
ghost use Rattle.std.specs.List.{list_any};
ghost use Rattle.rules.specs.Rows.{next, next_used, used_from, next_waiting};
ghost use Rattle.memory.specs.Memory.{rows_in};
ghost use Rattle.protocol.specs.declared.Index.{Index};

use crate::layout::ROWS;
use crate::rows::RowIndex;
use crate::{Storage, marks, rows};
use protocol::{Index, SlotIndex};

// At most four rows, of which count are meant; next is the place behind the last of them, or where the search began. An array and a count:
// there is no heap.
#[derive(Clone, Copy)]
pub struct Picks {
    pub count: usize,
    pub rows: [usize; 4],
    pub next: usize,
    pub ghost most: { count ≤ 4 },
}

// Whether a length from this place on is not 0.
fn some_after(lengths: &[u8], from: usize) -> bool
    ensures { result ≡ list_any (λ x. not (x == 0)) (drop from lengths.now) }
{
    lengths.iter().skip(from).any(|length| *length != 0)
}

// Whether a used row follows, row from on.
pub fn used_from(memory: &Storage, from: usize) -> bool
    ensures { result ≡ used_from (rows_in memory.now) from }
{
    some_after(rows::lengths(memory), from)
}

impl Picks {
    ghost use Rattle.memory.specs.Marks.{picks_of, Picked};

    // The rows that are meant.
    pub fn places(&self) -> &[usize]
        ensures { result.now ≡ picks_of self.now }
    {
        &self.rows[..self.count]
    }

    // The next four places whose row passes the test, from place from up to place to, or all if fewer; p is what it says of each place.
    fn passing<F: Fn(RowIndex) -> bool>(from: usize, to: usize, test: F) -> Self
        requires { F.IsAlwaysCallable test }
        ensures { (p : ℕ → Bool) → ((at : ℕ) (i : Index 64) (b : Bool) → at < to → i.at ≡ at % 64 → F.post test i b → b ≡ p at)
            → Picked from (next p (to - from) 4 from) result }
    {
        let mut rows = [0usize; 4];
        let mut count: usize = 0;
        let mut next = from;
        for at in from..to {
            if count == 4 {
                return Self { count, rows, next };
            }
            if test(Index { at: at % ROWS }) {
                rows[count] = at;
                count += 1;
                next = at + 1;
            }
        }
        Self { count, rows, next }
    }

    // The next four used rows from row from on, or all that are left.
    pub fn next_used(memory: &Storage, from: usize) -> Self
        ensures { Picked from (next_used (rows_in memory.now) from) result }
    {
        Self::passing(from, ROWS, |i| rows::is_used(memory, i))
    }

    // The next four rows that wait for slot k from row from on, going round, or all if fewer. Places are counted on past the last row: the row
    // of a place is its remainder by 64. Whether any row waits is asked of all marks at once first.
    pub fn next_waiting(memory: &Storage, k: SlotIndex, from: usize) -> Self
        requires { from ≤ 4294967295 }
        ensures { Picked from (next_waiting (rows_in memory.now) k.at from) result }
    {
        if marks::is_marked(marks::any_marks(memory), k) {
            return Self::passing(from, from + ROWS, |i| marks::waits(memory, i, k));
        }
        Self {
            count: 0,
            rows: [0; 4],
            next: from,
        }
    }
}
