// What a host may ask of a server and its memory. A slot above 7 is as one with no peer, a row above 63 as a free one.
ghost use Rattle.std.specs.Prelude.{◌≡◌, List, ℕ, length, is_some, IfSome};
ghost use Rattle.rules.specs.Server as rules;
ghost use Rattle.rules.specs.Server.{is_used, waits_for, row_at};
ghost use Rattle.memory.specs.Memory.{rows_in};
ghost use Rattle.slots.specs.State.{slot_of};
ghost use Rattle.slots.specs.declared.state.Server as declared;
ghost use Rattle.server.specs.State.{server_of};
ghost use Rattle.server.specs.Queries.{entry_shown, value_shown, report_of, reported};
ghost use Rattle.slots.specs.declared.state.Slot.{Slot};

use memory::rows::RowIndex;
use memory::{Storage, marks, requests, rows};
use protocol::{Alignment, CsaNumber, HelloState, Index, Role};
use slots::answers::Failure;
use slots::state;
use slots::state::Slot;
use table::Slots;

// ---- a slot
fn slot_of(slots: &Slots, slot: usize) -> Slot
    ensures { (s : declared.Server) (memory : List ℕ) → slot_of result (rules.slot_at (server_of s slots.now memory) slot).requests
        (rules.slot_at (server_of s slots.now memory) slot).kept ≡ rules.slot_at (server_of s slots.now memory) slot }
{
    match Index::new(slot) {
        Some(k) => table::slot_at(slots, k),
        None => state::fresh_slot(),
    }
}

// A function for each thing that a host may ask: its contract names that part of the server.
pub fn hello_of(slots: &Slots, slot: usize) -> HelloState
    ensures { (s : declared.Server) (memory : List ℕ) → result ≡ (rules.slot_at (server_of s slots.now memory) slot).link.hello }
{
    slot_of(slots, slot).link.hello
}

pub fn alignment_of(slots: &Slots, slot: usize) -> Alignment
    ensures { (s : declared.Server) (memory : List ℕ) → result ≡ (rules.slot_at (server_of s slots.now memory) slot).link.alignment }
{
    slot_of(slots, slot).link.alignment
}

// How many wanted entries found no room in the slot's request list.
pub fn missed_of(slots: &Slots, slot: usize) -> u16
    ensures { (s : declared.Server) (memory : List ℕ) → result ≡ (rules.slot_at (server_of s slots.now memory) slot).missed }
{
    slot_of(slots, slot).missed
}

// The state of a slot, and beside it how many update requests were written at polls since it last entered Negotiate, up to 65535, and how many
// wanted entries found no room (document 02, L1).
#[derive(Clone, Copy)]
pub struct SlotState {
    pub hello: HelloState,
    pub alignment: Alignment,
    pub role: Role,
    pub updates: u16,
    pub missed: u16,
}

pub fn status_of(slots: &Slots, slot: usize) -> Result<SlotState, Failure>
    ensures { (s : declared.Server) (memory : List ℕ) → reported result ≡ report_of (server_of s slots.now memory) slot }
{
    let x = slot_of(slots, slot);
    if !x.used {
        return Err(Failure::NoPeer);
    }
    Ok(SlotState {
        hello: x.link.hello,
        alignment: x.link.alignment,
        role: x.link.role,
        updates: x.updates,
        missed: x.missed,
    })
}

// How many requests the slot holds.
pub fn requests_of(memory: &Storage, slot: usize) -> usize
    ensures { (s : declared.Server) (slots : List Slot) → result ≡ length (rules.slot_at (server_of s slots memory.now) slot).requests }
{
    match Index::new(slot) {
        Some(k) => requests::count(memory, k),
        None => 0,
    }
}

// ---- the rows
// How many rows are in use.
pub fn rows_used(memory: &Storage) -> usize
    ensures { result ≡ rules.rows_used (rows_in memory.now) }
{
    rows::rows_used(memory)
}

// The index of a row that is in use.
fn used_row(memory: &Storage, row: usize) -> Option<RowIndex>
    ensures used { is_some result ≡ is_used (row_at (rows_in memory.now) row) }
    ensures index { IfSome result (λ i. i.at ≡ row) }
{
    match Index::new(row) {
        Some(i) if rows::is_used(memory, i) => Some(i),
        _ => None,
    }
}

pub fn is_used(memory: &Storage, row: usize) -> bool
    ensures { result ≡ is_used (row_at (rows_in memory.now) row) }
{
    used_row(memory, row).is_some()
}

pub fn key_of(memory: &Storage, row: usize) -> &[u8]
    ensures { result.now ≡ (entry_shown (row_at (rows_in memory.now) row)).key }
{
    used_row(memory, row).map_or(&[], |i| rows::key_of(memory, i))
}

pub fn originator_of(memory: &Storage, row: usize) -> &[u8]
    ensures { result.now ≡ (entry_shown (row_at (rows_in memory.now) row)).originator }
{
    used_row(memory, row).map_or(&[], |i| rows::originator_of(memory, i))
}

pub fn number_of(memory: &Storage, row: usize) -> CsaNumber
    ensures { result ≡ (value_shown (row_at (rows_in memory.now) row)).number }
{
    used_row(memory, row).map_or(CsaNumber(0), |i| rows::number_of(memory, i))
}

pub fn payload_of(memory: &Storage, row: usize) -> &[u8]
    ensures { result.now ≡ (value_shown (row_at (rows_in memory.now) row)).payload }
{
    used_row(memory, row).map_or(&[], |i| rows::payload_of(memory, i))
}

pub fn remaining_of(memory: &Storage, row: usize) -> u16
    ensures { result ≡ (value_shown (row_at (rows_in memory.now) row)).remaining }
{
    used_row(memory, row).map_or(0, |i| rows::remaining_of(memory, i))
}

// Whether the row waits for the slot.
pub fn waits(memory: &Storage, row: usize, slot: usize) -> bool
    ensures { result ≡ waits_for slot (row_at (rows_in memory.now) row) }
{
    let Some(i) = Index::new(row) else {
        return false;
    };
    let Some(k) = Index::new(slot) else {
        return false;
    };
    marks::waits(memory, i, k)
}
