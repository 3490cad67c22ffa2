// Document 01, 'Updates': set, withdraw and purge, changes of our own entries.
ghost use Rattle.std.specs.Prelude.{◌≡◌, ◌&&◌, List, true, ℕ, ltb, leb, length, take, IfOk};
ghost use Rattle.protocol.specs.Numbers.{spent};
ghost use Rattle.rules.specs.Refusals.{own_entry};
ghost use Rattle.memory.specs.Search.{place_found, FitsKey, first_from};
ghost use Rattle.slots.specs.State.{settings_of};
ghost use Rattle.rules.specs.Events as events;
ghost use Rattle.rules.specs.Refusals as rules;
ghost use Rattle.memory.specs.Memory.{entry_named, rows_in};
ghost use Rattle.slots.specs.Codes.{code_number};
ghost use Rattle.server.specs.State.{server_of, Steps, answer_of};
ghost use Rattle.rules.specs.Server.{holds};
ghost use Rattle.slots.specs.declared.state.Server as declared;
ghost use Rattle.server.specs.Events.{own_code, IsOwn};
ghost use Rattle.slots.specs.declared.state.Slot.{Slot};

use crate::ends;
use memory::names::{EntryName, Name};
use memory::rows::RowIndex;
use memory::store::Payload;
use memory::{Storage, entries, names, rows, store};
use protocol::CsaNumber;
use slots::answers::Failure;
use slots::state::Server;
use table::Slots;

// No number comes after it.
fn is_spent(n: CsaNumber) -> bool
    ensures { result ≡ spent n }
{
    numbers::next_csa(n).is_none()
}

// The name of our entry with this key.
fn own_name(s: Server, key: &[u8]) -> Name
    requires { FitsKey key.now s.settings.id }
    ensures { entry_named (take result.len result.octets) ≡ own_entry (settings_of s.settings) key.now }
{
    names::of_entry(key, &s.settings.id)
}

// Whether a key or a payload of ours has an octet and no more than these.
fn fits(octets: &[u8], most: usize) -> bool
    ensures { result ≡ (ltb 0 (length octets.now) && leb (length octets.now) most) }
{
    (1..=most).contains(&octets.len())
}

// ---- set
// By the row of the entry, if it has one.
fn set_code(memory: &Storage, found: Option<RowIndex>) -> Result<(), Failure>
    ensures { (s : declared.Server) (slots : List Slot) (key payload : List ℕ) → rules.own_key_good key ≡ true → rules.own_payload_good payload
        ≡ true → place_found found
        ≡ first_from (holds (own_entry (settings_of s.settings) key)) 0 (rows_in memory.now) → code_number result
        ≡ rules.set_code (server_of s slots memory.now) key payload }
{
    match found {
        Some(i) => {
            if is_spent(rows::number_of(memory, i)) {
                return Err(Failure::NumberSpent);
            }
        }
        None => {
            if !rows::has_free(memory) {
                return Err(Failure::NoFreeRow);
            }
        }
    }
    Ok(())
}

// By the name of the entry: its key is good, and the payload too.
fn set_named(
    s: Server,
    slots: &Slots,
    memory: &mut Storage,
    name: EntryName,
    payload: Payload,
) -> Result<(Server, usize), Failure>
    ensures { (key : List ℕ) → rules.own_key_good key ≡ true → rules.own_payload_good payload.entry.octets.now ≡ true
        → entry_named name.entry.octets.now ≡ own_entry (settings_of s.settings) key
        → Steps (events.set key payload.entry.octets.now) s slots.now slots.now memory.old memory.new (answer_of s result) }
{
    let found = rows::find(memory, name.octets);
    set_code(memory, found)?;
    entries::set_entry(memory, found, ends::live_of(slots), name, payload);
    store::sweep(memory);
    Ok((s, 0))
}

pub fn set(
    s: Server,
    slots: &Slots,
    memory: &mut Storage,
    key: &[u8],
    payload: &[u8],
) -> Result<(Server, usize), Failure>
    ensures { Steps (events.set key.now payload.now) s slots.now slots.now memory.old memory.new (answer_of s result) }
{
    if !fits(key, 16) || !fits(payload, 32) {
        return Err(Failure::Size);
    }
    let name = own_name(s, key);
    set_named(
        s,
        slots,
        memory,
        name.as_entry(),
        Payload { octets: payload },
    )
}

// ---- withdraw and purge
// The row of our entry with this key.
fn own_row(s: Server, memory: &Storage, key: &[u8]) -> Result<RowIndex, Failure>
    ensures code { code_number result ≡ own_code (settings_of s.settings) key.now (rows_in memory.now) }
    ensures row { IfOk result (λ i. IsOwn (settings_of s.settings) key.now memory.now i.at) }
{
    if !fits(key, 16) {
        return Err(Failure::Size);
    }
    let name = own_name(s, key);
    rows::find(memory, name.as_entry().octets).ok_or(Failure::NoEntry)
}

// Its row, if it may be withdrawn.
fn withdraw_row(s: Server, memory: &Storage, key: &[u8]) -> Result<RowIndex, Failure>
    ensures code { (slots : List Slot) → code_number result ≡ rules.withdraw_code (server_of s slots memory.now) key.now }
    ensures row { IfOk result (λ i. IsOwn (settings_of s.settings) key.now memory.now i.at) }
{
    let i = own_row(s, memory, key)?;
    if rows::payload_of(memory, i).is_empty() {
        return Err(Failure::NoEntry);
    }
    if is_spent(rows::number_of(memory, i)) {
        return Err(Failure::NumberSpent);
    }
    Ok(i)
}

pub fn withdraw(
    s: Server,
    slots: &Slots,
    memory: &mut Storage,
    key: &[u8],
) -> Result<(Server, usize), Failure>
    ensures { Steps (events.withdraw key.now) s slots.now slots.now memory.old memory.new (answer_of s result) }
{
    let i = withdraw_row(s, memory, key)?;
    entries::withdraw_entry(memory, ends::live_of(slots), Some(i));
    store::sweep(memory);
    Ok((s, 0))
}

// Its row, if it may be purged. Beside `withdraw_row`, other tests by other rules: what both do is `own_row`.
fn purge_row(s: Server, memory: &Storage, key: &[u8]) -> Result<RowIndex, Failure>
    ensures code { (slots : List Slot) → code_number result ≡ rules.purge_code (server_of s slots memory.now) key.now }
    ensures row { IfOk result (λ i. IsOwn (settings_of s.settings) key.now memory.now i.at) }
{
    let i = own_row(s, memory, key)?;
    if store::is_purged(rows::number_of(memory, i)) {
        return Err(Failure::NumberSpent);
    }
    Ok(i)
}

// Beside `withdraw`, another event of the rules: with closures for the test and the change, which alone differ, neither is plainer.
pub fn purge(
    s: Server,
    slots: &Slots,
    memory: &mut Storage,
    key: &[u8],
) -> Result<(Server, usize), Failure>
    ensures { Steps (events.purge key.now) s slots.now slots.now memory.old memory.new (answer_of s result) }
{
    let i = purge_row(s, memory, key)?;
    entries::purge_entry(memory, ends::live_of(slots), Some(i));
    store::sweep(memory);
    Ok((s, 0))
}
