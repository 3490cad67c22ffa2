// Document 01, 'Updates': the records of a CSU Request.
ghost use Rattle.std.specs.Prelude.{◌≡◌, [], map, ◌+◌, ◌≤◌, ◌<◌, length};
ghost use Rattle.protocol.specs.Messages.{summary_of};
ghost use Rattle.rules.specs.Server.{holds};
ghost use Rattle.rules.specs.Requests.{entry_of};
ghost use Rattle.rules.specs.Updates as rules;
ghost use Rattle.memory.specs.Memory.{is_marked, rows_in, memory_of, requests_put, requests_of};
ghost use Rattle.memory.specs.Search.{place_found, first_from};
ghost use Rattle.memory.specs.Entries.{rows_as};
ghost use Rattle.records.specs.Walks.{update_rule_of, updated_now, UpdatesOne, Updates, UpdatesAll};
ghost use Rattle.records.specs.Views.{record_shown, records_left};
ghost use Rattle.records.specs.Places.{Adds, Places, reply_of};

use crate::packet::Records;
use crate::put::Placed;
use crate::standing;
use crate::standing::UpdateRule;
use crate::summaries::put_summary;
use crate::view::RecordView;
use memory::rows::RowIndex;
use memory::{Storage, entries, requests, rows};
use protocol::SlotIndex;

// What a record from slot k does to the rows, by its rule: a match, as `update_rule_of` has the cases.
fn rows_by(
    memory: &mut Storage,
    rule: UpdateRule,
    found: Option<RowIndex>,
    live: u8,
    k: SlotIndex,
    v: RecordView,
)
    requires { place_found found ≡ first_from (holds (entry_of (record_shown v))) 0 (rows_in memory.old) }
    ensures { memory_of memory.new ≡ rows_as (rules.rows_by (update_rule_of rule) (is_marked live) k.at (record_shown v.entry))
        memory.old }
{
    match rule {
        UpdateRule::Null | UpdateRule::PurgeAbsent | UpdateRule::Full => {}
        UpdateRule::Stored => entries::store_record(
            memory, found, live, k, v.name, v.number, v.payload, v.hops,
        ),
        UpdateRule::Equal => entries::equal_record(memory, k, found),
        UpdateRule::Older => entries::older_record(memory, k, found),
    }
}

// What a record does to slot k's requests.
fn requests_by(memory: &mut Storage, rule: UpdateRule, k: SlotIndex, v: RecordView)
    ensures { memory_of memory.new ≡ requests_put k.at (rules.requests_by (update_rule_of rule) (record_shown v.entry)
        (requests_of (memory_of memory.old) k.at)) (memory_of memory.old) }
{
    match rule {
        UpdateRule::Null => requests::drop_entry(memory, k, v.name),
        UpdateRule::Full => {}
        UpdateRule::PurgeAbsent | UpdateRule::Stored | UpdateRule::Equal | UpdateRule::Older => {
            requests::acknowledge(memory, k, v.name, v.number)
        }
    }
}

// A record from slot k: the rule that it took.
fn apply_record(memory: &mut Storage, live: u8, k: SlotIndex, v: RecordView) -> UpdateRule
    ensures { UpdatesOne (is_marked live) k.at (record_shown v.entry) memory.old memory.new (update_rule_of result) }
{
    let found = rows::find(memory, v.name.octets);
    let rule = standing::update_rule(memory, v.null, v.number, found);
    rows_by(memory, rule, found, live, k, v);
    requests_by(memory, rule, k, v);
    rule
}

fn is_acknowledged(rule: UpdateRule) -> bool
    ensures { result ≡ rules.is_acknowledged (update_rule_of rule) }
{
    !matches!(rule, UpdateRule::Full)
}

// One summary more for a record that is acknowledged.
fn reply_by(rule: UpdateRule, v: RecordView, out: &mut [u8], to: Placed) -> Placed
    requires { (to.next + 64 ≤ length out.old) × (to.count < 4) }
    ensures { Adds 32 (reply_of (update_rule_of rule) (record_shown v.entry)) to out.old out.new result }
{
    if is_acknowledged(rule) {
        let next = put_summary(out, to.next, v.number, v.name.octets);
        return Placed {
            count: to.count + 1,
            next,
        };
    }
    to
}

// A record from slot k, and its summary if it is acknowledged.
fn update_one(
    memory: &mut Storage,
    live: u8,
    k: SlotIndex,
    v: RecordView,
    out: &mut [u8],
    to: Placed,
) -> Placed
    requires { (to.next + 64 ≤ length out.old) × (to.count < 4) }
    ensures { Updates (is_marked live) k.at (record_shown v.entry) memory.old memory.new out.old
        out.new to result }
{
    let rule = apply_record(memory, live, k, v);
    reply_by(rule, v, out, to)
}

// The records in order; the summaries of those that are acknowledged go from octet 28 on.
pub fn update_all(
    memory: &mut Storage,
    live: u8,
    k: SlotIndex,
    records: Records,
    out: &mut [u8],
) -> Placed
    requires { 284 ≤ length out.old }
    ensures updates_all { UpdatesAll (is_marked live) k.at (records_left records.entry) memory.old memory.new }
    ensures replies { Places 32 (map summary_of (rules.all_updated (is_marked live) k.at (records_left records.entry)
        (updated_now k.at [] memory.old)).replies) 28 out.old out.new result × (result.count ≤ 4) }
{
    let mut to = Placed::none(28);
    for v in records {
        to = update_one(memory, live, k, v, out, to);
    }
    to
}
