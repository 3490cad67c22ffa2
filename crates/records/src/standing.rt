// How an update record stands to the rows.
ghost use Rattle.std.specs.Prelude.{◌≡◌};
ghost use Rattle.laws.specs.Choice.{pick};
ghost use Rattle.protocol.specs.Numbers.{newer};
ghost use Rattle.laws.specs.Tables.{has};
ghost use Rattle.rules.specs.Server.{is_free, holds};
ghost use Rattle.rules.specs.Requests.{entry_of};
ghost use Rattle.memory.specs.Search.{place_found, first_from};
ghost use Rattle.rules.specs.Rows as rules;
ghost use Rattle.rules.specs.Updates.{purge_absent, stored, full, equal, older, update_rule};
ghost use Rattle.memory.specs.Memory.{rows_in};
ghost use Rattle.protocol.specs.Messages.{CsaRecord};
ghost use Rattle.records.specs.Walks.{update_rule_of};

use memory::rows::RowIndex;
use memory::{Storage, rows, store};
use protocol::CsaNumber;

// The rule that an update record takes. `update_rule_of` gives the definition of each.
#[derive(Clone, Copy, PartialEq, Eq)]
pub enum UpdateRule {
    Null,
    PurgeAbsent,
    Full,
    Stored,
    Equal,
    Older,
}

// Of an entry that no row holds.
fn absent_rule(memory: &Storage, number: CsaNumber) -> UpdateRule
    ensures { update_rule_of result ≡ pick (rules.is_purged number) purge_absent (pick (has is_free (rows_in memory.now)) stored full) }
{
    if store::is_purged(number) {
        return UpdateRule::PurgeAbsent;
    }
    if rows::has_free(memory) {
        return UpdateRule::Stored;
    }
    UpdateRule::Full
}

// Of an entry that a row holds with this number.
fn held_rule(number: CsaNumber, held: CsaNumber) -> UpdateRule
    ensures { update_rule_of result ≡ pick (newer number held) stored (pick (newer held number) older equal) }
{
    if numbers::newer(number, held) {
        return UpdateRule::Stored;
    }
    if numbers::newer(held, number) {
        return UpdateRule::Older;
    }
    UpdateRule::Equal
}

// The rule that an update record takes, by the row that was found for its entry.
pub fn update_rule(
    memory: &Storage,
    null: bool,
    number: CsaNumber,
    found: Option<RowIndex>,
) -> UpdateRule
    ensures { (v : CsaRecord) → null ≡ v.null → number ≡ v.number → place_found found
        ≡ first_from (holds (entry_of v)) 0 (rows_in memory.now)
        → update_rule_of result ≡ update_rule v (rows_in memory.now) }
{
    if null {
        return UpdateRule::Null;
    }
    match found {
        Some(i) => held_rule(number, rows::number_of(memory, i)),
        None => absent_rule(memory, number),
    }
}
