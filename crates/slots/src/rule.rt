// Document 01, 'Alignment': the rule that a CA takes.
ghost use Rattle.std.specs.Prelude.{◌≡◌, Bool, List, ℕ};
ghost use Rattle.rules.specs.Links as links;
ghost use Rattle.slots.specs.State.{rule_of, ca_in};

use crate::alignment::CaRule;
use protocol::{Alignment, CaHead, CaNumber, Link, Role};

// M, I clear and this number.
fn from_slave(h: CaHead, n: CaNumber) -> bool
    ensures { result ≡ links.from_slave h n }
{
    !h.flags.master && !h.flags.initial && h.number == n
}

fn negotiate_rule(id: &[u8], h: CaHead, sender: &[u8], empty: bool, l: Link) -> CaRule
    ensures { rule_of result ≡ links.negotiate_rule id.now (ca_in h sender.now empty) l }
{
    let f = h.flags;
    if f.master && f.initial && f.more && empty && octets::greater(sender, id) {
        CaRule::BecomeSlave
    } else if octets::greater(id, sender) && from_slave(h, l.number) {
        CaRule::BecomeMaster
    } else {
        CaRule::Refuse
    }
}

fn slave_rule(h: CaHead, l: Link) -> CaRule
    ensures { (sender : List ℕ) (empty : Bool) → rule_of result ≡ links.slave_rule (ca_in h sender empty) l }
{
    if h == l.last {
        return CaRule::Repeat;
    }
    if h.flags.master && !h.flags.initial && h.number == numbers::next_ca(l.number) {
        return CaRule::SlaveOn;
    }
    CaRule::Restart
}

fn master_rule(h: CaHead, l: Link) -> CaRule
    ensures { (sender : List ℕ) (empty : Bool) → rule_of result ≡ links.master_rule (ca_in h sender empty) l }
{
    let next = CaHead {
        number: numbers::next_ca(h.number),
        ..h
    };
    if from_slave(h, l.number) {
        if h.flags.more || l.more {
            CaRule::MasterOn
        } else {
            CaRule::MasterDone
        }
    } else if from_slave(next, l.number) {
        CaRule::Ignore
    } else {
        CaRule::Restart
    }
}

// In Update or Aligned. `kept`: there is a kept CA.
fn past_rule(h: CaHead, kept: bool, l: Link) -> CaRule
    ensures { (sender : List ℕ) (empty : Bool) → rule_of result ≡ links.past_rule (ca_in h sender empty) kept l l.role }
{
    match l.role {
        Role::Master if from_slave(h, l.number) => CaRule::Ignore,
        Role::Slave if kept && h == l.last => CaRule::Repeat,
        _ => CaRule::Restart,
    }
}

// The rule that a CA takes in a slot of the server with this ID: a match on the states, as in `links.ca_rule`.
pub fn ca_rule(id: &[u8], h: CaHead, sender: &[u8], empty: bool, kept: bool, l: Link) -> CaRule
    ensures { rule_of result ≡ links.ca_rule id.now (ca_in h sender.now empty) kept l }
{
    match l.alignment {
        Alignment::Down => CaRule::Refuse,
        Alignment::Negotiate => negotiate_rule(id, h, sender, empty, l),
        Alignment::Summarize(Role::Master) => master_rule(h, l),
        Alignment::Summarize(Role::Slave) => slave_rule(h, l),
        Alignment::Update | Alignment::Aligned => past_rule(h, kept, l),
    }
}
