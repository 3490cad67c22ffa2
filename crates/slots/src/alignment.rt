// Document 01, 'Alignment': the tests and moves of the alignment machine.
ghost use Rattle.std.specs.Prelude.{◌≡◌, Bool, ◌||◌, List, ℕ};
ghost use Rattle.laws.specs.Choice.{pick};
ghost use Rattle.protocol.specs.declared.Role.TheVariants.{Slave};
ghost use Rattle.protocol.specs.declared.Alignment.TheVariants.{Summarize, Update};
ghost use Rattle.rules.specs.Links as links;
ghost use Rattle.rules.specs.Slots as rules;
ghost use Rattle.slots.specs.State.{rule_of, ca_in};

use crate::hello;
use protocol::{Alignment, CaHead, Link, Role};

// The rule that a CA takes. `rule_of` gives the definition of each.
#[derive(Clone, Copy, PartialEq, Eq)]
pub enum CaRule {
    Refuse,
    BecomeSlave,
    BecomeMaster,
    Repeat,
    SlaveOn,
    MasterOn,
    MasterDone,
    Ignore,
    Restart,
}

// ---- tests of a state
// Summarize counts: the peer is not aligned yet, but changes are put to it.
pub fn is_live(a: Alignment) -> bool
    ensures { result ≡ links.is_live a }
{
    matches!(
        a,
        Alignment::Summarize(_) | Alignment::Update | Alignment::Aligned
    )
}

pub fn is_past(a: Alignment) -> bool
    ensures { result ≡ links.is_past a }
{
    matches!(a, Alignment::Update | Alignment::Aligned)
}

// Whether a move from a to b enters Down or Negotiate.
pub fn enters(a: Alignment, b: Alignment) -> bool
    ensures { result ≡ links.enters a b }
{
    match b {
        Alignment::Down => !matches!(a, Alignment::Down),
        Alignment::Negotiate => !matches!(a, Alignment::Negotiate),
        _ => false,
    }
}

// Update with an empty request list becomes Aligned.
pub fn completed(none: bool, a: Alignment) -> Alignment
    ensures { result ≡ rules.aligned_if none a }
{
    match a {
        Alignment::Update if none => Alignment::Aligned,
        _ => a,
    }
}

// ---- the link after it
fn slave_state(h: CaHead, more: bool) -> Alignment
    ensures { result ≡ pick (h.flags.more || more) (Summarize Slave) Update }
{
    if h.flags.more || more {
        Alignment::Summarize(Role::Slave)
    } else {
        Alignment::Update
    }
}

fn as_slave(l: Link, h: CaHead, alignment: Alignment, more: bool) -> Link
    ensures { result ≡ links.aligned alignment Slave h.number h more l }
{
    Link {
        alignment,
        role: Role::Slave,
        number: h.number,
        last: h,
        more,
        ..l
    }
}

// After a CA was taken, by the rule that it takes: a match, as in `links.ca_move`. `more`: the O bit of our answer.
pub fn ca_move(rule: CaRule, h: CaHead, more: bool, l: Link) -> Link
    ensures { (sender : List ℕ) (empty : Bool) → result ≡ links.ca_move (rule_of rule) (ca_in h sender empty) more l }
{
    match rule {
        CaRule::Refuse | CaRule::Repeat | CaRule::Ignore => l,
        CaRule::BecomeSlave => as_slave(l, h, Alignment::Summarize(Role::Slave), more),
        CaRule::SlaveOn => as_slave(l, h, slave_state(h, more), more),
        CaRule::BecomeMaster | CaRule::MasterOn => Link {
            alignment: Alignment::Summarize(Role::Master),
            role: Role::Master,
            number: numbers::next_ca(l.number),
            last: h,
            more,
            ..l
        },
        CaRule::MasterDone => Link {
            alignment: Alignment::Update,
            role: Role::Master,
            last: h,
            ..l
        },
        CaRule::Restart => hello::negotiating(l),
    }
}
