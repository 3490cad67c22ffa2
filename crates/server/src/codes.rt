// Codes 11 to 14, of a message.
ghost use Rattle.std.specs.Prelude.{◌≡◌, not, ◌&&◌, List, eqb, ℕ, true, false};
ghost use Rattle.laws.specs.Tables.{same};
ghost use Rattle.rules.specs.Server as server;
ghost use Rattle.rules.specs.Refusals as rules;
ghost use Rattle.wire.specs.Views.{message_of};
ghost use Rattle.slots.specs.Codes.{code_number};
ghost use Rattle.slots.specs.State.{settings_of, rule_of};
ghost use Rattle.server.specs.Events.{is_ca_kind};

use protocol::{Alignment, Kind};
use slots::alignment::CaRule;
use slots::answers::Failure;
use slots::state::Settings;
use wire::read;
use wire::read::Head;

fn is_hello(h: Head) -> bool
    ensures { (p : List ℕ) → result ≡ rules.is_hello (message_of p h).body }
{
    h.kind == Kind::Hello
}

fn in_group(s: Settings, h: Head) -> bool
    ensures { result ≡ (eqb h.protocol s.protocol && eqb h.group s.group) }
{
    h.protocol == s.protocol && h.group == s.group
}

// Whether the packet is for somebody else.
fn is_for_other(id: &[u8], p: &[u8], h: Head) -> bool
    ensures { result ≡ (not (rules.is_hello (message_of p.now h).body)
        && not (same (message_of p.now h).receiver id.now)) }
{
    !is_hello(h) && !octets::same(read::receiver(p, h), id)
}

pub fn is_refuse(rule: CaRule) -> bool
    ensures { result ≡ rules.is_refused (rule_of rule) }
{
    matches!(rule, CaRule::Refuse)
}

// Whether a packet that is no CA is not usable in this state.
pub fn unusable(h: Head, a: Alignment) -> bool
    ensures { (s : server.Settings) (p : List ℕ) (x : server.Slot) → is_ca_kind h.kind ≡ false → x.link.alignment ≡ a
        → result ≡ rules.unusable s (message_of p h) x (message_of p h).body }
{
    match h.kind {
        Kind::Ca | Kind::Hello => false,
        Kind::CsuRequest | Kind::CsuReply | Kind::Csus => !slots::alignment::is_past(a),
    }
}

// `unusable`: the type is not usable in the slot's state.
pub fn message_code(
    s: Settings,
    p: &[u8],
    h: Head,
    peer: [u8; 4],
    unusable: bool,
) -> Result<(), Failure>
    ensures { (x : server.Slot) → x.peer ≡ peer → unusable ≡ rules.unusable (settings_of s) (message_of p.now h) x
        (message_of p.now h).body → code_number result ≡ rules.message_code (settings_of s) x (message_of p.now h) }
{
    if !in_group(s, h) {
        return Err(Failure::Group);
    }
    if is_for_other(&s.id, p, h) {
        return Err(Failure::Receiver);
    }
    if !octets::same(read::sender(p, h), &peer) {
        return Err(Failure::Sender);
    }
    if unusable {
        return Err(Failure::State);
    }
    Ok(())
}
