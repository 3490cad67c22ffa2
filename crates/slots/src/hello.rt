// Document 01, 'Hello': the tests and moves of the Hello machine.
ghost use Rattle.std.specs.Prelude.{◌≡◌, ◌&&◌};
ghost use Rattle.rules.specs.Links as links;

use protocol::{Alignment, HelloState, Link};

pub fn is_down(h: HelloState) -> bool
    ensures { result ≡ links.is_down h }
{
    matches!(h, HelloState::Down)
}

// Whether a Hello of the peer was taken and still counts.
pub fn hears_peer(h: HelloState) -> bool
    ensures { result ≡ links.hears_peer h }
{
    matches!(h, HelloState::Unidirectional | HelloState::Bidirectional)
}

// Whether a Hello leaves the state: Bidirectional stays where our ID is named.
pub fn stays(h: HelloState, named: bool) -> bool
    ensures { result ≡ (links.is_bidirectional h && named) }
{
    matches!(h, HelloState::Bidirectional) && named
}

// ---- moves
// Entering Negotiate adds one to the CA number.
pub fn negotiating(l: Link) -> Link
    ensures { result ≡ links.negotiating l }
{
    Link {
        alignment: Alignment::Negotiate,
        number: numbers::next_ca(l.number),
        ..l
    }
}

fn to_bidirectional(l: Link) -> Link
    ensures { result ≡ links.to_bidirectional l }
{
    if matches!(l.hello, HelloState::Bidirectional) {
        return l;
    }
    negotiating(Link {
        hello: HelloState::Bidirectional,
        ..l
    })
}

// Out of Bidirectional the alignment is Down.
pub fn to_other(l: Link, h: HelloState) -> Link
    ensures { result ≡ links.to_other h l }
{
    Link {
        hello: h,
        alignment: Alignment::Down,
        ..l
    }
}

// A taken Hello. `named`: it has our ID among its receivers.
pub fn hello_move(l: Link, now: u32, interval: u16, factor: u16, named: bool) -> Link
    ensures { result ≡ links.hello_move now interval factor named l }
{
    let x = Link {
        heard: now,
        interval,
        factor,
        ..l
    };
    if named {
        to_bidirectional(x)
    } else {
        to_other(x, HelloState::Unidirectional)
    }
}
