// The types that code and definitions share. Their meaning is in specs/.
#![tactic(auto)]

ghost use Rattle.std.specs.Prelude.{◌≡◌, ◌<◌, ◌≤◌, ◌&&◌, true, leb, if◌then◌else◌, is_some, IfSome, Ok, Err};
ghost use Rattle.protocol.specs.Layouts.{type_of};
ghost use Rattle.protocol.specs.Reading.{kind_of};

// An index below N: of a peer slot, of a row, of a request in its list.
#[derive(Clone, Copy, PartialEq, Eq)]
pub struct Index<const N: usize> {
    pub at: usize,
    pub ghost below: { at < N },
}

// The index of a peer slot.
pub type SlotIndex = Index<8>;

impl<const N: usize> Index<N> {
    // The index with this number, if it is one.
    pub fn new(at: usize) -> Option<Self>
        ensures some { at < N → is_some result ≡ true }
        ensures is { IfSome result (λ i. i.at ≡ at) }
        ensures none { N ≤ at → result ≡ None }
    {
        if at < N {
            return Some(Index { at });
        }
        None
    }
}

// A CA sequence number: unsigned, counted apart from CSA numbers (document 01, 'Packet layouts').
#[derive(Clone, Copy, PartialEq, Eq)]
pub struct CaNumber(pub u32);

// A CSA sequence number: signed, -2147483648 reserved (document 01, 'Packet layouts').
#[derive(Clone, Copy, PartialEq, Eq, PartialOrd, Ord)]
pub struct CsaNumber(pub i32);

// The five types of packet. `type_of` gives the number of each.
#[derive(Clone, Copy, PartialEq, Eq)]
pub enum Kind {
    Ca,
    CsuRequest,
    CsuReply,
    Csus,
    Hello,
}

impl From<Kind> for u8 {
    ghost from_gives = { λ k n. n ≡ type_of k };

    fn from(k: Kind) -> u8 {
        match k {
            Kind::Ca => 1,
            Kind::CsuRequest => 2,
            Kind::CsuReply => 3,
            Kind::Csus => 4,
            Kind::Hello => 5,
        }
    }
}

// A type octet that no kind has.
#[derive(Clone, Copy, PartialEq, Eq)]
pub struct UnknownType(pub u8);

impl TryFrom<u8> for Kind {
    type Error = UnknownType;

    ghost try_from_gives = { λ t r. r ≡ (if leb 1 t && leb t 5 then Ok (kind_of t) else Err (record { 0 = t })) };

    fn try_from(t: u8) -> Result<Self, UnknownType> {
        match t {
            1 => Ok(Kind::Ca),
            2 => Ok(Kind::CsuRequest),
            3 => Ok(Kind::CsuReply),
            4 => Ok(Kind::Csus),
            5 => Ok(Kind::Hello),
            _ => Err(UnknownType(t)),
        }
    }
}

// The M, I and O bits of a CA.
#[derive(Clone, Copy, PartialEq, Eq)]
pub struct CaFlags {
    pub master: bool,
    pub initial: bool,
    pub more: bool,
}

// The side of a peer in an alignment.
#[derive(Clone, Copy, PartialEq, Eq)]
pub enum Role {
    Master,
    Slave,
}

// The states of the Hello machine (document 01, 'Hello').
#[derive(Clone, Copy, PartialEq, Eq)]
pub enum HelloState {
    Down,
    Waiting,
    Unidirectional,
    Bidirectional,
}

// The states of the alignment machine (document 01, 'Alignment').
#[derive(Clone, Copy, PartialEq, Eq)]
pub enum Alignment {
    Down,
    Negotiate,
    Summarize(Role),
    Update,
    Aligned,
}

// The sequence number and the flags of a CA.
#[derive(Clone, Copy, PartialEq, Eq)]
pub struct CaHead {
    pub number: CaNumber,
    pub flags: CaFlags,
}

// The Hello and the alignment machine of a slot, with what their moves go by: the last Hello taken, the CA number, the
// last CA taken, and whether our last CA said that more follows.
#[derive(Clone, Copy, PartialEq, Eq)]
pub struct Link {
    pub hello: HelloState,
    pub heard: u32,
    pub interval: u16,
    pub factor: u16,
    pub alignment: Alignment,
    pub role: Role,
    pub number: CaNumber,
    pub last: CaHead,
    pub more: bool,
}

// When each kind of packet was last sent to a slot, if it was: a Hello since link up, the others since Negotiate began.
#[derive(Clone, Copy, PartialEq, Eq)]
pub struct Timers {
    pub hello: Option<u32>,
    pub ca: Option<u32>,
    pub csus: Option<u32>,
    pub update: Option<u32>,
}
