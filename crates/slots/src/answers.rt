// Document 01, 'Answers to an event': what an event is answered.
ghost use Rattle.std.specs.Prelude.{◌≡◌};
ghost use Rattle.slots.specs.Codes.{failure_number, code_number};

// Why an event is refused. `failure_number` gives the paper's number of each.
#[derive(Clone, Copy, PartialEq, Eq)]
pub enum Failure {
    NoPeer,
    TimeBefore,
    ShortOut,
    LinkDown,
    Length,
    Version,
    Type,
    Checksum,
    Extensions,
    Malformed,
    Group,
    Receiver,
    Sender,
    State,
    NoFreeRow,
    NumberSpent,
    Size,
    NoEntry,
}

impl From<Failure> for u8 {
    ghost from_gives = { λ f n. n ≡ failure_number f };

    fn from(f: Failure) -> u8 {
        match f {
            Failure::NoPeer => 1,
            Failure::TimeBefore => 2,
            Failure::ShortOut => 3,
            Failure::LinkDown => 4,
            Failure::Length => 5,
            Failure::Version => 6,
            Failure::Type => 7,
            Failure::Checksum => 8,
            Failure::Extensions => 9,
            Failure::Malformed => 10,
            Failure::Group => 11,
            Failure::Receiver => 12,
            Failure::Sender => 13,
            Failure::State => 14,
            Failure::NoFreeRow => 15,
            Failure::NumberSpent => 16,
            Failure::Size => 17,
            Failure::NoEntry => 18,
        }
    }
}

// The code of an answer, as the table has it.
pub fn code(outcome: Result<usize, Failure>) -> u8
    ensures { result ≡ code_number outcome }
{
    match outcome {
        Ok(_) => 0,
        Err(f) => f.into(),
    }
}
