// The causes for which a call refuses a file, or an output that is too short.

#![tactic(auto)]

ghost use Rattle.std.specs.Prelude.{◌≡◌};

// Why a call refuses, in the order of the numbers 1 to 13.
#[derive(Clone, Copy, Debug, PartialEq, Eq, Hash)]
pub enum Refusal {
    TooShort,
    KindUnknown,
    OverLimit,
    WrongLength,
    BadEvent,
    BadThreads,
    BadChains,
    BadLink,
    CoRing,
    Unpaired,
    OtherSide,
    NoRoom,
    LongThread,
}

impl Refusal {
    ghost use Rattle.refusal.specs.Refusal.{number};

    // The number by which it is answered and printed.
    pub fn number(self) -> u8
        ensures { result ≡ number self }
    {
        match self {
            Refusal::TooShort => 1,
            Refusal::KindUnknown => 2,
            Refusal::OverLimit => 3,
            Refusal::WrongLength => 4,
            Refusal::BadEvent => 5,
            Refusal::BadThreads => 6,
            Refusal::BadChains => 7,
            Refusal::BadLink => 8,
            Refusal::CoRing => 9,
            Refusal::Unpaired => 10,
            Refusal::OtherSide => 11,
            Refusal::NoRoom => 12,
            Refusal::LongThread => 13,
        }
    }
}

ghost use Rattle.refusal.specs.Refusal.{number_of};

// The number of the refusal that an answer is, and 0 of one that is none.
pub fn number_of<T>(answer: &Result<T, Refusal>) -> u8
    ensures { result ≡ number_of answer.now }
{
    match answer {
        Ok(_) => 0,
        Err(refusal) => refusal.number(),
    }
}
