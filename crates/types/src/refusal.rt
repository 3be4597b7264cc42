// The refusals (document 01, "Who causes which number"; document 02, §3). Those from 100 on are the C interface's own (docs/FORMAT.md, "Refusals").
ghost use Rattle.std.specs.Prelude.{◌≡◌};
ghost use Rattle.types.specs.Refusal.{number_of};

// Why a call gives no value.
#[derive(Clone, Copy, PartialEq, Eq)]
pub enum Refusal {
    EndsEarly,
    Inputs,
    SpareBit,
    Number,
    Kind,
    BytesLeft,
    Gate,
    RowList,
    Unsound,
    Budget,
    Cap,
    Room,
    Ended,
    Row,
    ReportInput,
    Care,
    OtherKind,
    Digits,
    Digit,
    Words,
    Numbers,
    NotFound,
}

impl Refusal {
    // Returns the number of a refusal.
    pub fn number(self) -> u8
        ensures { result ≡ number_of self }
    {
        match self {
            Refusal::EndsEarly => 1,
            Refusal::Inputs => 2,
            Refusal::SpareBit => 3,
            Refusal::Number => 4,
            Refusal::Kind => 5,
            Refusal::BytesLeft => 6,
            Refusal::Gate => 7,
            Refusal::RowList => 8,
            Refusal::Unsound => 9,
            Refusal::Budget => 10,
            Refusal::Cap => 11,
            Refusal::Room => 12,
            Refusal::Ended => 13,
            Refusal::Row => 14,
            Refusal::ReportInput => 15,
            Refusal::Care => 16,
            Refusal::OtherKind => 100,
            Refusal::Digits => 101,
            Refusal::Digit => 102,
            Refusal::Words => 103,
            Refusal::Numbers => 104,
            Refusal::NotFound => 105,
        }
    }
}

impl From<Refusal> for u8 {
    ghost from_gives = { λ e n. n ≡ number_of e };

    fn from(refusal: Refusal) -> u8 {
        refusal.number()
    }
}
