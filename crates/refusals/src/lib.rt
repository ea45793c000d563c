// The refusals of the calls, each with its number.
#![tactic(auto)]

ghost use Rattle.std.specs.Prelude.{◌≡◌, Some};
ghost use Rattle.refusals.specs.Views.{number_of, number_text};

use std::fmt;

// 01's refusals, in its order, and the shelf's (02, N1).
#[derive(Clone, Copy, PartialEq, Eq)]
pub enum Refusal {
    TooLong,
    NoReading,
    TooLarge,
    Over,
    ComparatorsShort,
    IdentifiersShort,
    BytesShort,
    NoVersion,
    VersionTooLarge,
    NotShelf,
    Full,
    Code,
}

// The longest text that a call reads; a longer one is refused with 1, or with 8.
pub const LONGEST: usize = 65535;

// The number in 01, or from 10 on in 02.
impl From<Refusal> for u64 {
    ghost from_gives = { λ r n. n ≡ number_of r };

    fn from(refusal: Refusal) -> u64 {
        match refusal {
            Refusal::TooLong => 1,
            Refusal::NoReading => 2,
            Refusal::TooLarge => 3,
            Refusal::Over => 4,
            Refusal::ComparatorsShort => 5,
            Refusal::IdentifiersShort => 6,
            Refusal::BytesShort => 7,
            Refusal::NoVersion => 8,
            Refusal::VersionTooLarge => 9,
            Refusal::NotShelf => 10,
            Refusal::Full => 11,
            Refusal::Code => 12,
        }
    }
}

impl fmt::Display for Refusal {
    ghost output = { λ r. Some (number_text r) };

    fn fmt<W: fmt::Write>(&self, f: &mut fmt::Formatter<W>) -> fmt::Result {
        write!(f, "{}", u64::from(*self))
    }
}
