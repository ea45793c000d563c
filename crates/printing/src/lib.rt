// Answers and lent memory on standard output, and how much memory is lent, for the programs `replay` and `origins`.
#![tactic(auto)]

ghost use Rattle.std.specs.Prelude.{Some};
ghost use Rattle.printing.specs.Views.{length_text, counts_text, answer_text};

use rangeset::Counts;
use rows::COMPARATOR_WORDS;
use std::{fmt, io};

// How many bytes are enough for the normal text of every range, and how many words for its comparators, which are at most one for each of its bytes and
// one, and for its identifiers.
pub const BYTES: usize = 524288;

pub const WORDS: usize = COMPARATOR_WORDS * 65536;

pub const IDS: usize = 98304;

// ---- answers

// What is answered, or what the error says of itself.
#[derive(Drop)]
pub struct Answer<T, E>(pub Result<T, E>);

impl<T: fmt::Display, E: fmt::Display> fmt::Display for Answer<T, E> {
    ghost output = { λ x. answer_text T.output E.output x.0 };

    fn fmt<W: fmt::Write>(&self, f: &mut fmt::Formatter<W>) -> fmt::Result {
        match &self.0 {
            Ok(answer) => write!(f, "{answer}"),
            Err(error) => write!(f, "{error}"),
        }
    }
}

// 01's number and the three counts.
#[derive(Clone, Copy)]
pub struct Counted(pub Counts);

impl fmt::Display for Counted {
    ghost output = { λ x. Some (counts_text x.0) };

    fn fmt<W: fmt::Write>(&self, f: &mut fmt::Formatter<W>) -> fmt::Result {
        let counts = self.0;
        write!(
            f,
            "0 {} {} {}",
            counts.ranges, counts.comparators, counts.identifiers
        )
    }
}

// 01's number and the length.
#[derive(Clone, Copy)]
pub struct Length(pub usize);

impl fmt::Display for Length {
    ghost output = { λ x. Some (length_text x.0) };

    fn fmt<W: fmt::Write>(&self, f: &mut fmt::Formatter<W>) -> fmt::Result {
        write!(f, "0 {}", self.0)
    }
}

// ---- lent memory

// How much is shown of lent memory: all, or its end where it is too long to print.
#[derive(Clone, Copy, PartialEq, Eq)]
pub enum Shown {
    Whole,
    End,
}

impl Shown {
    // The part that is shown; nothing where an end of so many is asked of less.
    fn part<'a, T>(self, lent: &'a [T], end: usize) -> Option<&'a [T]> {
        match self {
            Shown::Whole => Some(lent),
            Shown::End => {
                let at = lent.len().checked_sub(end)?;
                Some(&lent[at..])
            }
        }
    }

    // A line of the bytes, or of the last fifteen. They are put as they are, and the words of `put_words` as numbers.
    pub fn put_bytes(self, rt: &impl Print, lent: &[u8]) -> io::Result<()> {
        if let Some(bytes) = self.part(lent, 15) {
            rt.write_all(bytes)?;
            rt.write_all(b"\n")?;
        }
        Ok(())
    }

    // A line of the words, or of the last two comparators' rows.
    pub fn put_words(self, rt: &impl Print, lent: &[u64]) -> io::Result<()> {
        if let Some(words) = self.part(lent, COMPARATOR_WORDS * 2) {
            for word in words {
                print!(rt; " {word}")?;
            }
            rt.write_all(b"\n")?;
        }
        Ok(())
    }
}
