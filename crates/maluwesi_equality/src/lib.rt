// The calls of `equality` as Rust and C make them (bindings/), as `maluwesi` has the others. They and the crate that exports them stand apart since
// they call what those call: in one static library the functions that both call would no longer be compiled into each (docs/DECISIONS.md).
//
// The numbers for modes and refusals, 1 or 0 for whose refusal it is, the out-parameters, and one function for each call are what C needs of 01's
// calls (bindings/c/maluwesi.h). Each call begins with the modes by itself: `?` cannot hand back a number, and what is left in the out-parameters differs.
#![tactic(auto)]

ghost use Rattle.std.specs.Prelude.{◌≡◌, length};
ghost use Rattle.rules.specs.Equality.{reread_call, reread_outcome, reread_bytes_after, reread_comparators_after, reread_identifiers_after, texts_call, texts_equal, first_after, second_after};
ghost use Rattle.rules.specs.Exported.{modes_of, under_both, reread_under, reread_numbers, verdict};
ghost use Rattle.equality.specs.Views.{reread_of};
ghost use Rattle.numbers.specs.Views.{verdict_is};
ghost use Rattle.maluwesi_equality.specs.Views.{modes_are, reread_is};

use equality::{RereadError, equal_readings, read_normal_text};
use numbers::{NO_MODE, put_counts, put_no_counts, put_verdict};
use range::{Compat, UnknownMode};
use rangeset::Counts;

// ---- the modes

#[tactic(auto, using(crate::proofs::Exporting::modes))]
fn modes_of(number: u8, other: u8) -> Result<(Compat, Compat), UnknownMode>
    ensures { modes_are result ≡ modes_of number other }
{
    let compat = Compat::try_from(number)?;
    let second = Compat::try_from(other)?;
    Ok((compat, second))
}

// ---- a normal text, read again

// The counts, and 1 in normal where it is the normal text that is refused.
#[tactic(auto, using(crate::proofs::Exporting::rereads))]
fn put_reread(
    r: Result<Counts, RereadError>,
    normal: &mut u8,
    ranges: &mut usize,
    comparators: &mut usize,
    identifiers: &mut usize,
) -> u64
    ensures { reread_is result normal.new ranges.new comparators.new identifiers.new ≡ reread_numbers (reread_of r) }
{
    match r {
        Ok(counts) => {
            *normal = 0;
            put_counts(Ok(counts), ranges, comparators, identifiers)
        }
        Err(RereadError::Text(refusal)) => {
            *normal = 0;
            put_counts(Err(refusal), ranges, comparators, identifiers)
        }
        Err(RereadError::NormalText(refusal)) => {
            *normal = 1;
            put_counts(Err(refusal), ranges, comparators, identifiers)
        }
    }
}

// Writes the normal text under the first mode, and reads it under the other.
#[tactic(auto, using(crate::proofs::Exporting::neither))]
pub fn maluwesi_read_normal_text(
    text: &[u8],
    mode: u8,
    other: u8,
    out: &mut [u8],
    words: &mut [u64],
    ids: &mut [u64],
    normal: &mut u8,
    ranges: &mut usize,
    comparators: &mut usize,
    identifiers: &mut usize,
) -> u64
    ensures answer { reread_is result normal.new ranges.new comparators.new identifiers.new ≡ reread_numbers (reread_outcome (reread_under mode other (λ m m'. reread_call m m' text.now (length out.old) (length words.old) (length ids.old)))) }
    ensures bytes { out.new ≡ reread_bytes_after (reread_under mode other (λ m m'. reread_call m m' text.now (length out.old) (length words.old) (length ids.old))) out.old }
    ensures words { words.new ≡ reread_comparators_after (reread_under mode other (λ m m'. reread_call m m' text.now (length out.old) (length words.old) (length ids.old))) words.old }
    ensures ids { ids.new ≡ reread_identifiers_after (reread_under mode other (λ m m'. reread_call m m' text.now (length out.old) (length words.old) (length ids.old))) ids.old }
{
    let Ok((compat, second)) = modes_of(mode, other) else {
        *normal = 0;
        put_no_counts(ranges, comparators, identifiers);
        return NO_MODE;
    };
    let r = read_normal_text(text, compat, second, out, words, ids);
    put_reread(r, normal, ranges, comparators, identifiers)
}

// ---- two texts, compared

// Whether the readings of two texts are equal: 1 or 0 in equal.
#[tactic(auto, using(crate::proofs::Exporting::neither))]
pub fn maluwesi_equal_readings(
    text: &[u8],
    mode: u8,
    text2: &[u8],
    mode2: u8,
    out: &mut [u8],
    out2: &mut [u8],
    equal: &mut u8,
) -> u64
    ensures answer { verdict_is result equal.new ≡ verdict (texts_equal (under_both mode mode2 (λ m m'. texts_call m text.now (length out.old) m' text2.now (length out2.old)))) }
    ensures first { out.new ≡ first_after (under_both mode mode2 (λ m m'. texts_call m text.now (length out.old) m' text2.now (length out2.old))) out.old }
    ensures second { out2.new ≡ second_after (under_both mode mode2 (λ m m'. texts_call m text.now (length out.old) m' text2.now (length out2.old))) out2.old }
{
    let Ok((compat, second)) = modes_of(mode, mode2) else {
        *equal = 0;
        return NO_MODE;
    };
    let r = equal_readings(text, compat, text2, second, out, out2);
    put_verdict(r, equal)
}
