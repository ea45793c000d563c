// Requirement 3 in calls: a normal text read again under another mode, and two texts whose readings are compared by their normal texts.
#![tactic(auto)]

ghost use Rattle.std.specs.Prelude.{◌≡◌, length, Some};
ghost use Rattle.rules.specs.Answers.{text_of, reading, reading_outcome, normal_text, normal_text_outcome, bytes_after};
ghost use Rattle.rules.specs.Equality.{reread_call, reread_outcome, reread_bytes_after, reread_comparators_after, reread_identifiers_after, Restores, same_bytes, texts_call, texts_equal, first_after, second_after, Tells};
ghost use Rattle.range.specs.Views.{compat_of};
ghost use Rattle.equality.specs.Views.{Fits, counts_of, error_text, Decides, reread_of, Checks};
ghost use Rattle.refusals.specs.Views.{answer_of};
ghost use Rattle.equality.specs.declared.RereadError.TheVariants as RereadError;

use normal_text::{normal_text, normal_text_len};
use range::Compat;
use rangeset::{Counts, count};
use reading::{counts_within, read};
use refusals::{LONGEST, Refusal};
use std::fmt;

// ---- a normal text, written

// Writes the normal text of s, which fits, at the start of out; answers how many bytes that is. To hand back those bytes was tried: a `&mut` that
// goes into the result has no value behind the call, so the contract would have to say by `Lends` what out holds.
#[tactic(auto, using(crate::proofs::Fitting::writing))]
fn write(s: &[u8], compat: Compat, out: &mut [u8]) -> usize
    requires { Fits (compat_of compat) s.now (length out.old) }
    ensures value { result ≡ (normal_text_outcome (normal_text (compat_of compat) s.now)).length }
    ensures bytes { out.new ≡ bytes_after (normal_text (compat_of compat) s.now) out.old }
{
    normal_text(s, compat, out).unwrap()
}

// ---- a normal text, read again

// The refusal of the text (1 to 4, 7) or of its normal text (1, 5, 6).
#[derive(Clone, Copy, PartialEq, Eq)]
pub enum RereadError {
    Text(Refusal),
    NormalText(Refusal),
}

// What a call on the text refuses is of the text.
impl From<Refusal> for RereadError {
    ghost from_gives = { λ y e. e ≡ RereadError.Text y };

    fn from(refusal: Refusal) -> RereadError {
        RereadError::Text(refusal)
    }
}

// A refusal of the normal text, and not of the text, says so.
impl fmt::Display for RereadError {
    ghost output = { λ e. Some (error_text e) };

    fn fmt<W: fmt::Write>(&self, f: &mut fmt::Formatter<W>) -> fmt::Result {
        match self {
            RereadError::Text(refusal) => write!(f, "{refusal}"),
            RereadError::NormalText(refusal) => write!(f, "normal text {refusal}"),
        }
    }
}

// The answer for a text: whether its normal text fits so many lent bytes, and the reading of that so many words. Equal readings have the same
// counts, so the mode under which it is read does not matter. All is decided before a byte is written, since a refusal changes none.
#[tactic(auto, using(crate::proofs::Rereading::deciding))]
fn decide(
    s: &[u8],
    compat: Compat,
    lent: usize,
    words: usize,
    ids: usize,
) -> Result<Counts, RereadError>
    ensures { Decides (compat_of compat) s.now lent words ids (reread_of result) }
{
    let counts = count(s, compat)?;
    let len = normal_text_len(s, compat, lent)?;
    if len > LONGEST {
        return Err(RereadError::NormalText(Refusal::TooLong));
    }
    counts_within(counts, words, ids).map_err(RereadError::NormalText)
}

// Writes the normal text of s under compat, and reads it under other. A refusal changes no lent byte and no lent word. The words are lent apart,
// those of comparators and those of identifiers, as 01 has them.
#[tactic(auto, using(crate::proofs::Rereading::rereading))]
pub fn read_normal_text(
    s: &[u8],
    compat: Compat,
    other: Compat,
    out: &mut [u8],
    words: &mut [u64],
    ids: &mut [u64],
) -> Result<Counts, RereadError>
    ensures answer { reread_of result ≡ reread_outcome (reread_call (compat_of compat) (compat_of other) s.now (length out.old) (length words.old) (length ids.old)) }
    ensures bytes { out.new ≡ reread_bytes_after (reread_call (compat_of compat) (compat_of other) s.now (length out.old) (length words.old) (length ids.old)) out.old }
    ensures words { words.new ≡ reread_comparators_after (reread_call (compat_of compat) (compat_of other) s.now (length out.old) (length words.old) (length ids.old)) words.old }
    ensures ids { ids.new ≡ reread_identifiers_after (reread_call (compat_of compat) (compat_of other) s.now (length out.old) (length words.old) (length ids.old)) ids.old }
    ensures equal { Restores (compat_of compat) s.now (length out.old) (length words.old) (length ids.old) (reread_of result).outcome out.new words.new ids.new }
{
    let counts = decide(s, compat, out.len(), words.len(), ids.len())?;
    let len = write(s, compat, out);
    // Refused by none of 1 to 6: `decide` has seen to that.
    let _ = read(&out[..len], other, words, ids);
    Ok(counts)
}

// ---- two texts, compared

// Writes both normal texts, and compares them.
#[tactic(auto, using(crate::proofs::Comparing::comparing))]
fn compare(s: &[u8], compat: Compat, t: &[u8], other: Compat, a: &mut [u8], b: &mut [u8]) -> bool
    requires fits { Fits (compat_of compat) s.now (length a.old) }
    requires fits_2 { Fits (compat_of other) t.now (length b.old) }
    ensures value { result ≡ same_bytes (text_of (normal_text (compat_of compat) s.now)) (text_of (normal_text (compat_of other) t.now)) }
    ensures first { a.new ≡ bytes_after (normal_text (compat_of compat) s.now) a.old }
    ensures second { b.new ≡ bytes_after (normal_text (compat_of other) t.now) b.old }
{
    let n = write(s, compat, a);
    let k = write(t, other, b);
    a[..n] == b[..k]
}

// The first refusal of the two, if there is one: whether both normal texts fit. Here as in the calls a text and its mode are apart, as C passes them.
fn check_both(
    s: &[u8],
    compat: Compat,
    lent: usize,
    t: &[u8],
    other: Compat,
    more: usize,
) -> Result<(), Refusal>
    ensures { Checks (texts_call (compat_of compat) s.now lent (compat_of other) t.now more) result }
{
    normal_text_len(s, compat, lent)?;
    normal_text_len(t, other, more)?;
    Ok(())
}

// Whether the readings of s under compat and of t under other are equal, by their normal texts, which are written at the start of a and of b.
// A refusal changes no lent byte.
#[tactic(auto, using(crate::proofs::Comparing::written_ways))]
pub fn equal_readings(
    s: &[u8],
    compat: Compat,
    t: &[u8],
    other: Compat,
    a: &mut [u8],
    b: &mut [u8],
) -> Result<bool, Refusal>
    ensures answer { answer_of result ≡ texts_equal (texts_call (compat_of compat) s.now (length a.old) (compat_of other) t.now (length b.old)) }
    ensures first { a.new ≡ first_after (texts_call (compat_of compat) s.now (length a.old) (compat_of other) t.now (length b.old)) a.old }
    ensures second { b.new ≡ second_after (texts_call (compat_of compat) s.now (length a.old) (compat_of other) t.now (length b.old)) b.old }
    ensures equal { Tells (compat_of compat) s.now (length a.old) (compat_of other) t.now (length b.old) (answer_of result) }
{
    check_both(s, compat, a.len(), t, other, b.len())?;
    Ok(compare(s, compat, t, other, a, b))
}
