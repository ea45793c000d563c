// The calls as Rust and C make them (bindings/): a slice is passed as a pointer and a length, and the mode as a number. Each but the
// identifier bytes call returns 0, or the number of the refusal, and leaves its answer where it is told to. `maluwesi_c` exports each under its name,
// which begins with the library's, since it is the whole program's. The calls that stand on these are in `maluwesi_equality`, and the shelf's in
// `maluwesi_shelf`.
//
// The numbers for modes and refusals, the out-parameters, place 0 for the empty part, a place and a length for a text, and one function for each call,
// with and without lent memory, are what C needs of 01's calls (bindings/c/maluwesi.h). Each function begins with the mode by itself: `?` cannot hand back a number, what is left in
// the out-parameters differs by call, and a function over a closure for the rest would take a second one for that.
#![tactic(auto)]

ghost use Rattle.std.specs.Prelude.{◌≡◌, length, take, drop};
ghost use Rattle.rules.specs.Answers.{reading, reading_call, reading_outcome, comparator_words_after, identifier_words_after, identifier_bytes, normal_text_call, normal_text_outcome, bytes_after};
ghost use Rattle.rules.specs.Admission.{admission_call};
ghost use Rattle.rules.specs.Exported.{under, words_under, verdict, part_at};
ghost use Rattle.numbers.specs.Views.{outcome, length_is, verdict_is, part_is};

use admission::admit;
use normal_text::{normal_text, normal_text_len};
use numbers::{NO_MODE, put_counts, put_length, put_no_counts, put_verdict};
use range::Compat;
use rangeset::{count, identifier_bytes};
use reading::read;

// ---- the reading

#[tactic(auto, using(crate::proofs::Exporting::unknown))]
pub fn maluwesi_count(
    text: &[u8],
    mode: u8,
    ranges: &mut usize,
    comparators: &mut usize,
    identifiers: &mut usize,
) -> u64
    ensures { outcome result ranges.new comparators.new identifiers.new ≡ reading_outcome (under mode (λ m. reading m text.now)) }
{
    let Ok(compat) = Compat::try_from(mode) else {
        put_no_counts(ranges, comparators, identifiers);
        return NO_MODE;
    };
    put_counts(count(text, compat), ranges, comparators, identifiers)
}

#[tactic(auto, using(crate::proofs::Exporting::unknown))]
pub fn maluwesi_read(
    text: &[u8],
    mode: u8,
    words: &mut [u64],
    ids: &mut [u64],
    ranges: &mut usize,
    comparators: &mut usize,
    identifiers: &mut usize,
) -> u64
    ensures answer { outcome result ranges.new comparators.new identifiers.new ≡ reading_outcome (under mode (λ m. reading_call m text.now (length words.old) (length ids.old))) }
    ensures words { words.new ≡ words_under mode (λ m. comparator_words_after m text.now (reading_call m text.now (length words.old) (length ids.old)) words.old) words.old }
    ensures ids { ids.new ≡ identifier_words_after text.now (under mode (λ m. reading_call m text.now (length words.old) (length ids.old))) ids.old }
{
    let Ok(compat) = Compat::try_from(mode) else {
        put_no_counts(ranges, comparators, identifiers);
        return NO_MODE;
    };
    let r = read(text, compat, words, ids);
    put_counts(r, ranges, comparators, identifiers)
}

// Where the identifier's bytes begin in the text, and how many they are. The empty part begins at 0. It never refuses.
#[tactic(auto, using(crate::proofs::Exporting::parts))]
pub fn maluwesi_identifier_bytes(
    text: &[u8],
    place: usize,
    len: usize,
    from: &mut usize,
    size: &mut usize,
)
    ensures answer { part_is from.new size.new ≡ part_at place (identifier_bytes text.now place len) }
    ensures bytes { take size.new (drop from.new text.now) ≡ identifier_bytes text.now place len }
{
    let part = identifier_bytes(text, place, len);
    *size = part.len();
    if part.len() == 0 {
        *from = 0;
        return;
    }
    *from = place;
}

// ---- the normal text

#[tactic(auto, using(crate::proofs::Exporting::unknown))]
pub fn maluwesi_normal_text_len(text: &[u8], mode: u8, lent: usize, len: &mut usize) -> u64
    ensures { length_is result len.new ≡ normal_text_outcome (under mode (λ m. normal_text_call m text.now lent)) }
{
    let Ok(compat) = Compat::try_from(mode) else {
        *len = 0;
        return NO_MODE;
    };
    put_length(normal_text_len(text, compat, lent), len)
}

#[tactic(auto, using(crate::proofs::Exporting::unknown))]
pub fn maluwesi_normal_text(text: &[u8], mode: u8, out: &mut [u8], len: &mut usize) -> u64
    ensures answer { length_is result len.new ≡ normal_text_outcome (under mode (λ m. normal_text_call m text.now (length out.old))) }
    ensures bytes { out.new ≡ bytes_after (under mode (λ m. normal_text_call m text.now (length out.old))) out.old }
{
    let Ok(compat) = Compat::try_from(mode) else {
        *len = 0;
        return NO_MODE;
    };
    let r = normal_text(text, compat, out);
    put_length(r, len)
}

// ---- admission

#[tactic(auto, using(crate::proofs::Exporting::unknown))]
pub fn maluwesi_admit(text: &[u8], mode: u8, version: &[u8], admitted: &mut u8) -> u64
    ensures { verdict_is result admitted.new ≡ verdict (under mode (λ m. admission_call m text.now version.now)) }
{
    let Ok(compat) = Compat::try_from(mode) else {
        *admitted = 0;
        return NO_MODE;
    };
    put_verdict(admit(text, compat, version), admitted)
}
