// The calls of `maluwesi` as C finds them: a static library, since one crate is not built as a library and for C. Each export calls the function of
// its name with what it is passed, and promises what that one promises. That each stands here once more, and numbers, out-parameters and places for
// values, are what C asks for.
#![tactic(auto)]

ghost use Rattle.std.specs.Prelude.{◌≡◌, length, take, drop};
ghost use Rattle.rules.specs.Answers.{reading, reading_call, reading_outcome, comparator_words_after, identifier_words_after, identifier_bytes, normal_text_call, normal_text_outcome, bytes_after};
ghost use Rattle.rules.specs.Admission.{admission_call};
ghost use Rattle.rules.specs.Exported.{under, words_under, verdict, part_at};
ghost use Rattle.numbers.specs.Views.{outcome, length_is, verdict_is, part_is};

#[unsafe(no_mangle)]
pub extern "C" fn maluwesi_count(
    text: &[u8],
    mode: u8,
    ranges: &mut usize,
    comparators: &mut usize,
    identifiers: &mut usize,
) -> u64
    ensures { outcome result ranges.new comparators.new identifiers.new ≡ reading_outcome (under mode (λ m. reading m text.now)) }
{
    maluwesi::maluwesi_count(text, mode, ranges, comparators, identifiers)
}

#[unsafe(no_mangle)]
pub extern "C" fn maluwesi_read(
    text: &[u8],
    mode: u8,
    words: &mut [u64],
    ids: &mut [u64],
    ranges: &mut usize,
    comparators: &mut usize,
    identifiers: &mut usize,
) -> u64
    ensures answer { outcome result ranges.new comparators.new identifiers.new ≡ reading_outcome (under mode (λ m. reading_call m text.now (length words.old) (length ids.old))) }
    ensures words { words.new ≡ words_under mode (λ m. comparator_words_after m text.now (reading_call m text.now (length words.old) (length ids.old)) words.old) words.old }
    ensures ids { ids.new ≡ identifier_words_after text.now (under mode (λ m. reading_call m text.now (length words.old) (length ids.old))) ids.old }
{
    maluwesi::maluwesi_read(text, mode, words, ids, ranges, comparators, identifiers)
}

// Where the identifier's bytes begin in the text, and how many they are. The empty part begins at 0. It never refuses.
#[unsafe(no_mangle)]
pub extern "C" fn maluwesi_identifier_bytes(
    text: &[u8],
    place: usize,
    len: usize,
    from: &mut usize,
    size: &mut usize,
)
    ensures answer { part_is from.new size.new ≡ part_at place (identifier_bytes text.now place len) }
    ensures bytes { take size.new (drop from.new text.now) ≡ identifier_bytes text.now place len }
{
    maluwesi::maluwesi_identifier_bytes(text, place, len, from, size)
}

#[unsafe(no_mangle)]
pub extern "C" fn maluwesi_normal_text_len(
    text: &[u8],
    mode: u8,
    lent: usize,
    len: &mut usize,
) -> u64
    ensures { length_is result len.new ≡ normal_text_outcome (under mode (λ m. normal_text_call m text.now lent)) }
{
    maluwesi::maluwesi_normal_text_len(text, mode, lent, len)
}

#[unsafe(no_mangle)]
pub extern "C" fn maluwesi_normal_text(
    text: &[u8],
    mode: u8,
    out: &mut [u8],
    len: &mut usize,
) -> u64
    ensures answer { length_is result len.new ≡ normal_text_outcome (under mode (λ m. normal_text_call m text.now (length out.old))) }
    ensures bytes { out.new ≡ bytes_after (under mode (λ m. normal_text_call m text.now (length out.old))) out.old }
{
    maluwesi::maluwesi_normal_text(text, mode, out, len)
}

#[unsafe(no_mangle)]
pub extern "C" fn maluwesi_admit(text: &[u8], mode: u8, version: &[u8], admitted: &mut u8) -> u64
    ensures { verdict_is result admitted.new ≡ verdict (under mode (λ m. admission_call m text.now version.now)) }
{
    maluwesi::maluwesi_admit(text, mode, version, admitted)
}
