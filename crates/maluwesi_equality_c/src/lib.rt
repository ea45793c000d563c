// The calls of `maluwesi_equality` as C finds them, in a static library of their own as in `maluwesi_c`: with those in one, the functions that both call
// would no longer be compiled into each (docs/DECISIONS.md). That each stands here once more, and numbers and out-parameters for values, are what C asks
// for.
#![tactic(auto)]

ghost use Rattle.std.specs.Prelude.{◌≡◌, length};
ghost use Rattle.rules.specs.Equality.{reread_call, reread_outcome, reread_bytes_after, reread_comparators_after, reread_identifiers_after, texts_call, texts_equal, first_after, second_after};
ghost use Rattle.rules.specs.Exported.{under_both, reread_under, reread_numbers, verdict};
ghost use Rattle.numbers.specs.Views.{verdict_is};
ghost use Rattle.maluwesi_equality.specs.Views.{reread_is};

// Writes the normal text under the first mode, and reads it under the other.
#[unsafe(no_mangle)]
pub extern "C" fn maluwesi_read_normal_text(
    text: &[u8],
    mode: u8,
    other: u8,
    out: &mut [u8],
    words: &mut [u64],
    ids: &mut [u64],
    normal: &mut u8,
    ranges: &mut usize,
    comparators: &mut usize,
    identifiers: &mut usize,
) -> u64
    ensures answer { reread_is result normal.new ranges.new comparators.new identifiers.new ≡ reread_numbers (reread_outcome (reread_under mode other (λ m m'. reread_call m m' text.now (length out.old) (length words.old) (length ids.old)))) }
    ensures bytes { out.new ≡ reread_bytes_after (reread_under mode other (λ m m'. reread_call m m' text.now (length out.old) (length words.old) (length ids.old))) out.old }
    ensures words { words.new ≡ reread_comparators_after (reread_under mode other (λ m m'. reread_call m m' text.now (length out.old) (length words.old) (length ids.old))) words.old }
    ensures ids { ids.new ≡ reread_identifiers_after (reread_under mode other (λ m m'. reread_call m m' text.now (length out.old) (length words.old) (length ids.old))) ids.old }
{
    maluwesi_equality::maluwesi_read_normal_text(
        text,
        mode,
        other,
        out,
        words,
        ids,
        normal,
        ranges,
        comparators,
        identifiers,
    )
}

// Whether the readings of two texts are equal: 1 or 0 in equal.
#[unsafe(no_mangle)]
pub extern "C" fn maluwesi_equal_readings(
    text: &[u8],
    mode: u8,
    text2: &[u8],
    mode2: u8,
    out: &mut [u8],
    out2: &mut [u8],
    equal: &mut u8,
) -> u64
    ensures answer { verdict_is result equal.new ≡ verdict (texts_equal (under_both mode mode2 (λ m m'. texts_call m text.now (length out.old) m' text2.now (length out2.old)))) }
    ensures first { out.new ≡ first_after (under_both mode mode2 (λ m m'. texts_call m text.now (length out.old) m' text2.now (length out2.old))) out.old }
    ensures second { out2.new ≡ second_after (under_both mode mode2 (λ m m'. texts_call m text.now (length out.old) m' text2.now (length out2.old))) out2.old }
{
    maluwesi_equality::maluwesi_equal_readings(text, mode, text2, mode2, out, out2, equal)
}
