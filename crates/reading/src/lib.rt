// The reading: the counts of a text, and its rows. Two passes over the text: the measure counts, then the rows are written. Both begin with the
// text's first step, which is read once.
#![tactic(auto)]

ghost use Rattle.std.specs.Prelude.{◌≡◌, ◌*◌, ◌≤◌, length, IfOk};
ghost use Rattle.rules.specs.Rows.{comparator_width};
ghost use Rattle.rules.specs.Answers.{reading_call, reading_outcome, comparator_words_after, identifier_words_after};
ghost use Rattle.range.specs.Views.{compat_of};
ghost use Rattle.rangeset.specs.Views.{outcome_of};
ghost use Rattle.reading.specs.Views.{CallsAnswer};

use range::Compat;
use range_rows::put_ranges;
use rangeset::{Counts, RangeSet};
use refusals::Refusal;
use rows::{COMPARATOR_WORDS, IDENTIFIER_WORDS};

// The counts of a reading whose rows go into so many words, if they do.
#[tactic(auto, using(crate::proofs::Outcomes::within))]
pub fn counts_within(counts: Counts, words: usize, ids: usize) -> Result<Counts, Refusal>
    ensures answer { CallsAnswer counts words ids result }
    ensures room { IfOk result (λ c. (comparator_width * counts.comparators ≤ words) × (3 * counts.identifiers ≤ ids)) }
{
    if counts.comparators > words / COMPARATOR_WORDS {
        return Err(Refusal::ComparatorsShort);
    }
    if counts.identifiers > ids / IDENTIFIER_WORDS {
        return Err(Refusal::IdentifiersShort);
    }
    Ok(counts)
}

#[tactic(auto, using(crate::proofs::Outcomes::outcomes))]
pub fn read(s: &[u8], compat: Compat, words: &mut [u64], ids: &mut [u64]) -> Result<Counts, Refusal>
    ensures answer { outcome_of result ≡ reading_outcome (reading_call (compat_of compat) s.now (length words.old) (length ids.old)) }
    ensures words { words.new ≡ comparator_words_after (compat_of compat) s.now (reading_call (compat_of compat) s.now (length words.old) (length ids.old)) words.old }
    ensures ids { ids.new ≡ identifier_words_after s.now (reading_call (compat_of compat) s.now (length words.old) (length ids.old)) ids.old }
{
    let set = RangeSet::parse(s, compat)?;
    let counts = counts_within(set.counts, words.len(), ids.len())?;
    put_ranges(&set, words, ids);
    Ok(counts)
}
