// Range sets: `RangeSet::parse` of src/range_set.rs. A pass over the text counts what is in it; the passes behind it begin with the same first step,
// which is read once.
#![tactic(auto)]

ghost use Rattle.std.specs.Prelude.{◌≡◌, ◌≤◌, length, Some, Ok, IfOk};
ghost use Rattle.rules.specs.Parse.{read_text};
ghost use Rattle.rules.specs.Answers.{identifier_bytes, longest, reading, reading_outcome};
ghost use Rattle.rules.specs.Walk.{walk_of};
ghost use Rattle.range.specs.Views.{compat_of};
ghost use Rattle.walk.specs.Views.{stage_of, step_is};
ghost use Rattle.passes.specs.Views.{first_step};
ghost use Rattle.rangeset.specs.Views.{tally_of, opened, outcome_of};

use passes::{comparator_count, is_over};
use range::Compat;
use refusals::{LONGEST, Refusal};
use walk::{Stage, Step, next};

// ---- the measure

// How many ranges, comparator rows and identifier rows.
#[derive(Clone, Copy, PartialEq, Eq)]
pub struct Counts {
    pub ranges: usize,
    pub comparators: usize,
    pub identifiers: usize,
}

// What a text has, whether a component that is read is too large, and whether one cannot be raised. These two are marks and no refusals until the text
// ends: that a later piece has no reading comes before both, and a later one that is too large before the second.
#[derive(Clone, Copy, PartialEq, Eq)]
pub struct Tally {
    pub counts: Counts,
    pub large: bool,
    pub over: bool,
}

// How many ranges a step at this stage begins: a number, since the tally adds it up.
fn opened(stage: Stage) -> usize
    ensures value { result ≡ opened (stage_of stage) }
    ensures small { result ≤ 1 }
{
    usize::from(matches!(stage, Stage::Range))
}

// Of a text from its first step on; nothing where the text has no reading.
#[tactic(auto, using(crate::proofs::Measuring::measuring))]
#[inline(always)]
fn measure(s: &[u8], compat: Compat, first: &Step<'_>) -> Option<Tally>
    requires s_len_bound { length s.now ≤ longest }
    requires first_value { Some (step_is first.now) ≡ first_step (compat_of compat) s.now }
    ensures { result ≡ tally_of (walk_of (compat_of compat) (read_text s.now)) }
{
    let mut t = Tally {
        counts: Counts {
            ranges: 1,
            comparators: comparator_count(first),
            identifiers: first.partial.count,
        },
        large: first.partial.large,
        over: is_over(first),
    };
    // Counted by hand: the `?` leaves the loop where there is no reading, and a `try_fold` over the same five sums is no plainer. It goes on by the place and
    // not by the step behind it, which would be copied once more.
    let mut at = first.next;
    while let Some((stage, left)) = at {
        let x = next(left, stage, compat)?;
        t.counts.ranges += opened(stage);
        t.counts.comparators += comparator_count(&x);
        t.counts.identifiers += x.partial.count;
        t.large |= x.partial.large;
        t.over |= is_over(&x);
        at = x.next;
    }
    Some(t)
}

// ---- the counts of a reading

// What a text of at most 65,535 bytes has, if none of 2 to 4 applies to it.
#[tactic(auto, using(crate::proofs::Outcomes::counting))]
#[inline(always)]
fn count_measured(s: &[u8], compat: Compat, first: &Step<'_>) -> Result<Counts, Refusal>
    requires s_len_bound { length s.now ≤ longest }
    requires first_value { Some (step_is first.now) ≡ first_step (compat_of compat) s.now }
    ensures { outcome_of result ≡ reading_outcome (reading (compat_of compat) s.now) }
{
    let t = measure(s, compat, first).ok_or(Refusal::NoReading)?;
    if t.large {
        return Err(Refusal::TooLarge);
    }
    if t.over {
        return Err(Refusal::Over);
    }
    Ok(t.counts)
}

// A text to which none of 1 to 4 applies under the mode, its first step, and the counts of its reading.
#[derive(Clone, Copy)]
pub struct RangeSet<'a> {
    pub text: &'a [u8],
    pub compat: Compat,
    pub first: Step<'a>,
    pub counts: Counts,
    pub ghost counted: { outcome_of (Ok counts) ≡ reading_outcome (reading (compat_of compat) text.now) },
    pub ghost starts: { Some (step_is first) ≡ first_step (compat_of compat) text.now },
}

impl<'a> RangeSet<'a> {
    ghost use Rattle.rangeset.specs.Sets.{set_outcome, IsSetOf};

    #[tactic(auto, using(crate::proofs::Outcomes::counting))]
    #[inline(always)]
    pub fn parse(text: &'a [u8], compat: Compat) -> Result<RangeSet<'a>, Refusal>
        ensures answer { set_outcome result ≡ reading_outcome (reading (compat_of compat) text.now) }
        ensures of { IfOk result (IsSetOf text.entry compat) }
    {
        if text.len() > LONGEST {
            return Err(Refusal::TooLong);
        }
        let Some(first) = next(text, Stage::Range, compat) else {
            return Err(Refusal::NoReading);
        };
        let counts = count_measured(text, compat, &first)?;
        Ok(RangeSet {
            text,
            compat,
            first,
            counts,
        })
    }
}

// What a text has, if none of 1 to 4 applies to it.
pub fn count(s: &[u8], compat: Compat) -> Result<Counts, Refusal>
    ensures { outcome_of result ≡ reading_outcome (reading (compat_of compat) s.now) }
{
    Ok(RangeSet::parse(s, compat)?.counts)
}
// ---- identifier bytes

// The part of the text that an identifier's row names: length bytes from place on, as the row has these two numbers. Where they pass the
// end, 01 asks for the empty part, and not for none.
pub fn identifier_bytes<'a>(s: &'a [u8], place: usize, length: usize) -> &'a [u8]
    ensures { result.now ≡ identifier_bytes s.now place length }
{
    let Some(rest) = s.get(place..) else {
        return &s[..0];
    };
    rest.get(..length).unwrap_or(&s[..0])
}
