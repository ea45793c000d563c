// Answers as numbers, for the functions that are exported: left in the places that are given for them, with 0 or the number of the refusal returned.
#![tactic(auto)]

ghost use Rattle.std.specs.Prelude.{◌≡◌};
ghost use Rattle.rules.specs.Exported.{verdict};
ghost use Rattle.rangeset.specs.Views.{outcome_of};
ghost use Rattle.normal_text.specs.Views.{length_of};
ghost use Rattle.refusals.specs.Views.{answer_of};
ghost use Rattle.numbers.specs.Views.{refusal_in, outcome, length_is, verdict_is};

use rangeset::Counts;
use refusals::Refusal;

// What an exported call answers where the mode's number is none, since C has no `Result`: no refusal of 01 and 02 has it.
pub const NO_MODE: u64 = 255;

// ---- the answers

// 0, or the number of the refusal, as C gets it: "a refused call hands back its number and zero counts" (01).
pub fn number<A>(r: &Result<A, Refusal>) -> u64
    ensures { result ≡ refusal_in r.now }
{
    match r {
        Ok(_) => 0,
        Err(refusal) => u64::from(*refusal),
    }
}

// C passes a place for each count, and not a struct; so do the calls of `maluwesi` for all that they leave.
pub fn put_no_counts(ranges: &mut usize, comparators: &mut usize, identifiers: &mut usize)
    ensures ranges_after { ranges.new ≡ 0 }
    ensures comparators { comparators.new ≡ 0 }
    ensures identifiers { identifiers.new ≡ 0 }
{
    *ranges = 0;
    *comparators = 0;
    *identifiers = 0;
}

pub fn put_counts(
    r: Result<Counts, Refusal>,
    ranges: &mut usize,
    comparators: &mut usize,
    identifiers: &mut usize,
) -> u64
    ensures { outcome result ranges.new comparators.new identifiers.new ≡ outcome_of r }
{
    match r {
        Ok(c) => {
            *ranges = c.ranges;
            *comparators = c.comparators;
            *identifiers = c.identifiers;
        }
        Err(_) => put_no_counts(ranges, comparators, identifiers),
    }
    number(&r)
}

pub fn put_length(r: Result<usize, Refusal>, len: &mut usize) -> u64
    ensures { length_is result len.new ≡ length_of r }
{
    *len = r.unwrap_or(0);
    number(&r)
}

// Yes or no.
#[tactic(auto, unfolding(rules::specs::Exported::verdict))]
pub fn put_verdict(r: Result<bool, Refusal>, yes: &mut u8) -> u64
    ensures { verdict_is result yes.new ≡ verdict (answer_of r) }
{
    *yes = u8::from(r.unwrap_or(false));
    number(&r)
}
