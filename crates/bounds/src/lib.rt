// The lowest and the highest triple of a range text (02, N3): one pass over its steps.
#![tactic(auto)]

ghost use Rattle.std.specs.Prelude.{◌≡◌};
ghost use Rattle.rules.specs.Answers.{accepted, map_answer, reading};
ghost use Rattle.partial.specs.Views.{op_of, comparator_is};
ghost use Rattle.range.specs.Views.{compat_of};
ghost use Rattle.walk.specs.Views.{step_is};
ghost use Rattle.passes.specs.Views.{listed, step_gives};
ghost use Rattle.shelf_rules.specs.Triples.{is_lower, is_upper, bounds_of};
ghost use Rattle.triples.specs.Views.{triple_is, bounds_is};
ghost use Rattle.bounds.specs.Views.{bounds_with, ranged, joined};

use partial::{Comparator, Op};
use passes::{as_read, ends_range, raised};
use rangeset::RangeSet;
use triples::{Bounds, Triple};
use walk::Step;

// ---- triples

const LOWEST: Triple = Triple {
    major: 0,
    minor: 0,
    patch: 0,
};

const HIGHEST: Triple = Triple {
    major: u64::MAX,
    minor: u64::MAX,
    patch: u64::MAX,
};

// ---- the comparators of a step

// An operator of a lower end, and one of an upper end. One function over a list of operators would be a search where these are a pattern.
fn is_lower(op: Op) -> bool
    ensures { result ≡ is_lower (op_of op) }
{
    matches!(op, Op::Gt | Op::Gte | Op::Eq)
}

fn is_upper(op: Op) -> bool
    ensures { result ≡ is_upper (op_of op) }
{
    matches!(op, Op::Lt | Op::Lte | Op::Eq)
}

// The bounds of a range so far, with a comparator more.
#[tactic(auto, using(triples::proofs::OrderLaws::max_is, triples::proofs::OrderLaws::min_is))]
fn with_comparator(b: Bounds, c: &Comparator<'_>) -> Bounds
    ensures { bounds_is result ≡ bounds_with (bounds_is b) (comparator_is c.now) }
{
    let t = Triple::new(c.major, c.minor, c.patch);
    Bounds {
        low: if is_lower(c.op) { b.low.max(t) } else { b.low },
        high: if is_upper(c.op) {
            b.high.min(t)
        } else {
            b.high
        },
    }
}

// If there is one.
#[tactic(auto, unfolding(shelf_rules::specs::Triples::low_from, shelf_rules::specs::Triples::high_from))]
fn with_optional(b: Bounds, c: Option<Comparator<'_>>) -> Bounds
    ensures { bounds_is result ≡ ranged (bounds_is b) (listed c.entry) }
{
    match c {
        Some(c) => with_comparator(b, &c),
        None => b,
    }
}

// With those of a step.
fn with_step(b: Bounds, x: &Step<'_>) -> Bounds
    ensures { bounds_is result ≡ ranged (bounds_is b) (step_gives (step_is x.now)) }
{
    with_optional(with_optional(b, as_read(x)), raised(x))
}

// ---- the ranges

// Of a range with no comparator: every triple is between them. 02 (N3) gives these numbers, and the rules' `bounds_of` begins with those of no range:
// an Option in their place would be asked at each comparator and each range.
const EVERYTHING: Bounds = Bounds {
    low: LOWEST,
    high: HIGHEST,
};

// Of no range.
const NOTHING: Bounds = Bounds {
    low: HIGHEST,
    high: LOWEST,
};

// The least low and the greatest high of both.
#[tactic(auto, using(triples::proofs::OrderLaws::max_is, triples::proofs::OrderLaws::min_is))]
fn joined(a: Bounds, b: Bounds) -> Bounds
    ensures { bounds_is result ≡ joined (bounds_is a) (bounds_is b) }
{
    Bounds {
        low: a.low.min(b.low),
        high: a.high.max(b.high),
    }
}

// Of all ranges.
pub fn bounds_of(set: &RangeSet<'_>) -> Bounds
    ensures { accepted (bounds_is result) ≡ map_answer bounds_of (reading (compat_of set.now.compat) set.now.text.now) }
{
    let mut all = NOTHING;
    let mut range = EVERYTHING;
    let mut step = Some(set.first);
    while let Some(x) = step {
        range = with_step(range, &x);
        if ends_range(&x) {
            all = joined(all, range);
            range = EVERYTHING;
        }
        step = x.following(set.compat);
    }
    all
}
