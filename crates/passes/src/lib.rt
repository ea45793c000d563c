// What the passes over a text share. A pass is one loop over the steps of the walk (`Step::following` says why no iterator); each step gives at most two comparators, one with the
// numbers as they were read and one with a component raised.
#![tactic(auto)]

ghost use Rattle.std.specs.Prelude.{◌≡◌, ◌≤◌, length};
ghost use Rattle.partial.specs.Views.{partial_is};
ghost use Rattle.range.specs.Views.{raised_partial};
ghost use Rattle.walk.specs.Views.{next_is, step_is};
ghost use Rattle.passes.specs.Views.{listed, counted, kept_gives, kept_with, raised_gives, RaisedTo, step_gives, over_of, ends_range};

use partial::{Comparator, Op};
use range::{Component, raise};
use walk::{Stage, Step};

// The comparator with the numbers as they were read, if there is one.
pub fn as_read<'a>(x: &Step<'a>) -> Option<Comparator<'a>>
    ensures answer { listed result ≡ kept_gives (step_is x.now) }
    ensures count { counted x.now.partial.count result }
    ensures code { result ≡ kept_with x.now.kept x.now.partial }
{
    Some(x.partial.as_comparator(x.kept?))
}

// The one below the raised component, if there is one.
pub fn raised<'a>(x: &Step<'a>) -> Option<Comparator<'a>>
    ensures answer { listed result ≡ raised_gives (step_is x.now) }
    ensures count { counted (raised_partial x.now.raised (partial_is x.now.partial)).count result }
    ensures code { RaisedTo (step_is x.now) result }
{
    x.raised?;
    Some(raise(x.partial, x.raised).as_comparator(Op::Lt))
}

// The component that is raised cannot be: asked of the component itself, since `raise` would copy the partial for it. A bool and no refusal: another refusal of the text may come before that one, so its reader goes on.
pub fn is_over(x: &Step<'_>) -> bool
    ensures { result ≡ over_of (step_is x.now) }
{
    let p = &x.partial;
    p.over
        | match x.raised {
            Some(Component::Major) => p.major == u64::MAX,
            Some(Component::Minor) => p.minor == u64::MAX,
            Some(Component::Patch) => p.patch == u64::MAX,
            None => false,
        }
}

// Behind this step a range ends.
pub fn ends_range(x: &Step<'_>) -> bool
    ensures { result ≡ ends_range (next_is x.now.next).0 }
{
    matches!(x.next, None | Some((Stage::Range, _)))
}

// How many there are of both: a number and no pair of marks, since a tally adds it up.
#[tactic(auto, unfolding(crate::specs::Views::step_gives))]
pub fn comparator_count(x: &Step<'_>) -> usize
    ensures value { result ≡ length (step_gives (step_is x.now)) }
    ensures small { result ≤ 2 }
{
    usize::from(x.kept.is_some()) + usize::from(x.raised.is_some())
}
