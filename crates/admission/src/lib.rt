// Admission: whether a range text admits a version (01, "Admission"). A range set is passed over by the walk's steps; the version text is read once.
#![tactic(auto)]

ghost use Rattle.std.specs.Prelude.{◌≡◌, ltb, length};
ghost use Rattle.rules.specs.Lists.{each};
ghost use Rattle.rules.specs.Parse.{found_in};
ghost use Rattle.rules.specs.Version.{version, version_identifiers_in};
ghost use Rattle.rules.specs.Precedence.{compare_prereleases, precedence};
ghost use Rattle.rules.specs.Answers.{reading};
ghost use Rattle.rules.specs.Admission.{meets, admits, admits_if, admission_call};
ghost use Rattle.range.specs.Views.{compat_of};
ghost use Rattle.walk.specs.Views.{step_is};
ghost use Rattle.passes.specs.Views.{listed, step_gives};
ghost use Rattle.precedence.specs.Views.{order_of};
ghost use Rattle.version.specs.Views.{version_is};
ghost use Rattle.refusals.specs.Views.{answer_of};

use lexer::{Class, Word};
use partial::Comparator;
use passes::{as_read, ends_range, raised};
use precedence::{compare_identifiers, compare_triples, holds};
use range::Compat;
use rangeset::RangeSet;
use refusals::Refusal;
use std::cmp::Ordering;
use version::{Version, read_version};
use walk::Step;

// ---- a version against comparators

// Whether the range text s begins with an identifier: the first byte tells, since a letter begins one, and a digit a number.
#[tactic(auto, using(crate::proofs::Meeting::firsts))]
fn has_identifiers(s: &[u8]) -> bool
    ensures { result ≡ ltb 0 (length (found_in s.now)) }
{
    matches!(s, [b, ..] if Word::has(*b))
}

// The identifiers of the version against those that the range text s begins with: having none stands above having some, which no derived order of
// lists says. Where one side has none, no identifier is read: a range may ask this of a long one at each comparator.
#[tactic(auto, using(crate::proofs::Meeting::prereleases))]
#[inline(always)]
fn compare_prereleases(v: &Version<'_>, s: &[u8]) -> Ordering
    ensures { order_of result ≡ compare_prereleases (version_identifiers_in v.now.prerelease.now) (found_in s.now) }
{
    match (v.count, has_identifiers(s)) {
        (0, true) => Ordering::Greater,
        (0, _) => Ordering::Equal,
        (_, true) => compare_identifiers(v.prerelease, s),
        _ => Ordering::Less,
    }
}

#[tactic(auto, using(crate::proofs::Meeting::orders))]
#[inline(always)]
fn precedence(v: &Version<'_>, c: &Comparator<'_>) -> Ordering
    ensures { order_of result ≡ precedence (version_is v.now) (version c.now.major c.now.minor c.now.patch (found_in c.now.identifiers.now)) }
{
    let numbers = (c.major, c.minor, c.patch);
    match compare_triples((v.major, v.minor, v.patch), numbers) {
        Ordering::Equal => compare_prereleases(v, c.identifiers),
        order => order,
    }
}

// Whether the version meets the comparator, if there is one.
#[tactic(auto, using(crate::proofs::Meeting::meetings))]
#[inline(always)]
fn meets(v: &Version<'_>, comparator: Option<Comparator<'_>>) -> bool
    ensures { result ≡ each (meets (version_is v.now)) (listed comparator.entry) }
{
    match comparator {
        Some(c) => holds(c.op, precedence(v, &c)),
        None => true,
    }
}

#[tactic(auto, using(crate::proofs::Meeting::meetings))]
fn meets_step(v: &Version<'_>, x: &Step<'_>) -> bool
    ensures { result ≡ each (meets (version_is v.now)) (step_gives (step_is x.now)) }
{
    meets(v, as_read(x)) && meets(v, raised(x))
}

// ---- all ranges

// Whether the version meets every comparator of some range. all: it meets those of this range so far.
#[tactic(auto, using(crate::proofs::Admitting::admitting))]
fn admits(set: &RangeSet<'_>, v: &Version<'_>) -> bool
    ensures { result ≡ admits_if admits (version_is v.now) (reading (compat_of set.now.compat) set.now.text.now) }
{
    let mut all = true;
    let mut step = Some(set.first);
    while let Some(x) = step {
        all &= meets_step(v, &x);
        if ends_range(&x) {
            if all {
                return true;
            }
            all = true;
        }
        step = x.following(set.compat);
    }
    false
}

// Whether the range text s admits the version. A range text to which one of 1 to 4 applies admits none. With `is_ok_and` in place of the match the
// proof did not close.
#[tactic(auto, using(crate::proofs::Admitting::calls))]
pub fn admits_held(s: &[u8], compat: Compat, v: &Version<'_>) -> bool
    ensures { result ≡ admits_if admits (version_is v.now) (reading (compat_of compat) s.now) }
{
    match RangeSet::parse(s, compat) {
        Ok(set) => admits(&set, v),
        Err(_) => false,
    }
}

// ---- the call

// The answer for a range text to which none of 1 to 4 applies. Who asks for many versions decides that once.
#[tactic(auto, using(crate::proofs::Admitting::versions))]
#[inline(always)]
pub fn admit_version(set: &RangeSet<'_>, t: &[u8]) -> Result<bool, Refusal>
    ensures { answer_of result ≡ admission_call (compat_of set.now.compat) set.now.text.now t.now }
{
    Ok(admits(set, &read_version(t)?))
}

// Whether the range text s admits the version text t.
#[tactic(auto, using(crate::proofs::Admitting::calls))]
pub fn admit(s: &[u8], compat: Compat, t: &[u8]) -> Result<bool, Refusal>
    ensures { answer_of result ≡ admission_call (compat_of compat) s.now t.now }
{
    admit_version(&RangeSet::parse(s, compat)?, t)
}
