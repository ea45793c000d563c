// Partials: `parse_partial` and `Partial` of src/range.rs, with the operators and the comparators that a partial gives. A component that is
// missing is zero; the kind says which were read.
#![tactic(auto)]

ghost use Rattle.std.specs.Prelude.{◌≡◌, suc, Some, [], length, IfSome};
ghost use Rattle.std.proofs.Math.Option.{none};
ghost use Rattle.rules.specs.Bytes.{is_wild};
ghost use Rattle.rules.specs.Syntax.{x_range_only};
ghost use Rattle.rules.specs.Parse.{found_in, one_of, read_component, read_dot, after_two, after_one, read_partial};
ghost use Rattle.rules.specs.Rows.{op_code};
ghost use Rattle.rules.specs.NormalText.{spell_op};
ghost use Rattle.lexer.specs.Views.{rest_in, rest_of};
ghost use Rattle.partial.specs.Views.{op_of, partial_is, partial_in, partial_of, held, of_components, qualified, beginning, incremented, too_large, inc_major, inc_minor, inc_patch, zero_minor, zero_patch, no_pre, zero_missing, as_comparator};

use lexer::{Identifiers, read_dot_number, read_number, skip_dot, skip_number, skip_qualifier};

// ---- operators

// Associated constants and functions turn an operator into its code and its spelling: the form that 01 asks for.
#[derive(Clone, Copy, PartialEq, Eq)]
pub enum Op {
    Lt,
    Lte,
    Gt,
    Gte,
    Eq,
}

impl Op {
    pub const LT: u64 = 0;

    pub const LTE: u64 = 1;

    pub const GT: u64 = 2;

    pub const GTE: u64 = 3;

    pub const EQ: u64 = 4;

    pub fn code(self) -> u64
        ensures { result ≡ op_code (op_of self) }
    {
        match self {
            Op::Lt => Op::LT,
            Op::Lte => Op::LTE,
            Op::Gt => Op::GT,
            Op::Gte => Op::GTE,
            Op::Eq => Op::EQ,
        }
    }

    #[tactic(auto, unfolding(rules::specs::NormalText::spell_op))]
    pub fn spelling(self) -> &'static [u8]
        ensures { result.now ≡ spell_op (op_of self) }
    {
        match self {
            Op::Lt => b"<",
            Op::Lte => b"<=",
            Op::Gt => b">",
            Op::Gte => b">=",
            Op::Eq => b"=",
        }
    }
}

// ---- partials

// By how many components were read.
#[derive(Clone, Copy, PartialEq, Eq)]
pub enum PartialKind {
    XRangeOnly,
    MajorOnly,
    MajorMinor,
    MajorMinorPatch,
}

// A kind and three numbers by value, as 01 has it in place of `Option` components. A component that was read and is above the largest number is
// given as that, and marked: large. Where one could not be raised, over. They are marks and no refusals, since 01 refuses a number only once the
// whole text is known to be a range's. The identifiers are count many, and what the text of that name begins with; where there are none, it is empty.
// The three fields of one byte stand together, and last: the bytes between fields are copied with them, and where these stand tells what that costs
// (docs/DECISIONS.md).
#[derive(Clone, Copy)]
pub struct Partial<'a> {
    pub major: u64,
    pub minor: u64,
    pub patch: u64,
    pub count: usize,
    pub identifiers: &'a [u8],
    pub kind: PartialKind,
    pub large: bool,
    pub over: bool,
}

// An operator, the numbers, and the identifiers; over as in the partial. Five fields are those of `Partial`, and of a version: a struct of them
// would put its name before each where it is read, and has nothing to do of its own.
#[derive(Clone, Copy)]
pub struct Comparator<'a> {
    pub op: Op,
    pub major: u64,
    pub minor: u64,
    pub patch: u64,
    pub count: usize,
    pub identifiers: &'a [u8],
    pub over: bool,
}

// One more, where that is not too large; hands back the mark `over`, and no refusal, for the reason at `Partial`.
fn increment(component: &mut u64) -> bool
    ensures value { component.new ≡ incremented component.old }
    ensures over { result ≡ too_large (suc component.old) }
{
    match component.checked_add(1) {
        Some(more) => {
            *component = more;
            false
        }
        None => true,
    }
}

impl<'a> Partial<'a> {
    // Of these components, each with nothing where it is above the largest number; those that are missing are 0.
    #[tactic(auto, unfolding(crate::proofs::Opened::nothing))]
    fn new(kind: PartialKind, major: Option<u64>, minor: Option<u64>, patch: Option<u64>) -> Self
        ensures answer { partial_is result ≡ of_components kind major minor patch }
        ensures text { result.identifiers.now ≡ [] }
    {
        Partial {
            kind,
            major: major.unwrap_or(u64::MAX),
            minor: minor.unwrap_or(u64::MAX),
            patch: patch.unwrap_or(u64::MAX),
            large: major.is_none() | minor.is_none() | patch.is_none(),
            over: false,
            count: 0,
            identifiers: &[],
        }
    }

    // No component is read.
    #[tactic(auto, unfolding(crate::proofs::Opened::readers))]
    #[inline(always)]
    pub fn zero() -> Self
        ensures answer { partial_is result ≡ held x_range_only }
        ensures text { result.identifiers.now ≡ [] }
    {
        Partial::new(PartialKind::XRangeOnly, Some(0), Some(0), Some(0))
    }

    // With these identifiers.
    fn with(mut self, found: Identifiers<'a>) -> Self
        ensures answer { partial_is result ≡ qualified (partial_is self.entry) found.entry.count (found_in found.entry.text.now) }
        ensures text { result.identifiers ≡ found.entry.text }
    {
        self.count = found.count;
        self.identifiers = found.text;
        self
    }

    // Each field is named: a comparator has neither the kind nor the mark `large`.
    pub fn as_comparator(self, op: Op) -> Comparator<'a>
        ensures { result ≡ as_comparator self.entry op }
    {
        Comparator {
            op,
            major: self.major,
            minor: self.minor,
            patch: self.patch,
            count: self.count,
            identifiers: self.identifiers,
            over: self.over,
        }
    }

    // 01 asks for methods that hand the partial back, in place of the source's `&mut self` chains; as there, each component has its own. The clause `text`,
    // here and below: the rules' partials have identifiers and no text, so `Held` does not say that a method hands back the same one.
    pub fn inc_major(mut self) -> Partial<'a>
        ensures answer { partial_is result ≡ inc_major (partial_is self.entry) }
        ensures text { result.identifiers ≡ self.entry.identifiers }
    {
        self.over |= increment(&mut self.major);
        self
    }

    pub fn inc_minor(mut self) -> Partial<'a>
        ensures answer { partial_is result ≡ inc_minor (partial_is self.entry) }
        ensures text { result.identifiers ≡ self.entry.identifiers }
    {
        self.over |= increment(&mut self.minor);
        self
    }

    pub fn inc_patch(mut self) -> Partial<'a>
        ensures answer { partial_is result ≡ inc_patch (partial_is self.entry) }
        ensures text { result.identifiers ≡ self.entry.identifiers }
    {
        self.over |= increment(&mut self.patch);
        self
    }

    pub fn zero_missing(mut self) -> Partial<'a>
        ensures answer { partial_is result ≡ zero_missing (partial_is self.entry) }
        ensures text { result.identifiers ≡ self.entry.identifiers }
    {
        match self.kind {
            PartialKind::XRangeOnly => {
                self.major = 0;
                self.zero_minor().zero_patch()
            }
            PartialKind::MajorOnly => self.zero_minor().zero_patch(),
            PartialKind::MajorMinor => self.zero_patch(),
            PartialKind::MajorMinorPatch => self,
        }
    }

    pub fn zero_minor(mut self) -> Partial<'a>
        ensures answer { partial_is result ≡ zero_minor (partial_is self.entry) }
        ensures text { result.identifiers ≡ self.entry.identifiers }
    {
        self.minor = 0;
        self
    }

    pub fn zero_patch(mut self) -> Partial<'a>
        ensures answer { partial_is result ≡ zero_patch (partial_is self.entry) }
        ensures text { result.identifiers ≡ self.entry.identifiers }
    {
        self.patch = 0;
        self
    }

    #[tactic(auto, unfolding(crate::proofs::Opened::nothing))]
    pub fn no_pre(mut self) -> Partial<'a>
        ensures answer { partial_is result ≡ no_pre (partial_is self.entry) }
        ensures text { result.identifiers.now ≡ [] }
    {
        self.count = 0;
        self.identifiers = &[];
        self
    }
}

// ---- what stands behind a wildcard: not read, and well formed all the same

#[tactic(auto, unfolding(crate::proofs::Opened::readers))]
fn skip_wildcard(s: &[u8]) -> Option<&[u8]>
    ensures { rest_in result ≡ rest_of (one_of is_wild s.now) }
{
    match s {
        [b, left @ ..] if lexer::is_wild(*b) => Some(left),
        _ => None,
    }
}

#[tactic(auto, unfolding(crate::proofs::Opened::readers))]
fn skip_component(s: &[u8]) -> Option<&[u8]>
    ensures { rest_in result ≡ rest_of (read_component s.now) }
{
    skip_wildcard(s).or_else(|| skip_number(s))
}

// A dot and a component.
#[tactic(auto, unfolding(crate::proofs::Opened::readers))]
fn skip_dot_component(s: &[u8]) -> Option<&[u8]>
    ensures { rest_in result ≡ rest_of (read_dot s.now) }
{
    skip_component(skip_dot(s)?)
}

// Behind the second component.
#[tactic(auto, unfolding(crate::proofs::Opened::readers))]
fn skip_after_two(s: &[u8]) -> &[u8]
    ensures { Some result.now ≡ rest_of (after_two none none s.now) }
{
    match skip_dot_component(s) {
        Some(left) => skip_qualifier(left).left,
        None => s,
    }
}

// Behind the first component.
#[tactic(auto, unfolding(crate::proofs::Opened::readers))]
fn skip_after_one(s: &[u8]) -> &[u8]
    ensures { Some result.now ≡ rest_of (after_one none s.now) }
{
    match skip_dot_component(s) {
        Some(left) => skip_after_two(left),
        None => s,
    }
}

// ---- a partial: each component that is a number is read, up to the first that is none

// A partial, and what is left behind it.
#[tactic(auto, using(crate::proofs::Components::partials))]
#[inline(always)]
pub fn read_partial(s: &[u8]) -> Option<(Partial<'_>, &[u8])>
    ensures answer { partial_in result ≡ partial_of (read_partial s.now) }
    ensures text { IfSome result (λ read. read.0.identifiers.now ≡ beginning s.now) }
{
    let Some(major) = read_number(s) else {
        let left = skip_wildcard(s)?;
        return Some((Partial::zero(), skip_after_one(left)));
    };
    let Some(minor) = read_dot_number(major.left) else {
        let p = Partial::new(PartialKind::MajorOnly, major.value, Some(0), Some(0));
        return Some((p, skip_after_one(major.left)));
    };
    let Some(patch) = read_dot_number(minor.left) else {
        let p = Partial::new(PartialKind::MajorMinor, major.value, minor.value, Some(0));
        return Some((p, skip_after_two(minor.left)));
    };
    let q = skip_qualifier(patch.left);
    let p = Partial::new(
        PartialKind::MajorMinorPatch,
        major.value,
        minor.value,
        patch.value,
    );
    Some((p.with(q), q.left))
}
