// Items and hyphen ranges: `simple`, `handle_caret_range` and `from_hyphen_range` of src/range.rs. What stands before a partial is read, and
// an expansion says which comparators the partial gives. It depends on the partial's kind and on which of its numbers are zero.
#![tactic(auto)]

ghost use Rattle.std.specs.Prelude.{◌≡◌};
ghost use Rattle.rules.specs.Syntax.{item};
ghost use Rattle.rules.specs.Parse.{read_prefix};
ghost use Rattle.rules.specs.Expansion.{mode_number, mode_from, expand_eq, caret_raises, expand_caret, expand_tilde, expand_bare, expand_op, expand_item, expand_left, expand_right};
ghost use Rattle.partial.specs.Views.{op_of, partial_is};
ghost use Rattle.range.specs.Views.{compat_of, mode_is, prefix_of, lead_is, lead_in, longer_of, raised_of, expanding, expansion_of, shape_of, shape_in, raised_partial, raised_text};

use lexer::skip_bytes;
use partial::{Op, Partial, PartialKind};

// The mode.
#[derive(Clone, Copy, PartialEq, Eq)]
pub enum Compat {
    Cargo,
    Npm,
}

// The mode's number.
impl From<Compat> for u8 {
    ghost from_gives = { λ m n. n ≡ mode_number (compat_of m) };

    fn from(compat: Compat) -> u8 {
        match compat {
            Compat::Cargo => 0,
            Compat::Npm => 1,
        }
    }
}

// A number that is no mode's.
#[derive(Clone, Copy, PartialEq, Eq)]
pub struct UnknownMode;

// The mode with a number.
impl TryFrom<u8> for Compat {
    type Error = UnknownMode;

    ghost try_from_gives = { λ n r. mode_is r ≡ mode_from n };

    #[tactic(auto, unfolding(rules::specs::Expansion::mode_from))]
    fn try_from(number: u8) -> Result<Compat, UnknownMode> {
        match number {
            0 => Ok(Compat::Cargo),
            1 => Ok(Compat::Npm),
            _ => Err(UnknownMode),
        }
    }
}

// ---- what stands before a partial

// A bare partial has none.
#[derive(Clone, Copy, PartialEq, Eq)]
pub enum Prefix {
    Tilde,
    Caret,
    Op(Op),
}

// The longer of two prefixes that begin alike, if it stands at the start of s; else the shorter one, behind whose byte left is left.
#[tactic(auto, unfolding(lexer::proofs::Opened::readers))]
fn longer<'a>(
    s: &'a [u8],
    bytes: &[u8],
    prefix: Prefix,
    shorter: Prefix,
    left: &'a [u8],
) -> (Prefix, &'a [u8])
    ensures { lead_is result ≡ longer_of s.now bytes.now prefix shorter left.now }
{
    match skip_bytes(s, bytes) {
        Some(behind) => (prefix, behind),
        None => (shorter, left),
    }
}

// What is read before a partial, and what is left behind it. 01 asks for fixed byte strings that are compared at the current place, so the first byte
// has an arm for each of them.
#[tactic(auto, unfolding(crate::proofs::Opened::readers))]
pub fn read_prefix(s: &[u8]) -> Option<(Prefix, &[u8])>
    ensures { lead_in result ≡ read_prefix s.now }
{
    match s {
        [b'<', left @ ..] => Some(longer(s, b"<=", Prefix::Op(Op::Lte), Prefix::Op(Op::Lt), left)),
        [b'>', left @ ..] => Some(longer(s, b">=", Prefix::Op(Op::Gte), Prefix::Op(Op::Gt), left)),
        [b'~', left @ ..] => Some(longer(s, b"~>", Prefix::Tilde, Prefix::Tilde, left)),
        [b'=', left @ ..] => Some((Prefix::Op(Op::Eq), left)),
        [b'^', left @ ..] => Some((Prefix::Caret, left)),
        _ => None,
    }
}

// ---- expansions. 01 asks for a match on the operator and the partial's kind that picks the expansion: each function is one of its tables, an arm for
// each row, and behind an arm stands what it expands. Two tables are two functions, since they differ in nothing but their rows.

#[derive(Clone, Copy, PartialEq, Eq)]
pub enum Component {
    Major,
    Minor,
    Patch,
}

// The operator of the comparator with the components as read, if there is one; and the component that is raised in an added `<`, if there is one.
#[derive(Clone, Copy, PartialEq, Eq)]
pub struct Expansion {
    pub kept: Option<Op>,
    pub raised: Option<Component>,
}

impl Expansion {
    // So a row of a table is a line.
    fn new(kept: Option<Op>, raised: Option<Component>) -> Expansion
        ensures { result ≡ expanding kept raised }
    {
        Expansion { kept, raised }
    }
}

// `=`; and a bare partial that is not full.
#[tactic(auto, unfolding(crate::proofs::Opened::expansions))]
fn equals(kind: PartialKind) -> Expansion
    ensures { result ≡ expansion_of (expand_eq (shape_of kind 0 0)) }
{
    match kind {
        PartialKind::XRangeOnly => Expansion::new(Some(Op::Gte), None), // =*
        PartialKind::MajorOnly => Expansion::new(Some(Op::Gte), Some(Component::Major)), // =1
        PartialKind::MajorMinor => Expansion::new(Some(Op::Gte), Some(Component::Minor)), // =1.2
        PartialKind::MajorMinorPatch => Expansion::new(Some(Op::Eq), None), // =1.2.3
    }
}

#[tactic(auto, unfolding(crate::proofs::Opened::expansions))]
fn tilde(kind: PartialKind) -> Expansion
    ensures { result ≡ expansion_of (expand_tilde (shape_of kind 0 0)) }
{
    match kind {
        PartialKind::XRangeOnly => Expansion::new(Some(Op::Gte), None), // ~*
        PartialKind::MajorOnly => Expansion::new(Some(Op::Gte), Some(Component::Major)), // ~1
        _ => Expansion::new(Some(Op::Gte), Some(Component::Minor)), // ~1.2, ~1.2.3
    }
}

// The component that a caret raises.
#[tactic(auto, unfolding(crate::proofs::Opened::expansions))]
fn caret_raises(p: &Partial<'_>) -> Option<Component>
    ensures { result ≡ raised_of (caret_raises (shape_in p.now)) }
{
    match (p.kind, p.major, p.minor) {
        (PartialKind::XRangeOnly, _, _) => None, // ^*
        (PartialKind::MajorMinor, 0, _) => Some(Component::Minor), // ^0.2
        (PartialKind::MajorMinorPatch, 0, 0) => Some(Component::Patch), // ^0.0.3
        (PartialKind::MajorMinorPatch, 0, _) => Some(Component::Minor), // ^0.2.3
        _ => Some(Component::Major), // ^1
    }
}

#[tactic(auto, unfolding(crate::proofs::Opened::expansions))]
fn handle_caret_range(p: &Partial<'_>) -> Expansion
    ensures { result ≡ expansion_of (expand_caret (shape_in p.now)) }
{
    Expansion::new(Some(Op::Gte), caret_raises(p))
}

// A partial alone: a full one is read as its caret under Cargo.
#[tactic(auto, unfolding(crate::proofs::Opened::expansions))]
fn bare(p: &Partial<'_>, compat: Compat) -> Expansion
    ensures { result ≡ expansion_of (expand_bare (compat_of compat) (shape_in p.now)) }
{
    match (compat, p.kind) {
        (Compat::Cargo, PartialKind::MajorMinorPatch) => handle_caret_range(p),
        _ => equals(p.kind),
    }
}

// An operator.
#[tactic(auto, unfolding(crate::proofs::Opened::expansions))]
fn primitive(op: Op, kind: PartialKind) -> Expansion
    ensures { result ≡ expansion_of (expand_op (op_of op) (shape_of kind 0 0)) }
{
    match op {
        Op::Lt => Expansion::new(Some(Op::Lt), None),
        Op::Lte => match kind {
            PartialKind::XRangeOnly => Expansion::new(Some(Op::Gte), None), // <=*
            PartialKind::MajorOnly => Expansion::new(None, Some(Component::Major)), // <=1
            PartialKind::MajorMinor => Expansion::new(None, Some(Component::Minor)), // <=1.2
            PartialKind::MajorMinorPatch => Expansion::new(Some(Op::Lte), None), // <=1.2.3
        },
        Op::Gt => match kind {
            PartialKind::XRangeOnly => Expansion::new(Some(Op::Lt), None), // >*
            _ => Expansion::new(Some(Op::Gt), None), // >1, >1.2, >1.2.3
        },
        Op::Gte => Expansion::new(Some(Op::Gte), None),
        Op::Eq => equals(kind),
    }
}

// An item: a partial, and what stands before it.
#[tactic(auto, unfolding(crate::proofs::Opened::expansions))]
pub fn simple(prefix: Option<Prefix>, p: &Partial<'_>, compat: Compat) -> Expansion
    ensures { result ≡ expansion_of (expand_item (compat_of compat) (item (prefix_of prefix) (shape_in p.now))) }
{
    match prefix {
        None => bare(p, compat),
        Some(Prefix::Tilde) => tilde(p.kind),
        Some(Prefix::Caret) => handle_caret_range(p),
        Some(Prefix::Op(op)) => primitive(op, p.kind),
    }
}

// ---- the two sides of a hyphen range

#[tactic(auto, unfolding(crate::proofs::Opened::expansions))]
pub fn hyphen_left(kind: PartialKind) -> Expansion
    ensures { result ≡ expansion_of (expand_left (shape_of kind 0 0)) }
{
    match kind {
        PartialKind::XRangeOnly => Expansion::new(None, None), // * - ..
        _ => Expansion::new(Some(Op::Gte), None), // 1 - .., 1.2 - .., 1.2.3 - ..
    }
}

#[tactic(auto, unfolding(crate::proofs::Opened::expansions))]
pub fn hyphen_right(left: PartialKind, kind: PartialKind) -> Expansion
    ensures { result ≡ expansion_of (expand_right (shape_of left 0 0) (shape_of kind 0 0)) }
{
    match (left, kind) {
        (PartialKind::XRangeOnly, PartialKind::XRangeOnly) => Expansion::new(Some(Op::Gte), None), // * - *
        (_, PartialKind::XRangeOnly) => Expansion::new(None, None), // 1 - *, 1.2 - *, 1.2.3 - *
        (_, PartialKind::MajorOnly) => Expansion::new(None, Some(Component::Major)), // .. - 1
        (_, PartialKind::MajorMinor) => Expansion::new(None, Some(Component::Minor)), // .. - 1.2
        (_, PartialKind::MajorMinorPatch) => Expansion::new(Some(Op::Lte), None), // .. - 1.2.3
    }
}

// ---- the comparators of an expansion

// The partial of an added `<`: the raised component one more, those behind it zero, and no identifiers. Where none is raised, the partial itself: who
// asks for the mark `over` needs no case for that. Each component has its own chain of methods, which a closure would only move to the caller.
#[tactic(auto, unfolding(crate::proofs::Opened::expansions))]
pub fn raise(p: Partial<'_>, raised: Option<Component>) -> Partial<'_>
    ensures answer { partial_is result ≡ raised_partial raised (partial_is p.entry) }
    ensures text { result.identifiers.now ≡ raised_text raised p.entry.identifiers.now }
{
    match raised {
        Some(Component::Major) => p.inc_major().zero_minor().zero_patch().no_pre(),
        Some(Component::Minor) => p.inc_minor().zero_patch().no_pre(),
        Some(Component::Patch) => p.inc_patch().no_pre(),
        None => p,
    }
}
