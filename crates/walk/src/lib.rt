// The walk over a range set: `RangeSet::parse` of src/range_set.rs reads ranges and their parts one behind another. Here one step reads a piece,
// which is an item or a side of a hyphen range, and expands it; every pass over a text is one loop over steps.
#![tactic(auto)]

ghost use Rattle.std.specs.Prelude.{◌≡◌, true, false, [], IfSome};
ghost use Rattle.rules.specs.Parse.{spaces₁, read_partial};
ghost use Rattle.rules.specs.Expansion as E;
ghost use Rattle.rules.specs.Walk as W;
ghost use Rattle.lexer.specs.Views.{rest_in, rest_of};
ghost use Rattle.partial.specs.Views.{beginning};
ghost use Rattle.range.specs.Views.{compat_of, prefix_of, shape_of, shape_in};
ghost use Rattle.walk.specs.declared.Stage.TheVariants.{Right};
ghost use Rattle.walk.specs.Views.{stage_of, behind_is, behind_in, closed_is, closed_in, next_is, next_behind, behind_next, expansion_behind, is_range, begin_text, unread, item_in, item_of, item_end, end_text, step_in, step_of, step_at, partial_text, Begins, ItemStep};

use lexer::{Class, Space, skip_bytes, skip_spaces};
use partial::{Op, Partial, PartialKind, read_partial};
use range::{Compat, Component, Expansion, Prefix, hyphen_left, hyphen_right, read_prefix, simple};

// ---- what stands behind a piece

// Behind an item: a further one of the same range; a further range; behind the dash, the right side of a hyphen range; the text's end. The end is one of
// the four, since `follow` answers none where nothing may follow. No two are compared.
#[derive(Clone, Copy)]
pub enum Behind<'a> {
    Item(&'a [u8]),
    Range(&'a [u8]),
    Dash(&'a [u8]),
    End,
}

// Behind a range and spaces: a further range, behind the separator; or the text's end, with nothing.
#[tactic(auto, unfolding(crate::proofs::Opened::readers))]
#[inline(always)]
fn closes(s: &[u8]) -> Option<Option<&[u8]>>
    ensures { closed_in result ≡ W.closes s.now }
{
    if s.is_empty() {
        return Some(None);
    }
    Some(Some(skip_bytes(s, b"||")?))
}

#[tactic(auto, unfolding(crate::proofs::Opened::readers))]
#[inline(always)]
fn after_range(s: &[u8]) -> Option<Option<&[u8]>>
    ensures { closed_in result ≡ W.after_range s.now }
{
    closes(skip_spaces(s))
}

// One or more spaces.
#[tactic(auto, unfolding(crate::proofs::Opened::readers))]
#[inline(always)]
fn skip_some_spaces(s: &[u8]) -> Option<&[u8]>
    ensures { rest_in result ≡ rest_of (spaces₁ s.now) }
{
    match s {
        [b, left @ ..] if Space::has(*b) => Some(skip_spaces(left)),
        _ => None,
    }
}

// Behind an item: the byte decides.
#[tactic(auto, unfolding(crate::proofs::Opened::readers))]
fn after_item(s: &[u8]) -> Option<Behind<'_>>
    ensures { behind_in result ≡ W.continues false false s.now }
{
    match s {
        [] | [b'|', ..] => Some(closes(s)?.map_or(Behind::End, Behind::Range)),
        [b',', left @ ..] => Some(Behind::Item(skip_some_spaces(left)?)),
        _ => None,
    }
}

// Behind an item and spaces. What ends an item ends it behind spaces too.
#[tactic(auto, unfolding(crate::proofs::Opened::readers))]
fn after_spaces(s: &[u8], dashed: bool) -> Option<Behind<'_>>
    ensures { behind_in result ≡ W.continues dashed true s.now }
{
    match s {
        [] | [b'|', ..] => Some(closes(s)?.map_or(Behind::End, Behind::Range)),
        [b'-', left @ ..] if dashed => Some(Behind::Dash(skip_some_spaces(left)?)),
        _ => Some(Behind::Item(s)),
    }
}

// dashed: whether a dash may stand there, as behind a bare item that begins a range. An enum would say the same two cases in other words.
#[tactic(auto, using(crate::proofs::Gaps::gaps))]
fn follow(s: &[u8], dashed: bool) -> Option<Behind<'_>>
    ensures { behind_in result ≡ W.follow dashed s.now }
{
    match skip_some_spaces(s) {
        Some(left) => after_spaces(left, dashed),
        None => after_item(s),
    }
}

// ---- a step

// Where a step begins: an item of the same range; a range; the right side of a hyphen range, with a left side of this kind.
#[derive(Clone, Copy, PartialEq, Eq)]
pub enum Stage {
    Item,
    Range,
    Right(PartialKind),
}

// A piece, expanded: the partial, whose numbers as they stand go under the operator that is kept, and of which a component is raised. Its item begins
// where `begin` does, with its operator if it has one, and behind the partial stands `end`. The next step begins at a stage, unless the text ends.
// The two of an expansion stand in the step itself, since every pass reads them; the partial stands last, as its fields of one byte do in it.
#[derive(Clone, Copy)]
pub struct Step<'a> {
    pub kept: Option<Op>,
    pub raised: Option<Component>,
    pub next: Option<(Stage, &'a [u8])>,
    pub begin: &'a [u8],
    pub end: &'a [u8],
    pub partial: Partial<'a>,
}

// Where the next step begins behind an item; the right side of a hyphen range has it as its left side, of this kind.
fn next_at(behind: Behind<'_>, left: PartialKind) -> Option<(Stage, &[u8])>
    ensures { next_is result ≡ next_behind (behind_is behind.entry) (stage_of (Right left)) }
{
    match behind {
        Behind::Item(text) => Some((Stage::Item, text)),
        Behind::Range(text) => Some((Stage::Range, text)),
        Behind::Dash(text) => Some((Stage::Right(left), text)),
        Behind::End => None,
    }
}

// Behind a range.
fn next_range(closed: Option<&[u8]>) -> Option<(Stage, &[u8])>
    ensures { behind_next (next_is result) ≡ closed_is closed.entry }
{
    Some((Stage::Range, closed?))
}

// ---- a piece of the text

// No item: every version.
#[tactic(auto, unfolding(crate::proofs::Opened::readers))]
fn everything(s: &[u8]) -> Option<Step<'_>>
    ensures answer { step_in result ≡ step_of s.now s.now (W.step_to E.everything (W.after_range s.now)) }
    ensures text { IfSome result (λ x. x.partial.identifiers.now ≡ []) }
{
    let closed = after_range(s)?;
    Some(Step {
        kept: Some(Op::Gte),
        raised: None,
        partial: Partial::zero(),
        next: next_range(closed),
        begin: s,
        end: s,
    })
}

// What stands before an item's partial, and its text.
#[tactic(auto, unfolding(crate::proofs::Opened::readers))]
fn read_lead(s: &[u8]) -> (Option<Prefix>, &[u8])
    ensures prefix { prefix_of result.0 ≡ W.prefix_at s.now }
    ensures left { result.1.now ≡ W.partial_at s.now }
{
    match read_prefix(s) {
        Some((prefix, left)) => (Some(prefix), skip_spaces(left)),
        None => (None, s),
    }
}

// An item, or the left side of a hyphen range, by what follows it: two functions of other arguments.
#[tactic(auto, using(crate::proofs::Steps::left_any), unfolding(crate::proofs::Opened::readers))]
fn expanded(
    prefix: Option<Prefix>,
    partial: &Partial<'_>,
    behind: Behind<'_>,
    compat: Compat,
) -> Expansion
    ensures { result ≡ expansion_behind (compat_of compat) (prefix_of prefix) (shape_in partial.now) (behind_is behind.entry) }
{
    match behind {
        Behind::Dash(_) => hyphen_left(partial.kind),
        _ => simple(prefix, partial, compat),
    }
}

// What is read of an item: its prefix and its partial; behind it `end` is left.
#[derive(Clone, Copy)]
struct Item<'a> {
    prefix: Option<Prefix>,
    partial: Partial<'a>,
    end: &'a [u8],
}

#[tactic(auto, unfolding(crate::proofs::Opened::readers))]
fn read_item(s: &[u8]) -> Option<Item<'_>>
    ensures answer { item_in result ≡ item_of s.now (read_partial (W.partial_at s.now)) }
    ensures text { IfSome result (λ item. item.partial.identifiers.now ≡ beginning (W.partial_at s.now)) }
{
    let (prefix, text) = read_lead(s);
    let (partial, end) = read_partial(text)?;
    Some(Item {
        prefix,
        partial,
        end,
    })
}

// The step of an item that begins where s does. The first one of a range may be the left side of a hyphen range, if it is bare (`first` is a question
// of two answers, as `dashed`).
#[tactic(auto, unfolding(crate::proofs::Opened::readers))]
fn item_step<'a>(s: &'a [u8], item: &Item<'a>, first: bool, compat: Compat) -> Option<Step<'a>>
    ensures answer { ItemStep (compat_of compat) first s.now item.now result }
    ensures text { IfSome result (λ x. x.partial.identifiers ≡ item.now.partial.identifiers) }
{
    let behind = follow(item.end, first & item.prefix.is_none())?;
    let e = expanded(item.prefix, &item.partial, behind, compat);
    Some(Step {
        kept: e.kept,
        raised: e.raised,
        partial: item.partial,
        next: next_at(behind, item.partial.kind),
        begin: s,
        end: item.end,
    })
}

// The right side of a hyphen range with a left side of this kind.
#[tactic(auto, unfolding(crate::proofs::Opened::readers))]
fn right_step(s: &[u8], left: PartialKind) -> Option<Step<'_>>
    ensures answer { step_in result ≡ step_of s.now (end_text W.right s.now) (W.next_right (shape_of left 0 0) s.now) }
    ensures text { IfSome result (Begins s.now) }
{
    let (partial, end) = read_partial(s)?;
    let closed = after_range(end)?;
    let e = hyphen_right(left, partial.kind);
    Some(Step {
        kept: e.kept,
        raised: e.raised,
        partial,
        next: next_range(closed),
        begin: s,
        end,
    })
}

// An item, if there is one. Where none is, a range is empty; a further item is owed behind what ends one.
#[tactic(auto, using(crate::proofs::Steps::unread_begins), unfolding(crate::proofs::Opened::readers))]
fn item_at(s: &[u8], first: bool, compat: Compat) -> Option<Step<'_>>
    ensures answer { step_in result ≡ step_of s.now (item_end s.now) (W.next_item (compat_of compat) first (unread first s.now) s.now) }
    ensures text { IfSome result (Begins (W.partial_at s.now)) }
{
    match &read_item(s) {
        Some(item) => item_step(s, item, first, compat),
        None => {
            if first {
                return everything(s);
            }
            None
        }
    }
}

// Where an item begins at this stage, behind the spaces before a range; and whether it is a range's first.
fn item_from(s: &[u8], stage: Stage) -> (&[u8], bool)
    ensures begin { result.0.now ≡ begin_text (stage_of stage) s.now }
    ensures first { result.1 ≡ is_range (stage_of stage) }
{
    match stage {
        Stage::Range => (skip_spaces(s), true),
        Stage::Item | Stage::Right(_) => (s, false),
    }
}

// One piece, expanded, and where the next one begins; nothing where there is no reading from here on. A match on the stage, which a step hands on: a
// function in its place would be handed out, which the gate refuses. An item is read at one place for both its stages, so that the compiler writes its
// reader into this one.
#[tactic(auto, using(crate::proofs::Steps::right_at), unfolding(crate::proofs::Opened::readers))]
pub fn next(s: &[u8], stage: Stage, compat: Compat) -> Option<Step<'_>>
    ensures answer { step_in result ≡ step_at (compat_of compat) (stage_of stage) s.now }
    ensures text { IfSome result (Begins (partial_text (stage_of stage) s.now)) }
{
    if let Stage::Right(left) = stage {
        return right_step(s, left);
    }
    let (begin, first) = item_from(s, stage);
    item_at(begin, first, compat)
}

impl<'a> Step<'a> {
    // The step behind this one; nothing where the text ends, or has no reading from there on. The passes go on by it in a `while let`: an iterator over
    // the steps would be a struct, an `impl` and its ghost members, to save two lines in each of four loops.
    #[tactic(auto, unfolding(crate::proofs::Opened::readers))]
    pub fn following(&self, compat: Compat) -> Option<Step<'a>>
        ensures answer { step_in result ≡ step_at (compat_of compat) (next_is self.now.next).0 (next_is self.now.next).1 }
        ensures text { IfSome result (Begins (partial_text (next_is self.now.next).0 (next_is self.now.next).1)) }
    {
        let (stage, text) = self.next?;
        next(text, stage, compat)
    }
}
