// The normal text of a range text: a pass that counts its bytes, and a pass that writes them.
#![tactic(auto)]

ghost use Rattle.std.specs.Prelude.{◌≡◌, ◌+◌, ◌<◌, ◌≤◌, length, IfOk};
ghost use Rattle.rangeset.specs.Sets.{IsSetOf};
ghost use Rattle.rules.specs.Parse.{found_in};
ghost use Rattle.rules.specs.NormalText.{spell_identifiers};
ghost use Rattle.rules.specs.Answers.{normal_text, normal_text_call, normal_text_outcome, bytes_after};
ghost use Rattle.rules.specs.Walk.{spell_gap, spell_after, gap_after};
ghost use Rattle.range.specs.Views.{compat_of};
ghost use Rattle.rows.specs.Put.{Put};
ghost use Rattle.walk.specs.Views.{step_is};
ghost use Rattle.passes.specs.Views.{listed, step_gives};
ghost use Rattle.normal_text.specs.Views.{gap_of, gap_to, signed, length_of, length_with};

use lexer::{Ranges, before, skip_identifiers};
use partial::Comparator;
use passes::{as_read, raised};
use range::Compat;
use rangeset::RangeSet;
use refusals::Refusal;
use spelling::{comparator_len, put_bytes, put_comparator};
use walk::{Stage, Step};

// ---- between comparators

// What stands before the next comparator: nothing, at the start of the text; a blank; or the bars, at the start of a further range. An `Option`
// of the other two would be matched twice where this is matched once. No two gaps are compared.
#[derive(Clone, Copy)]
enum Gap {
    Start,
    Blank,
    Bars,
}

impl Gap {
    #[tactic(auto, unfolding(rules::specs::Walk::spell_gap))]
    fn spelling(self) -> &'static [u8]
        ensures { result.now ≡ spell_gap (gap_of self) }
    {
        match self {
            Gap::Start => b"",
            Gap::Blank => b" ",
            Gap::Bars => b" || ",
        }
    }

    // Behind a comparator, if there is one.
    fn after_comparator(self, c: Option<Comparator<'_>>) -> Gap
        ensures { gap_of result ≡ gap_after (gap_of self) (listed c.entry) }
    {
        if c.is_some() { Gap::Blank } else { self }
    }

    // Behind a step.
    #[tactic(auto, unfolding(passes::specs::Views::step_gives))]
    fn after_step(self, x: &Step<'_>) -> Gap
        ensures { gap_of result ≡ gap_to (step_is x.now).next.0 (gap_after (gap_of self) (step_gives (step_is x.now))) }
    {
        match x.next {
            Some((Stage::Range, _)) => Gap::Bars,
            _ if x.kept.is_some() || x.raised.is_some() => Gap::Blank,
            _ => self,
        }
    }
}

// ---- each length beside its writer: a refused call changes no lent byte (01), so that 7 is found by a pass that counts before the one that writes; writers
// as spelling's

// The identifiers of a comparator, with dots between: numbers have no leading zeros in the text, so they are spelled by its bytes.
#[tactic(auto, using(crate::proofs::Identified::identified))]
#[inline(always)]
fn identifiers<'a>(c: &Comparator<'a>) -> Option<&'a [u8]>
    ensures { signed result ≡ spell_identifiers (found_in c.now.identifiers.now) }
{
    if c.identifiers.is_empty() {
        return None;
    }
    let found = skip_identifiers::<Ranges>(c.identifiers)?;
    Some(before(found.text, found.left))
}

#[inline(always)]
fn identifiers_len(c: &Comparator<'_>) -> usize
    requires { length (spell_identifiers (found_in c.now.identifiers.now)) < 18446744073709551616 }
    ensures { result ≡ length (spell_identifiers (found_in c.now.identifiers.now)) }
{
    match identifiers(c) {
        Some(bytes) => 1 + bytes.len(),
        None => 0,
    }
}

#[inline(always)]
fn put_identifiers(out: &mut [u8], at: usize, c: &Comparator<'_>) -> usize
    requires { at + length (spell_identifiers (found_in c.now.identifiers.now)) ≤ length out.old }
    ensures { Put out.old at (spell_identifiers (found_in c.now.identifiers.now)) out.new result }
{
    let Some(bytes) = identifiers(c) else {
        return at;
    };
    out[at] = b'-';
    put_bytes(out, at + 1, bytes)
}

// A comparator behind a gap, if there is one.
#[tactic(auto, using(crate::proofs::Spelled::lengths))]
#[inline(always)]
fn after_len(gap: Gap, c: Option<Comparator<'_>>) -> usize
    requires { length (spell_after (gap_of gap) (listed c)) < 18446744073709551616 }
    ensures { result ≡ length (spell_after (gap_of gap) (listed c.entry)) }
{
    match c {
        Some(c) => gap.spelling().len() + comparator_len(&c) + identifiers_len(&c),
        None => 0,
    }
}

#[tactic(auto, using(crate::proofs::Spelled::puts))]
#[inline(always)]
fn put_after(out: &mut [u8], at: usize, gap: Gap, c: Option<Comparator<'_>>) -> usize
    requires { at + length (spell_after (gap_of gap) (listed c)) ≤ length out.old }
    ensures { Put out.old at (spell_after (gap_of gap) (listed c.entry)) out.new result }
{
    let Some(c) = c else {
        return at;
    };
    let i = put_bytes(out, at, gap.spelling());
    let j = put_comparator(out, i, &c);
    put_identifiers(out, j, &c)
}

// The comparators of a step.
#[tactic(auto, using(crate::proofs::Spelled::lengths))]
fn step_len(x: &Step<'_>, gap: Gap) -> usize
    requires { length (spell_after (gap_of gap) (step_gives (step_is x.now))) < 18446744073709551616 }
    ensures { result ≡ length (spell_after (gap_of gap) (step_gives (step_is x.now))) }
{
    let c = as_read(x);
    after_len(gap, c) + after_len(gap.after_comparator(c), raised(x))
}

#[tactic(auto, using(crate::proofs::Spelled::puts))]
fn put_step(out: &mut [u8], at: usize, gap: Gap, x: &Step<'_>) -> usize
    requires { at + length (spell_after (gap_of gap) (step_gives (step_is x.now))) ≤ length out.old }
    ensures { Put out.old at (spell_after (gap_of gap) (step_gives (step_is x.now))) out.new result }
{
    let c = as_read(x);
    let i = put_after(out, at, gap, c);
    put_after(out, i, gap.after_comparator(c), raised(x))
}

// ---- the text, counted and written as above

// How many bytes the normal text has.
#[tactic(auto, using(crate::proofs::Texts::counting_first))]
fn text_len(set: &RangeSet<'_>) -> usize
    ensures { result ≡ (normal_text_outcome (normal_text (compat_of set.now.compat) set.now.text.now)).length }
{
    let mut len = 0;
    let mut gap = Gap::Start;
    let mut step = Some(set.first);
    while let Some(x) = step {
        len += step_len(&x, gap);
        gap = gap.after_step(&x);
        step = x.following(set.compat);
    }
    len
}

// Writes it at the start of out.
#[tactic(auto, using(crate::proofs::Texts::putting_first))]
fn put_text(set: &RangeSet<'_>, out: &mut [u8])
    requires { (normal_text_outcome (normal_text (compat_of set.now.compat) set.now.text.now)).length ≤ length out.old }
    ensures { out.new ≡ bytes_after (normal_text (compat_of set.now.compat) set.now.text.now) out.old }
{
    let mut end = 0;
    let mut gap = Gap::Start;
    let mut step = Some(set.first);
    while let Some(x) = step {
        end = put_step(out, end, gap, &x);
        gap = gap.after_step(&x);
        step = x.following(set.compat);
    }
}

// ---- the call

// The range set that the text is, and the length of its normal text, where so many lent bytes are enough: 01's calls take a text, a mode and what is lent.
#[tactic(auto, using(crate::proofs::Calls::fits))]
#[inline(always)]
fn fit<'a>(s: &'a [u8], compat: Compat, lent: usize) -> Result<(RangeSet<'a>, usize), Refusal>
    ensures answer { length_with result ≡ normal_text_outcome (normal_text_call (compat_of compat) s.now lent) }
    ensures of { IfOk result (λ read. IsSetOf s.entry compat read.0) }
{
    // 01 asks for `let .. else` where a refused reading ends the call with the same number; a `?` would do as well.
    let read = RangeSet::parse(s, compat);
    let Ok(set) = read else {
        return Err(read.unwrap_err());
    };
    let len = text_len(&set);
    if len > lent {
        return Err(Refusal::BytesShort);
    }
    Ok((set, len))
}

// The answer of the call where so many bytes are lent, before anything is written: the length of the normal text, or a refusal.
pub fn normal_text_len(s: &[u8], compat: Compat, lent: usize) -> Result<usize, Refusal>
    ensures { length_of result ≡ normal_text_outcome (normal_text_call (compat_of compat) s.now lent) }
{
    Ok(fit(s, compat, lent)?.1)
}

// Writes the normal text at the start of the lent bytes and hands back its length, as 01 asks; later bytes keep theirs, and a refusal changes none.
#[tactic(auto, using(crate::proofs::Calls::calls))]
pub fn normal_text(s: &[u8], compat: Compat, out: &mut [u8]) -> Result<usize, Refusal>
    ensures answer { length_of result ≡ normal_text_outcome (normal_text_call (compat_of compat) s.now (length out.old)) }
    ensures bytes { out.new ≡ bytes_after (normal_text_call (compat_of compat) s.now (length out.old)) out.old }
{
    let (set, len) = fit(s, compat, out.len())?;
    put_text(&set, out);
    Ok(len)
}
