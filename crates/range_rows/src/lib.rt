// The rows of a text, range by range (01): each range's rows are written into the free rest of the lent words. Each comparator's row has the
// place and the length of its item (02, N2).
#![tactic(auto)]

ghost use Rattle.std.specs.Prelude.{◌≡◌, ◌-◌, ◌*◌, ◌≤◌, false, length};
ghost use Rattle.rules.specs.Rows.{comparator_width};
ghost use Rattle.rules.specs.Answers.{reading, comparator_words_after, identifier_words_after};
ghost use Rattle.lexer.specs.Views.{rest_in};
ghost use Rattle.range.specs.Views.{compat_of};
ghost use Rattle.walk.specs.Views.{next_is, step_is};
ghost use Rattle.rows.specs.Put.{Put};
ghost use Rattle.passes.proofs.Ends.{is_side};
ghost use Rattle.step_rows.specs.Views.{item_at};
ghost use Rattle.range_rows.specs.Views.{further_in, side_in, sides, range_words, range_names, AtRange, BehindRange};

use rangeset::RangeSet;
use rows::Item;
use step_rows::{Written, put_step};
use walk::{Stage, Step, next};

// ---- what stands behind a step

// A further item of the same range.
fn further_item(next: Option<(Stage, &[u8])>) -> Option<&[u8]>
    ensures { rest_in result ≡ further_in (next_is next.entry) }
{
    match next {
        Some((Stage::Item, left)) => Some(left),
        _ => None,
    }
}

// The right side of a hyphen range: the same match over another stage, and the stage is handed on.
fn right_side(next: Option<(Stage, &[u8])>) -> Option<(Stage, &[u8])>
    ensures { sides result ≡ side_in (next_is next.entry) }
{
    match next {
        Some((Stage::Right(_), _)) => next,
        _ => None,
    }
}

// ---- a range

// How many words a range's rows take, and where the next range begins: a place and no step, whose many fields would be copied with it. The loops read the
// step there; that there is one is what the set's measure has found.
#[derive(Clone, Copy)]
struct RangeEnd<'a> {
    written: Written,
    next: Option<(Stage, &'a [u8])>,
}

// The item of s that begins where `begin` does, and behind which `end` stands. Its place and its size are computed here alone: a slice does not tell where
// in the text it stands.
#[tactic(auto, unfolding(step_rows::specs::Views::item_at))]
fn item_of(s: &[u8], range: u64, begin: &[u8], end: &[u8]) -> Item
    requires within { length begin.now ≤ length s.now }
    requires least { length end.now ≤ length begin.now }
    ensures { result ≡ item_at (length s.now) range (length begin.now) (length begin.now - length end.now) }
{
    Item {
        range,
        place: s.len() - begin.len(),
        size: begin.len() - end.len(),
    }
}

// The rows of a range whose first item is x, or of an empty one: each step is an item. It promises what put_range does, which hands its answer on.
#[tactic(auto, using(crate::proofs::Items::listing))]
fn put_items<'a>(
    set: &RangeSet<'a>,
    range: u64,
    words: &mut [u64],
    ids: &mut [u64],
    first: Step<'a>,
) -> RangeEnd<'a>
    requires at_range { AtRange (compat_of set.now.compat) set.now.text.now range (step_is first) (length words.old) (length ids.old) }
    requires plain { is_side (next_is first.next).0 ≡ false }
    ensures put { Put words.old 0 (range_words (compat_of set.now.compat) set.now.text.now range) words.new result.written.words }
    ensures ids { Put ids.old 0 (range_names (compat_of set.now.compat) set.now.text.now range) ids.new result.written.ids }
    ensures behind { BehindRange (compat_of set.now.compat) set.now.text.now range (next_is result.next) }
{
    let mut x = first;
    let mut written = Written { words: 0, ids: 0 };
    loop {
        let item = item_of(set.text, range, x.begin, x.end);
        written = put_step(set.text, item, &x, words, ids, written);
        let Some(left) = further_item(x.next) else {
            return RangeEnd {
                written,
                next: x.next,
            };
        };
        let Some(further) = next(left, Stage::Item, set.compat) else {
            unreachable!()
        };
        x = further;
    }
}

// The rows of the range with this number, whose first step is x: at the start of the words that are lent. A hyphen range is one item, from where x
// begins to where its right side ends. The slices of words are lent apart from one another, as 01's call lends them.
#[tactic(auto, using(crate::proofs::Stages::side_none))]
fn put_range<'a>(
    set: &RangeSet<'a>,
    range: u64,
    words: &mut [u64],
    ids: &mut [u64],
    x: Step<'a>,
) -> RangeEnd<'a>
    requires { AtRange (compat_of set.now.compat) set.now.text.now range (step_is x) (length words.old) (length ids.old) }
    ensures put { Put words.old 0 (range_words (compat_of set.now.compat) set.now.text.now range) words.new result.written.words }
    ensures ids { Put ids.old 0 (range_names (compat_of set.now.compat) set.now.text.now range) ids.new result.written.ids }
    ensures behind { BehindRange (compat_of set.now.compat) set.now.text.now range (next_is result.next) }
{
    let Some((stage, left)) = right_side(x.next) else {
        return put_items(set, range, words, ids, x);
    };
    let Some(y) = next(left, stage, set.compat) else {
        unreachable!()
    };
    let item = item_of(set.text, range, x.begin, y.end);
    let written = Written { words: 0, ids: 0 };
    let written = put_step(set.text, item, &x, words, ids, written);
    RangeEnd {
        written: put_step(set.text, item, &y, words, ids, written),
        next: y.next,
    }
}

// ---- all ranges

// The rows of a text whose rows the lent words have room for.
#[tactic(auto, using(crate::proofs::Ranges::putting))]
pub fn put_ranges(set: &RangeSet<'_>, words: &mut [u64], ids: &mut [u64])
    requires words_room { comparator_width * set.now.counts.comparators ≤ length words.old }
    requires ids_room { 3 * set.now.counts.identifiers ≤ length ids.old }
    ensures words_after { words.new ≡ comparator_words_after (compat_of set.now.compat) set.now.text.now (reading (compat_of set.now.compat) set.now.text.now) words.old }
    ensures ids { ids.new ≡ identifier_words_after set.now.text.now (reading (compat_of set.now.compat) set.now.text.now) ids.old }
{
    // Counted by hand, since where the next range begins is known only once this one is written.
    let mut range: u64 = 0;
    let mut written = Written { words: 0, ids: 0 };
    let mut x = set.first;
    loop {
        let end = put_range(
            set,
            range,
            &mut words[written.words..],
            &mut ids[written.ids..],
            x,
        );
        let Some((stage, left)) = end.next else {
            return;
        };
        let Some(further) = next(left, stage, set.compat) else {
            unreachable!()
        };
        range += 1;
        written = Written {
            words: written.words + end.written.words,
            ids: written.ids + end.written.ids,
        };
        x = further;
    }
}
