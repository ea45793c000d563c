// The rows of a step of the walk: at most two comparators, and the identifiers of its partial. The normal text has the same, spelled (normal_text):
// rows are words with places, a text is bytes, and only the comparators that both take from passes are one.
#![tactic(auto)]

ghost use Rattle.std.specs.Prelude.{◌+◌, ◌≤◌, length};
ghost use Rattle.rows.specs.Put.{Put};
ghost use Rattle.walk.specs.Views.{step_is};
ghost use Rattle.step_rows.specs.Views.{row_words, step_comparator_words, step_identifier_words};

use partial::Comparator;
use passes::{as_read, raised};
use rows::{COMPARATOR_WORDS, Item, put_comparator, put_identifiers};
use walk::Step;

// How many words of comparator rows are written, and how many of identifier rows. The two slices stay apart from it and from one another: 01's call
// lends both, and each range is lent the free parts of both, so that a struct of the three would be taken apart and made anew for each range.
#[derive(Clone, Copy)]
pub struct Written {
    pub words: usize,
    pub ids: usize,
}

// The row of a comparator, if there is one; answers how many words that is, as every writer does.
#[inline(always)]
fn put_row(words: &mut [u64], item: Item, comparator: Option<Comparator<'_>>) -> usize
    requires { length (row_words item comparator) ≤ length words.old }
    ensures { Put words.old 0 (row_words item comparator.entry) words.new result }
{
    match comparator {
        Some(c) => {
            put_comparator(words, item, c);
            COMPARATOR_WORDS
        }
        None => 0,
    }
}

// The rows of a step's comparators; answers how many words those are.
#[tactic(auto, using(crate::proofs::Writing::stepping))]
#[inline(always)]
pub fn put_comparators(words: &mut [u64], item: Item, x: &Step<'_>) -> usize
    requires { length (step_comparator_words item (step_is x.now)) ≤ length words.old }
    ensures { Put words.old 0 (step_comparator_words item (step_is x.now)) words.new result }
{
    let at = put_row(words, item, as_read(x));
    at + put_row(&mut words[at..], item, raised(x))
}

// All rows of a step of the text s, behind those that are written; answers how many then are.
#[tactic(auto, using(crate::proofs::Writing::placing), unfolding(crate::specs::Views::step_identifier_words))]
#[inline(always)]
pub fn put_step(
    s: &[u8],
    item: Item,
    x: &Step<'_>,
    words: &mut [u64],
    ids: &mut [u64],
    written: Written,
) -> Written
    requires words_room { written.words + length (step_comparator_words item (step_is x.now)) ≤ length words.old }
    requires ids_room { written.ids + length (step_identifier_words (length s.now) (step_is x.now)) ≤ length ids.old }
    ensures words { Put words.old written.words (step_comparator_words item (step_is x.now)) words.new result.words }
    ensures ids { Put ids.old written.ids (step_identifier_words (length s.now) (step_is x.now)) ids.new result.ids }
{
    Written {
        words: written.words + put_comparators(&mut words[written.words..], item, x),
        ids: written.ids + put_identifiers(x.partial.identifiers, s.len(), &mut ids[written.ids..]),
    }
}
