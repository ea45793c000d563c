// Writers of the rows of a reading into lent words: a comparator's row of eight words, and the rows of three words of its identifiers. Each
// writes at the start of the words that it is lent.
#![tactic(auto)]

ghost use Rattle.std.specs.Prelude.{◌+◌, ◌<◌, ◌≤◌, length};
ghost use Rattle.rows.specs.Put.{Put};
ghost use Rattle.rules.specs.Parse.{found_in};
ghost use Rattle.rules.specs.Rows.{comparator_width};
ghost use Rattle.rows.specs.Views.{comparator_words, words_of, identifier_rows};

use lexer::{Identifier, read_identifier, skip_dot};
use partial::Comparator;

// ---- comparators

// How many words a comparator's row has.
pub const COMPARATOR_WORDS: usize = 8;

// Where a comparator stands: the number of its range, and the place and the size of its item in the text.
#[derive(Clone, Copy)]
pub struct Item {
    pub range: u64,
    pub place: usize,
    pub size: usize,
}

// `as`, here and below: a usize has no From to u64, and try_from would add an arm that no call takes.
#[inline(always)]
pub fn put_comparator(words: &mut [u64], item: Item, c: Comparator<'_>)
    requires { comparator_width ≤ length words.old }
    ensures { Put words.old 0 (comparator_words item c.entry) words.new comparator_width }
{
    words[..COMPARATOR_WORDS].copy_from_slice(&[
        item.range,
        c.op.code(),
        c.major,
        c.minor,
        c.patch,
        c.count as u64,
        item.place as u64,
        item.size as u64,
    ]);
}

// ---- identifiers

// How many words an identifier's row has.
pub const IDENTIFIER_WORDS: usize = 3;

// The identifier that begins at place. 01's row has these words: the kind is 0 for a number and 1 for a text, and a text is told by its place and
// its length.
fn put_identifier(ids: &mut [u64], identifier: Identifier<'_>, place: usize)
    requires { 3 ≤ length ids.old }
    ensures { Put ids.old 0 (words_of identifier.entry place) ids.new 3 }
{
    ids[..IDENTIFIER_WORDS].copy_from_slice(&match identifier {
        Identifier::Number(value) => [0, value, 0],
        Identifier::Text(bytes) => [1, place as u64, bytes.len() as u64],
    });
}

// The identifiers with dots between that s begins with, where s is the end of a text of len bytes; answers how many words that is. A slice does
// not tell where in the text it stands: each place is the text's length less what is left. Read one by one as precedence does, since an iterator
// over identifiers would not hand on what is left; at, the words so far, is what is answered.
#[tactic(auto, using(crate::proofs::Storing::storings))]
pub fn put_identifiers(s: &[u8], len: usize, ids: &mut [u64]) -> usize
    requires { length (identifier_rows len (found_in s.now)) ≤ length ids.old }
    ensures { Put ids.old 0 (identifier_rows len (found_in s.now)) ids.new result }
{
    let mut left = s;
    let mut at = 0;
    while let Some((identifier, behind)) = read_identifier(left) {
        put_identifier(&mut ids[at..], identifier, len.saturating_sub(left.len()));
        at += IDENTIFIER_WORDS;
        match skip_dot(behind) {
            Some(next) => left = next,
            None => return at,
        }
    }
    at
}
