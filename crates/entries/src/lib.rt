// The entries of a shelf in lent bytes (02, N1), each with its kept triples (N3): one put behind them and one removed. Which one has a part code, and
// where its text stands, is in entries.rt. "Shelf", "entry" and "part code" are 02's words.
#![tactic(auto)]

mod entries;

ghost use Rattle.std.specs.Prelude.{◌≡◌, ◌≤◌, ◌<◌, length};
ghost use Rattle.std.proofs.lemmas.List.Edits.{sets};
ghost use Rattle.range.specs.Views.{compat_of};
ghost use Rattle.shelf_rules.specs.Shelf.{entry_width, longest_text, capacity, count_in, entry_row, kept_row, with_entry, without_entry};
ghost use Rattle.triples.specs.Views.{bounds_is};
ghost use Rattle.entries.specs.Counted.{Counted};

pub use entries::{Entries, Part};
use memory::{put_padded, put_two, remove_row, two_at};
use range::Compat;
use triples::{Bounds, put_bounds};

// ---- sizes

// The whole shelf.
pub const SHELF_BYTES: usize = 37890;

// How many entries there can be.
pub const CAPACITY: usize = 256;

// One entry: code in two bytes, mode, text length, text (02, N1).
pub const ENTRY_BYTES: usize = 100;

// Where its mode, its text length and its text stand.
pub const MODE: usize = 2;

pub const TEXT_LENGTH: usize = 3;

pub const TEXT: usize = 4;

// The longest text.
pub const TEXT_BYTES: usize = 96;

// The triples of one entry: six numbers of eight bytes.
pub const KEPT_BYTES: usize = 48;

// Where they begin, behind all places of entries: "after all the entries and in their order" (02, N3), so that an entry and its triples have the same number k.
pub const KEPT_PLACE: usize = 2 + ENTRY_BYTES * CAPACITY;

// ---- put and removed

// An entry's bytes, of what 02's add takes, at the start of row, each where 02 places it. The casts, here and below, lose nothing by the clauses; `try_from` would have an error that never comes.
#[tactic(auto, using(crate::proofs::Changing::entry_stored))]
fn put_entry(row: &mut [u8], code: u16, compat: Compat, text: &[u8])
    requires text_len_bound { length text.now ≤ longest_text }
    requires entry_width_in_bounds { entry_width ≤ length row.old }
    ensures { row.new ≡ sets row.old 0 (entry_row code (compat_of compat) text.now) }
{
    put_two(row, code);
    row[MODE] = u8::from(compat);
    row[TEXT_LENGTH] = text.len() as u8;
    put_padded(row, TEXT, text, TEXT_BYTES);
}

// One entry more, behind those that are there. The shelf is changed, so that no Entries, which lends it, can stand here: the count, the places of the entries and those of
// their triples are taken by 02's layout.
#[tactic(auto, using(crate::proofs::Changing::entry_added))]
pub fn add_at(shelf: &mut [u8], code: u16, compat: Compat, text: &[u8], b: Bounds)
    requires counted { Counted shelf.old (count_in shelf.old) }
    requires n_lt_capacity { count_in shelf.old < capacity }
    requires text_len_bound { length text.now ≤ longest_text }
    ensures { shelf.new ≡ with_entry (entry_row code (compat_of compat) text.now) (kept_row (bounds_is b)) shelf.old }
{
    let n = usize::from(two_at(shelf, 0));
    put_entry(&mut shelf[2 + ENTRY_BYTES * n..], code, compat, text);
    put_bounds(shelf, KEPT_PLACE + KEPT_BYTES * n, b);
    put_two(shelf, (n + 1) as u16);
}

// The entry at k goes.
pub fn remove_at(shelf: &mut [u8], k: usize)
    requires counted { Counted shelf.old (count_in shelf.old) }
    requires k_lt_n { k < count_in shelf.old }
    ensures { shelf.new ≡ without_entry k shelf.old }
{
    let n = usize::from(two_at(shelf, 0));
    remove_row(&mut shelf[2..KEPT_PLACE], ENTRY_BYTES, n, k);
    remove_row(&mut shelf[KEPT_PLACE..], KEPT_BYTES, n, k);
    put_two(shelf, (n - 1) as u16);
}
