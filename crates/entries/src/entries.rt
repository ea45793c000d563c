// The entries read: how many there are, which one has a part code, and where its text stands.
ghost use Rattle.std.specs.Prelude.{◌≡◌, ℕ, Bool, ◌+◌, ◌*◌, ◌≤◌, ◌<◌, length};
ghost use Rattle.rules.specs.Answers.{map_answer};
ghost use Rattle.shelf_rules.specs.Table.{rows_of};
ghost use Rattle.shelf_rules.specs.Shelf.{entry_width, kept_width, kept_place, code_in, count_in, find_code, shelf_in, bounds_in};

use crate::{
    CAPACITY, ENTRY_BYTES, KEPT_BYTES, KEPT_PLACE, SHELF_BYTES, TEXT, TEXT_BYTES, TEXT_LENGTH,
};
use memory::two_at;
use refusals::Refusal;
use triples::{Bounds, bounds_at};

// Where a text stands in the shelf, and how long it is: the exported call hands back these numbers, and no part of the memory.
#[derive(Clone, Copy)]
pub struct Part {
    pub place: usize,
    pub length: usize,
}

// As many rows of entries as count, behind the two bytes of the count.
#[derive(Clone, Copy)]
pub struct Entries<'a> {
    pub bytes: &'a [u8],
    pub count: usize,
    pub ghost within: { 2 + entry_width * count ≤ length bytes.now },
}

impl<'a> Entries<'a> {
    ghost use Rattle.std.specs.Prelude.{drop, IfOk};
    ghost use Rattle.entries.specs.Views.{entries_of, OfShelf, option_of, row_at, kept_at, part_at, IsFirst};
    ghost use Rattle.triples.specs.Views.{bounds_is};

    // Those of the shelf that the bytes are, if 10 does not apply.
    #[tactic(auto, using(crate::proofs::Counting::countings))]
    pub fn of(shelf: &'a [u8]) -> Result<Entries<'a>, Refusal>
        ensures answer { entries_of result ≡ map_answer (λ l. (l, count_in l)) (shelf_in shelf.now) }
        ensures shelf { IfOk result (OfShelf shelf.now) }
    {
        if shelf.len() != SHELF_BYTES {
            return Err(Refusal::NotShelf);
        }
        let count = usize::from(two_at(shelf, 0));
        if count > CAPACITY {
            return Err(Refusal::NotShelf);
        }
        Ok(Entries {
            bytes: shelf,
            count,
        })
    }

    // The bytes of the entry at k, where 02 (N1) lays them out. That k is below the count is not asked, here and below: it would ask more of callers than
    // the bytes of an entry there.
    #[tactic(auto, using(crate::proofs::Rows::row_is))]
    pub fn row(self, k: usize) -> &'a [u8]
        requires { 2 + entry_width * k + entry_width ≤ length self.bytes.now }
        ensures bytes { result.now ≡ row_at k self.entry.bytes.now }
        ensures wide { length result.now ≡ entry_width }
    {
        let at = 2 + ENTRY_BYTES * k;
        &self.bytes[at..at + ENTRY_BYTES]
    }

    // Its triples.
    #[tactic(auto, using(crate::proofs::Rows::kept_bounds))]
    pub fn kept(self, k: usize) -> Bounds
        requires { kept_place + kept_width * k + kept_width ≤ length self.bytes.now }
        ensures { bounds_is result ≡ bounds_in (kept_at k self.entry.bytes.now) }
    {
        bounds_at(self.bytes, KEPT_PLACE + KEPT_BYTES * k)
    }

    // Its part code.
    pub fn code_at(self, k: usize) -> u16
        requires { 2 + entry_width * k + entry_width ≤ length self.bytes.now }
        ensures { result ≡ code_in (row_at k self.entry.bytes.now) }
    {
        two_at(self.row(k), 0)
    }

    // Its text, found by the place that 02 (N1) gives it in its row: "a length over 96 lists as the empty text".
    pub fn part_at(self, k: usize) -> Part
        requires { 2 + entry_width * k + entry_width ≤ length self.bytes.now }
        ensures { result ≡ part_at k self.entry.bytes.now }
    {
        let n = usize::from(self.row(k)[TEXT_LENGTH]);
        Part {
            place: 2 + ENTRY_BYTES * k + TEXT,
            length: if n <= TEXT_BYTES { n } else { 0 },
        }
    }

    // The place of the first one that has the part code.
    pub fn find_code(self, code: u16) -> Option<usize>
        ensures { option_of result ≡ find_code code (rows_of entry_width self.entry.count (drop 2 self.entry.bytes.now)) }
    {
        (0..self.count).find(|k| self.code_at(*k) == code)
    }

    // The part code of the first one whose place passes the test. A `for` and no `find`, which asks for a test that may be called always: more than at the
    // places of entries.
    pub fn first<F: Fn(usize) -> bool>(self, test: F) -> Option<u16>
        requires { (k : ℕ) → k < self.count → F.pre test k }
        ensures { (p : ℕ → Bool) → ((k : ℕ) (b : Bool) → k < self.entry.count → F.post test k b → b ≡ p k) → IsFirst p self.entry.count self.entry.bytes.now result }
    {
        for k in 0..self.count {
            if test(k) {
                return Some(self.code_at(k));
            }
        }
        None
    }
}
