// A shelf of parts in lent bytes (02, N1 and N3): make empty, add, remove and the listing. "Shelf", "part code", "entry" and "listing" are 02's words.
#![tactic(auto)]

ghost use Rattle.std.specs.Prelude.{◌≡◌, IfOk};
ghost use Rattle.rules.specs.Answers.{text_of, reading_outcome};
ghost use Rattle.range.specs.Views.{compat_of};
ghost use Rattle.rangeset.specs.Sets.{set_outcome, IsSetOf};
ghost use Rattle.shelf_rules.specs.Shelf.{refusal_of, shelf_after, entry_reading, empty_call, add_call, remove_call, text_call, list_call};
ghost use Rattle.shelf.specs.Views.{change_of, listing_of};

use bounds::bounds_of;
use entries::{CAPACITY, Entries, Part, SHELF_BYTES, TEXT_BYTES, add_at, remove_at};
use memory::clear;
use range::Compat;
use rangeset::{RangeSet, identifier_bytes};
use refusals::Refusal;

// ---- the calls that change a shelf

pub fn make_empty(shelf: &mut [u8]) -> Result<(), Refusal>
    ensures answer { change_of result ≡ refusal_of (empty_call shelf.old) }
    ensures bytes { shelf.new ≡ shelf_after (empty_call shelf.old) shelf.old }
{
    let n = shelf.len();
    if n != SHELF_BYTES {
        return Err(Refusal::NotShelf);
    }
    clear(shelf, 0, n);
    Ok(())
}

// The text of an entry, if none of 1 to 4 applies to it, with 96 as its length limit.
#[tactic(auto, using(crate::proofs::AddLaws::text_long))]
fn parse_text<'a>(text: &'a [u8], compat: Compat) -> Result<RangeSet<'a>, Refusal>
    ensures answer { set_outcome result ≡ reading_outcome (entry_reading (compat_of compat) text.now) }
    ensures of { IfOk result (IsSetOf text.entry compat) }
{
    if text.len() > TEXT_BYTES {
        return Err(Refusal::TooLong);
    }
    RangeSet::parse(text, compat)
}

// 02's calls take a shelf and a part code, and add a mode and a text besides.
pub fn add(shelf: &mut [u8], code: u16, compat: Compat, text: &[u8]) -> Result<(), Refusal>
    ensures answer { change_of result ≡ refusal_of (add_call code (compat_of compat) text.now shelf.old) }
    ensures bytes { shelf.new ≡ shelf_after (add_call code (compat_of compat) text.now shelf.old) shelf.old }
{
    let entries = Entries::of(shelf)?;
    let set = parse_text(text, compat)?;
    if entries.find_code(code).is_some() {
        return Err(Refusal::Code);
    }
    if entries.count == CAPACITY {
        return Err(Refusal::Full);
    }
    add_at(shelf, code, compat, text, bounds_of(&set));
    Ok(())
}

// The first entry with the part code goes.
pub fn remove(shelf: &mut [u8], code: u16) -> Result<(), Refusal>
    ensures answer { change_of result ≡ refusal_of (remove_call code shelf.old) }
    ensures bytes { shelf.new ≡ shelf_after (remove_call code shelf.old) shelf.old }
{
    let entries = Entries::of(shelf)?;
    let k = entries.find_code(code).ok_or(Refusal::Code)?;
    remove_at(shelf, k);
    Ok(())
}

// ---- the listing

// Where the text of the first entry with the part code stands.
#[tactic(auto, using(crate::proofs::ListLaws::lists))]
pub fn list(shelf: &[u8], code: u16) -> Result<Part, Refusal>
    ensures { listing_of result ≡ list_call code shelf.now }
{
    let entries = Entries::of(shelf)?;
    let k = entries.find_code(code).ok_or(Refusal::Code)?;
    Ok(entries.part_at(k))
}

// That text itself, as a part of the shelf; the empty part where the listing is refused, as the rules' `text_of` has it. A Part is taken apart since rangeset, below it,
// knows only a place and a length.
#[tactic(auto, using(crate::proofs::ListLaws::texts))]
pub fn text<'a>(shelf: &'a [u8], code: u16) -> &'a [u8]
    ensures { result.now ≡ text_of (text_call code shelf.now) }
{
    // `map_or` was tried: what its closure answers was not found by the check.
    match list(shelf, code) {
        Ok(part) => identifier_bytes(shelf, part.place, part.length),
        Err(_) => &shelf[..0],
    }
}
