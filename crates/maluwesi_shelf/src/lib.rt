// The shelf's calls as Rust and C make them (bindings/), beside the calls of crates/maluwesi and in their manner: each returns 0, or the number of
// the refusal, and leaves what was asked for where it is told to. A refused change leaves the shelf as it was; a refused listing, first fit or lookup
// leaves zeros in the places that it is given.
#![tactic(auto)]

ghost use Rattle.std.specs.Prelude.{◌≡◌};
ghost use Rattle.rules.specs.Admission.{admits};
ghost use Rattle.rules.specs.Exported.{under};
ghost use Rattle.shelf_rules.specs.Shelf.{refusal_of, shelf_after, empty_call, add_call, remove_call, list_call, first_fit_call};
ghost use Rattle.shelf_rules.specs.Lookup.{lookup_call};
ghost use Rattle.shelf_rules.specs.Exported.{found_part, first_fit};
ghost use Rattle.shelf.specs.Views.{listing_of};
ghost use Rattle.first_fit.specs.Views.{fit_of};
ghost use Rattle.maluwesi_shelf.specs.Views.{found_is, fit_is};

use entries::Part;
use first_fit::first_fit;
use lookup::lookup;
use numbers::{NO_MODE, number};
use range::Compat;
use refusals::Refusal;
use shelf::{add, list, make_empty, remove};

// ---- the answers, as numbers

// A place and a length, and a mark and a code: C passes a place for each, and knows no Option and no struct of the crate's.
#[tactic(auto, unfolding(shelf_rules::specs::Exported::found_part))]
fn put_part(r: Result<Part, Refusal>, place: &mut usize, len: &mut usize) -> u64
    ensures { found_is result place.new len.new ≡ found_part (listing_of r) }
{
    let part = r.unwrap_or(Part {
        place: 0,
        length: 0,
    });
    *place = part.place;
    *len = part.length;
    number(&r)
}

#[tactic(auto, unfolding(shelf_rules::specs::Exported::first_fit))]
fn put_fit(r: Result<Option<u16>, Refusal>, found: &mut u8, code: &mut u16) -> u64
    ensures { fit_is result found.new code.new ≡ first_fit (fit_of r) }
{
    let fit = r.unwrap_or(None);
    *found = u8::from(fit.is_some());
    *code = fit.unwrap_or(0);
    number(&r)
}

// ---- the calls that change a shelf: C has the mode and the refusal as numbers

pub fn maluwesi_shelf_clear(shelf: &mut [u8]) -> u64
    ensures value { result ≡ refusal_of (empty_call shelf.old) }
    ensures bytes { shelf.new ≡ shelf_after (empty_call shelf.old) shelf.old }
{
    number(&make_empty(shelf))
}

#[tactic(auto, unfolding(rules::specs::Exported::under))]
pub fn maluwesi_shelf_add(shelf: &mut [u8], code: u16, mode: u8, text: &[u8]) -> u64
    ensures value { result ≡ refusal_of (under mode (λ m. add_call code m text.now shelf.old)) }
    ensures bytes { shelf.new ≡ shelf_after (under mode (λ m. add_call code m text.now shelf.old)) shelf.old }
{
    let Ok(compat) = Compat::try_from(mode) else {
        return NO_MODE;
    };
    number(&add(shelf, code, compat, text))
}

pub fn maluwesi_shelf_remove(shelf: &mut [u8], code: u16) -> u64
    ensures value { result ≡ refusal_of (remove_call code shelf.old) }
    ensures bytes { shelf.new ≡ shelf_after (remove_call code shelf.old) shelf.old }
{
    number(&remove(shelf, code))
}

// ---- the listing, first fit, and the lookup: C gives a place for each number that is left, and calls first fit and the lookup by two names

pub fn maluwesi_shelf_find(shelf: &[u8], code: u16, place: &mut usize, len: &mut usize) -> u64
    ensures { found_is result place.new len.new ≡ found_part (list_call code shelf.now) }
{
    put_part(list(shelf, code), place, len)
}

pub fn maluwesi_shelf_first_fit(shelf: &[u8], version: &[u8], found: &mut u8, code: &mut u16) -> u64
    ensures { fit_is result found.new code.new ≡ first_fit (first_fit_call admits version.now shelf.now) }
{
    put_fit(first_fit(shelf, version), found, code)
}

// As first fit, by the kept triples first.
pub fn maluwesi_shelf_lookup(shelf: &[u8], version: &[u8], found: &mut u8, code: &mut u16) -> u64
    ensures { fit_is result found.new code.new ≡ first_fit (lookup_call admits version.now shelf.now) }
{
    put_fit(lookup(shelf, version), found, code)
}
