// The calls of `maluwesi_shelf` as C finds them, in a static library of their own as in `maluwesi_c`: the same names, the same numbers for modes, refusals and places.
#![tactic(auto)]

ghost use Rattle.std.specs.Prelude.{◌≡◌};
ghost use Rattle.rules.specs.Admission.{admits};
ghost use Rattle.rules.specs.Exported.{under};
ghost use Rattle.shelf_rules.specs.Shelf.{refusal_of, shelf_after, empty_call, add_call, remove_call, list_call, first_fit_call};
ghost use Rattle.shelf_rules.specs.Lookup.{lookup_call};
ghost use Rattle.shelf_rules.specs.Exported.{found_part, first_fit};
ghost use Rattle.maluwesi_shelf.specs.Views.{found_is, fit_is};

#[unsafe(no_mangle)]
pub extern "C" fn maluwesi_shelf_clear(shelf: &mut [u8]) -> u64
    ensures value { result ≡ refusal_of (empty_call shelf.old) }
    ensures bytes { shelf.new ≡ shelf_after (empty_call shelf.old) shelf.old }
{
    maluwesi_shelf::maluwesi_shelf_clear(shelf)
}

#[unsafe(no_mangle)]
pub extern "C" fn maluwesi_shelf_add(shelf: &mut [u8], code: u16, mode: u8, text: &[u8]) -> u64
    ensures value { result ≡ refusal_of (under mode (λ m. add_call code m text.now shelf.old)) }
    ensures bytes { shelf.new ≡ shelf_after (under mode (λ m. add_call code m text.now shelf.old)) shelf.old }
{
    maluwesi_shelf::maluwesi_shelf_add(shelf, code, mode, text)
}

#[unsafe(no_mangle)]
pub extern "C" fn maluwesi_shelf_remove(shelf: &mut [u8], code: u16) -> u64
    ensures value { result ≡ refusal_of (remove_call code shelf.old) }
    ensures bytes { shelf.new ≡ shelf_after (remove_call code shelf.old) shelf.old }
{
    maluwesi_shelf::maluwesi_shelf_remove(shelf, code)
}

#[unsafe(no_mangle)]
pub extern "C" fn maluwesi_shelf_find(
    shelf: &[u8],
    code: u16,
    place: &mut usize,
    len: &mut usize,
) -> u64
    ensures { found_is result place.new len.new ≡ found_part (list_call code shelf.now) }
{
    maluwesi_shelf::maluwesi_shelf_find(shelf, code, place, len)
}

#[unsafe(no_mangle)]
pub extern "C" fn maluwesi_shelf_first_fit(
    shelf: &[u8],
    version: &[u8],
    found: &mut u8,
    code: &mut u16,
) -> u64
    ensures { fit_is result found.new code.new ≡ first_fit (first_fit_call admits version.now shelf.now) }
{
    maluwesi_shelf::maluwesi_shelf_first_fit(shelf, version, found, code)
}

// As first fit, by the kept triples first.
#[unsafe(no_mangle)]
pub extern "C" fn maluwesi_shelf_lookup(
    shelf: &[u8],
    version: &[u8],
    found: &mut u8,
    code: &mut u16,
) -> u64
    ensures { fit_is result found.new code.new ≡ first_fit (lookup_call admits version.now shelf.now) }
{
    maluwesi_shelf::maluwesi_shelf_lookup(shelf, version, found, code)
}
