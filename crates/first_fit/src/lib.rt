// First fit (02, N1): the part code of the first entry of a shelf whose text admits a version. "Shelf", "part code", "entry" and "first fit" are
// 02's words.
#![tactic(auto)]

ghost use Rattle.std.specs.Prelude.{◌≡◌, length};
ghost use Rattle.rules.specs.Admission.{admits};
ghost use Rattle.shelf_rules.specs.Shelf.{entry_width, entry_fits, first_fit_call};
ghost use Rattle.version.specs.Views.{version_is};
ghost use Rattle.first_fit.specs.Views.{fit_of};

use admission::admits_held;
use entries::{Entries, MODE, TEXT, TEXT_BYTES, TEXT_LENGTH};
use range::Compat;
use refusals::Refusal;
use version::{Version, read_version};

// Whether the text of an entry's bytes, each where 02 (N1) places it, admits the version.
#[tactic(auto, using(crate::proofs::FitLaws::entry_fitting))]
pub fn entry_fits(row: &[u8], v: &Version<'_>) -> bool
    requires { length row.now ≡ entry_width }
    ensures { result ≡ entry_fits admits (version_is v.now) row.now }
{
    let n = usize::from(row[TEXT_LENGTH]);
    if n > TEXT_BYTES {
        return false;
    }
    // `is_ok_and` was tried: the check did not find what its closure answers.
    match Compat::try_from(row[MODE]) {
        Ok(compat) => admits_held(&row[TEXT..TEXT + n], compat, v),
        Err(_) => false,
    }
}

// The part code of the first entry whose text admits the version text t. In the manner of `lookup`, where stands why the two are not one.
pub fn first_fit(shelf: &[u8], t: &[u8]) -> Result<Option<u16>, Refusal>
    ensures { fit_of result ≡ first_fit_call admits t.now shelf.now }
{
    let entries = Entries::of(shelf)?;
    let v = read_version(t)?;
    Ok(entries.first(|k| entry_fits(entries.row(k), &v)))
}
