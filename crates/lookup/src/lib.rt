// The lookup (02, N3): first fit by the kept triples. The text of an entry is read only where its triples enclose the version's. "Kept", "entry" and
// "lookup" are 02's words.
#![tactic(auto)]

ghost use Rattle.std.specs.Prelude.{◌≡◌, ◌+◌, ◌*◌, ◌≤◌, length};
ghost use Rattle.rules.specs.Admission.{admits};
ghost use Rattle.shelf_rules.specs.Shelf.{entry_width, kept_width, kept_place};
ghost use Rattle.shelf_rules.specs.Lookup.{kept_fits, lookup_call};
ghost use Rattle.entries.specs.Views.{row_at, kept_at};
ghost use Rattle.version.specs.Views.{version_is};
ghost use Rattle.first_fit.specs.Views.{fit_of};

use entries::Entries;
use first_fit::entry_fits;
use refusals::Refusal;
use triples::Triple;
use version::{Version, read_version};

// Whether the triples of the entry at k enclose the version's, and its text admits it; both are found by k, as 02 lays out the shelf. A `From<&Version>` for Triple would
// make triples know Version, or version know Triple, for this one place.
fn kept_fits(entries: Entries, k: usize, v: &Version<'_>) -> bool
    requires entry_width_in_bounds { 2 + entry_width * k + entry_width ≤ length entries.bytes.now }
    requires kept_width_in_bounds { kept_place + kept_width * k + kept_width ≤ length entries.bytes.now }
    ensures { result ≡ kept_fits admits (version_is v.now) (row_at k entries.entry.bytes.now) (kept_at k entries.entry.bytes.now) }
{
    let triple = Triple::new(v.major, v.minor, v.patch);
    entries.kept(k).encloses(triple) && entry_fits(entries.row(k), v)
}

// In the manner of first_fit: what is the same are the two readers that refuse, and a function of them with the test as a parameter would have to name the entries and the
// version in the test's own contract.
//
// The part code of the first entry whose kept triples enclose the triple of the version text t, and whose text admits it.
pub fn lookup(shelf: &[u8], t: &[u8]) -> Result<Option<u16>, Refusal>
    ensures { fit_of result ≡ lookup_call admits t.now shelf.now }
{
    let entries = Entries::of(shelf)?;
    let v = read_version(t)?;
    Ok(entries.first(|k| kept_fits(entries, k, &v)))
}
