// Triples of numbers (02, N3), and the lowest and the highest one that a shelf keeps of an entry: compared, stored in lent bytes as six numbers of
// eight bytes, the low ones first, and read from them.
#![tactic(auto)]

ghost use Rattle.std.specs.Prelude.{◌≡◌, ◌+◌, ◌≤◌, length, take, drop};
ghost use Rattle.rows.specs.Put.{Put};
ghost use Rattle.shelf_rules.specs.Table.{low_first, number_in};
ghost use Rattle.shelf_rules.specs.Triples as Triples;
ghost use Rattle.shelf_rules.specs.Triples.{triple};
ghost use Rattle.shelf_rules.specs.Shelf.{kept_width, triple_width, triple_row, kept_row, triple_in, bounds_in};
ghost use Rattle.triples.specs.Views.{triple_is, bounds_is};

use spelling::put_bytes;

// ---- compared

// The derived order is 02's: the first difference decides (proofs/OrderLaws.antt). A version and a comparator have the three numbers as fields of their own, since they
// are read, raised and written one by one; with a Triple in them each would be named through it.
#[derive(Clone, Copy, PartialEq, Eq, PartialOrd, Ord)]
pub struct Triple {
    pub major: u64,
    pub minor: u64,
    pub patch: u64,
}

impl Triple {
    pub fn new(major: u64, minor: u64, patch: u64) -> Triple
        ensures { triple_is result ≡ triple major minor patch }
    {
        Triple {
            major,
            minor,
            patch,
        }
    }
}

// A lowest and a highest triple.
#[derive(Clone, Copy)]
pub struct Bounds {
    pub low: Triple,
    pub high: Triple,
}

impl Bounds {
    // Both ends included.
    #[tactic(auto, using(crate::proofs::OrderLaws::le_is), unfolding(shelf_rules::specs::Triples::encloses))]
    pub fn encloses(self, t: Triple) -> bool
        ensures { result ≡ Triples.encloses (bounds_is self) (triple_is t) }
    {
        self.low <= t && t <= self.high
    }
}

// ---- numbers of eight bytes, the low ones first: in memory of 02's layout, so by the place; as spelling's writers

#[tactic(auto, using(memory::proofs::Numbers::number_eight))]
fn eight_at(s: &[u8], at: usize) -> u64
    requires { at + 8 ≤ length s.now }
    ensures { result ≡ number_in (take 8 (drop at s.now)) }
{
    u64::from_le_bytes(s[at..at + 8].try_into().unwrap())
}

// The place behind them is answered.
#[tactic(auto, using(memory::proofs::Numbers::low_eight))]
fn put_eight(s: &mut [u8], at: usize, v: u64) -> usize
    requires { at + 8 ≤ length s.old }
    ensures { Put s.old at (low_first 8 v) s.new result }
{
    put_bytes(s, at, &v.to_le_bytes())
}

// ---- triples in lent bytes: "six 64-bit numbers" (02, N3), one behind another; as spelling's writers. A triple and two of them are read and put by the same steps, each
// over a type of its own.

// Three numbers of eight bytes.
const TRIPLE_BYTES: usize = 24;

#[tactic(auto, using(crate::proofs::TripleBytes::triple_read))]
fn triple_at(s: &[u8], at: usize) -> Triple
    requires { at + triple_width ≤ length s.now }
    ensures { triple_is result ≡ triple_in (drop at s.now) }
{
    let major = eight_at(s, at);
    let minor = eight_at(s, at + 8);
    let patch = eight_at(s, at + 16);
    Triple::new(major, minor, patch)
}

pub fn bounds_at(s: &[u8], at: usize) -> Bounds
    requires { at + kept_width ≤ length s.now }
    ensures { bounds_is result ≡ bounds_in (drop at s.now) }
{
    let low = triple_at(s, at);
    let high = triple_at(s, at + TRIPLE_BYTES);
    Bounds { low, high }
}

#[tactic(auto, using(crate::proofs::TripleBytes::triple_puts))]
fn put_triple(s: &mut [u8], at: usize, t: Triple) -> usize
    requires { at + triple_width ≤ length s.old }
    ensures { Put s.old at (triple_row (triple_is t)) s.new result }
{
    let minor = put_eight(s, at, t.major);
    let patch = put_eight(s, minor, t.minor);
    put_eight(s, patch, t.patch)
}

#[tactic(auto, using(crate::proofs::TripleBytes::bounds_puts))]
pub fn put_bounds(s: &mut [u8], at: usize, b: Bounds) -> usize
    requires { at + kept_width ≤ length s.old }
    ensures { Put s.old at (kept_row (bounds_is b)) s.new result }
{
    let high = put_triple(s, at, b.low);
    put_triple(s, high, b.high)
}
