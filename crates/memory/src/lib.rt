// Bytes moved, cleared and filled in lent memory, numbers of one and two bytes, and rows of one width. The functions take the whole memory and a place in it, and not
// the part there, since what they promise is so said of the whole memory, which their callers lend on.
#![tactic(auto)]

ghost use Rattle.std.specs.Prelude.{◌≡◌, ◌++◌, ◌+◌, ◌*◌, ◌-◌, ◌≤◌, ◌<◌, length, take, drop, replicate};
ghost use Rattle.std.proofs.Math.Seq.{paste};
ghost use Rattle.std.proofs.lemmas.List.Edits.{sets};
ghost use Rattle.shelf_rules.specs.Table.{low_first, number_in, row_removed};

use spelling::put_bytes;

// ---- bytes

// Zeros in n bytes.
pub fn clear(s: &mut [u8], from: usize, n: usize)
    requires { from + n ≤ length s.old }
    ensures { s.new ≡ paste s.old from (replicate n 0) n }
{
    s[from..from + n].fill(0);
}

// The bytes w, and zeros behind them up to size bytes.
pub fn put_padded(s: &mut [u8], at: usize, w: &[u8], size: usize)
    requires w_len_bound { length w.now ≤ size }
    requires size_in_bounds { at + size ≤ length s.old }
    ensures { s.new ≡ sets s.old at (w.now ++ replicate (size - length w.now) 0) }
{
    let end = put_bytes(s, at, w);
    clear(s, end, size - w.len());
}

// ---- numbers of two bytes, the low byte first

// The number that the two bytes from `at` on are. triples has the same for eight bytes: `from_le_bytes` is of no trait of std, and a function over
// num_traits' `FromBytes` cannot make the array that it takes from a slice.
#[tactic(auto, using(crate::proofs::Numbers::number_two))]
pub fn two_at(s: &[u8], at: usize) -> u16
    requires { at + 2 ≤ length s.now }
    ensures { result ≡ number_in (take 2 (drop at s.now)) }
{
    u16::from_le_bytes([s[at], s[at + 1]])
}

// The number v in the first two bytes.
#[tactic(auto, using(crate::proofs::Numbers::low_two))]
pub fn put_two(s: &mut [u8], v: u16)
    requires { 2 ≤ length s.old }
    ensures { s.new ≡ low_first 2 v ++ drop 2 s.old }
{
    s[..2].copy_from_slice(&v.to_le_bytes());
}

// ---- rows

// The rows behind the one at k, of n rows, move one place down, and zeros are left where the last one stood. 02 lays out a shelf as rows of one width, so that a row is
// found by its number.
#[tactic(auto, using(crate::proofs::RemovalLaws::removed_row))]
pub fn remove_row(rows: &mut [u8], width: usize, n: usize, k: usize)
    requires k_lt_n { k < n }
    requires n_in_bounds { width * n ≤ length rows.old }
    ensures { rows.new ≡ row_removed width n k rows.old }
{
    let from = width * k;
    let last = width * (n - 1);
    rows.copy_within(from + width..last + width, from);
    clear(rows, last, width);
}
