// Writers of numbers, comparators and refusals into lent bytes, for the normal text and the programs, and how many bytes each writes. Each writer writes from the byte
// `at` on, and answers the place behind what it wrote, as do all writers of this repository. A struct `Text` that holds the bytes and the place, with the writers as
// its methods, was tried: it proves, but each contract says besides that the lent bytes are still the same ones, so that it is no plainer. `write!`
// would put a `Display` into a `&mut [u8]`, but std does not promise which bytes then stand there, and a `Display` writes `str`, where identifiers are bytes.
//
// Numbers and comparators have a length beside their writer: refusal 7, a normal text longer than the lent bytes, is found before a byte is written (01).
#![tactic(auto)]

ghost use Rattle.std.specs.Prelude.{◌≡◌, ◌++◌, ◌+◌, ◌≤◌, length};
ghost use Rattle.rules.specs.Bytes.{bytes};
ghost use Rattle.rules.specs.NormalText.{decimal, spell_op};
ghost use Rattle.rules.specs.Plainform.{spell_refusal};
ghost use Rattle.partial.specs.Views.{op_of};
ghost use Rattle.rows.specs.Put.{Put};
ghost use Rattle.spelling.specs.Views.{dotted, spelled_triple};

use itoa::write_digits;
use partial::{Comparator, Op};

// ---- numbers

// How many digits a number has, in decimal without leading zeros.
#[tactic(auto, using(crate::proofs::Decimals::lengths))]
#[inline(always)]
pub fn decimal_len(n: u64) -> usize
    ensures value { result ≡ length (decimal n) }
    ensures small { result ≤ 20 }
{
    // Most numbers have one digit.
    if n < 10 {
        return 1;
    }
    // `as`: a usize has no From of a u32, and try_from would add an arm that no call takes.
    n.checked_ilog10().unwrap_or(0) as usize + 1
}

#[tactic(auto, using(crate::proofs::Decimals::digits_length, crate::proofs::Decimals::digits_put))]
#[inline(always)]
pub fn put_decimal(out: &mut [u8], at: usize, n: u64) -> usize
    requires { at + length (decimal n) ≤ length out.old }
    ensures { Put out.old at (decimal n) out.new result }
{
    let end = at + decimal_len(n);
    write_digits(n, out, end);
    end
}

// The dot, and then as put_decimal.
#[inline(always)]
fn put_dot_decimal(out: &mut [u8], at: usize, n: u64) -> usize
    requires { at + length (bytes "." ++ decimal n) ≤ length out.old }
    ensures { Put out.old at (bytes "." ++ decimal n) out.new result }
{
    out[at] = b'.';
    put_decimal(out, at + 1, n)
}

// Three numbers with dots between. triples::put_triple has the same three steps, but other bytes for each number and no dots.
#[tactic(auto, using(crate::proofs::Triples::dottings), unfolding(crate::specs::Views::dotted))]
#[inline(always)]
fn put_triple(out: &mut [u8], at: usize, major: u64, minor: u64, patch: u64) -> usize
    requires { at + length (dotted major minor patch) ≤ length out.old }
    ensures { Put out.old at (dotted major minor patch) out.new result }
{
    let i = put_decimal(out, at, major);
    let j = put_dot_decimal(out, i, minor);
    put_dot_decimal(out, j, patch)
}

// ---- bytes

// Copies w. By a loop, since the library's copy becomes a call of the C library's, which the objects for C are not to need (docs/USERS.md).
#[inline(always)]
pub fn put_bytes(out: &mut [u8], at: usize, w: &[u8]) -> usize
    requires { at + length w.now ≤ length out.old }
    ensures { Put out.old at w.now out.new result }
{
    for i in 0..w.len() {
        out[at + i] = w[i];
    }
    at + w.len()
}

// `refused`, a blank and the number: any number, since a Refusal in its place would ask more of callers than this function does.
pub fn put_refused(out: &mut [u8], at: usize, n: u64) -> usize
    requires { at + length (spell_refusal n) ≤ length out.old }
    ensures { Put out.old at (spell_refusal n) out.new result }
{
    let i = put_bytes(out, at, b"refused ");
    put_decimal(out, i, n)
}

// ---- comparators

#[tactic(auto, unfolding(rules::specs::NormalText::spell_op))]
fn op_len(op: Op) -> usize
    ensures value { result ≡ length (spell_op (op_of op)) }
    ensures small { result ≤ 2 }
{
    op.spelling().len()
}

// How many bytes a comparator has without its identifiers.
#[tactic(auto, using(crate::proofs::Triples::triples))]
pub fn comparator_len(c: &Comparator<'_>) -> usize
    ensures value { result ≡ length (spelled_triple c.now) }
    ensures small { result ≤ 64 }
{
    op_len(c.op) + decimal_len(c.major) + 1 + decimal_len(c.minor) + 1 + decimal_len(c.patch)
}

// The operator, then major, minor and patch with dots between: a comparator without its identifiers.
#[tactic(auto, using(crate::proofs::Triples::triples))]
#[inline(always)]
pub fn put_comparator(out: &mut [u8], at: usize, c: &Comparator<'_>) -> usize
    requires { at + length (spelled_triple c.now) ≤ length out.old }
    ensures { Put out.old at (spelled_triple c.now) out.new result }
{
    let i = put_bytes(out, at, c.op.spelling());
    put_triple(out, i, c.major, c.minor, c.patch)
}
