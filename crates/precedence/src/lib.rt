// Semantic Versioning precedence, for the admission: numbers, the prerelease identifiers of a version text against those of a range text,
// and what an operator says of an order.
#![tactic(auto)]

ghost use Rattle.std.specs.Prelude.{◌≡◌};
ghost use Rattle.rules.specs.Lists.{each};
ghost use Rattle.rules.specs.Bytes.{is_digit};
ghost use Rattle.rules.specs.Parse.{found_in};
ghost use Rattle.rules.specs.Version.{read_version_identifier, version_identifiers_in};
ghost use Rattle.rules.specs.Precedence.{◌or_else◌, lexicographic, compare_numbers, compare_digits, compare_texts, compare_identifiers};
ghost use Rattle.rules.specs.Admission as Admission;
ghost use Rattle.lexer.specs.Views.{identifier_in};
ghost use Rattle.partial.specs.Views.{op_of};
ghost use Rattle.precedence.specs.Views.{order_of, known, behind_dot};

use lexer::{
    Digit, Identifier, Number, Reader, before, read_identifier, read_number, skip_dot, skip_run,
};
use partial::Op;
use std::cmp::Ordering;
use version::Prerelease;

// ---- orders

// Whether the operator holds of two that stand so. A test for each operator: a table of functions, or a closure for each, says no less.
#[tactic(auto, using(crate::proofs::Orders::operators))]
pub fn holds(op: Op, order: Ordering) -> bool
    ensures { result ≡ Admission.holds (op_of op) (order_of order) }
{
    match op {
        Op::Lt => order.is_lt(),
        Op::Lte => order.is_le(),
        Op::Gt => order.is_gt(),
        Op::Gte => order.is_ge(),
        Op::Eq => order.is_eq(),
    }
}

// The major, minor and patch number of one against those of another.
#[tactic(auto, using(crate::proofs::Orders::orders))]
pub fn compare_triples(a: (u64, u64, u64), b: (u64, u64, u64)) -> Ordering
    ensures { order_of result ≡ (compare_numbers a.0 b.0 or_else compare_numbers a.1 b.1 or_else compare_numbers a.2 b.2) }
{
    a.cmp(&b)
}

// ---- identifiers

#[tactic(auto, using(crate::proofs::Orders::digits))]
fn is_digits(w: &[u8]) -> bool
    ensures { result ≡ each is_digit w.now }
{
    skip_run::<Digit>(w).is_empty()
}

// Two texts of digits without leading zeros: the longer is larger, equal lengths by bytes.
#[tactic(auto, using(crate::proofs::Orders::orders))]
fn compare_digits(a: &[u8], b: &[u8]) -> Ordering
    ensures { order_of result ≡ compare_digits a.now b.now }
{
    a.len().cmp(&b.len()).then(a.cmp(b))
}

// Texts of digits stand below the others, so this is not the order of bytes that a derive gives.
#[tactic(auto, using(crate::proofs::Orders::orders))]
fn compare_texts(a: &[u8], b: &[u8]) -> Ordering
    ensures { order_of result ≡ compare_texts a.now b.now }
{
    match (is_digits(a), is_digits(b)) {
        (true, true) => compare_digits(a, b),
        (true, false) => Ordering::Less,
        (false, true) => Ordering::Greater,
        (false, false) => a.cmp(b),
    }
}

// A number stands below a text. By hand, since the derived order of identifiers would compare two texts by their bytes.
#[tactic(auto, using(crate::proofs::Orders::orders))]
fn compare_identifier(a: Identifier<'_>, b: Identifier<'_>) -> Ordering
    ensures { order_of result ≡ compare_identifiers (known a.entry) (known b.entry) }
{
    match (a, b) {
        (Identifier::Number(a), Identifier::Number(b)) => a.cmp(&b),
        (Identifier::Number(_), Identifier::Text(_)) => Ordering::Less,
        (Identifier::Text(_), Identifier::Number(_)) => Ordering::Greater,
        (Identifier::Text(a), Identifier::Text(b)) => compare_texts(a, b),
    }
}

// A prerelease identifier of a version text. Of digits it is a number, and above the largest number a text; none where zeros lead.
#[tactic(auto, using(crate::proofs::VersionIdentifiers::identifiers))]
fn read_version_identifier(s: &[u8]) -> Option<(Identifier<'_>, &[u8])>
    ensures { identifier_in result ≡ read_version_identifier s.now }
{
    let left = Prerelease::skip(s)?;
    let word = before(s, left);
    match read_number(word) {
        Some(
            Number {
                value: Some(value),
                left: [],
            },
        ) => Some((Identifier::Number(value), left)),
        _ => Some((Identifier::Text(word), left)),
    }
}

// What is left behind a dot; no bytes where there is no dot: from none on, the loop below reads no identifier, as from none of an `Option`.
fn behind_dot(s: &[u8]) -> &[u8]
    ensures { result.now ≡ behind_dot s.now }
{
    skip_dot(s).unwrap_or(&[])
}

// The identifiers that the version text v begins with, against those that the range text s begins with. `Iterator::cmp` would take two iterators,
// each a struct with an `impl` and its ghost members, and an `Ord` of `Identifier`, which is lexer's and knows nothing of this order: more than this loop.
#[tactic(auto, using(crate::proofs::Comparing::comparisons))]
pub fn compare_identifiers(v: &[u8], s: &[u8]) -> Ordering
    ensures { order_of result ≡ lexicographic compare_identifiers (version_identifiers_in v.now) (found_in s.now) }
{
    let mut v_left = v;
    let mut s_left = s;
    loop {
        match (read_version_identifier(v_left), read_identifier(s_left)) {
            (None, None) => return Ordering::Equal,
            (None, Some(_)) => return Ordering::Less,
            (Some(_), None) => return Ordering::Greater,
            (Some((a, v_behind)), Some((b, s_behind))) => {
                match compare_identifier(a, b) {
                    Ordering::Equal => {
                        v_left = behind_dot(v_behind);
                        s_left = behind_dot(s_behind);
                    }
                    order => return order,
                }
            }
        }
    }
}
