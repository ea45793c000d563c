// Bytes, spaces, numbers and identifiers: what src/generated.rs of the crate reads. Each reader is given the part of the text from its
// place on, and hands back what is left behind what it read, or nothing where it read nothing.
//
// A hint on inlining, here and in the crates above, stands on a function that every short reading, normal text or admission goes through: out of line it
// would hand what it read on through memory (docs/SPEED.md).
#![tactic(auto)]

ghost use Rattle.std.specs.Prelude.{◌≡◌, ◌+◌, ◌<◌, ◌≤◌, ℕ, Bool, List, true, length, drop, IfSome};
ghost use Rattle.rules.specs.Bytes.{bytes, is_space, is_digit, is_letter, is_word, is_wild, is_sign};
ghost use Rattle.rules.specs.Syntax.{Identifier};
ghost use Rattle.rules.specs.Parse.{Result, count, skip, literal, read_number, read_identifier, read_qualifier, list_of};
ghost use Rattle.rules.specs.Version.{read_after_dot};
ghost use Rattle.rules.proofs.Left.{identifier-behind};
ghost use Rattle.lexer.specs.Views.{rest, rest_in, rest_of, number_in, number_of, pushed, digits_after, before, identifier_in, Takes, read_series, series_of, series_in, read_signed, qualifier_is, qualifier_in, begun};

// ---- classes of bytes

// No runs are read of the first three; a `Class` for each would be longer than its function.
#[tactic(auto, unfolding(rules::specs::Bytes::is_letter))]
pub fn is_letter(b: u8) -> bool
    ensures { result ≡ is_letter b }
{
    matches!(b, b'a'..=b'z' | b'A'..=b'Z' | b'-')
}

pub fn is_wild(b: u8) -> bool
    ensures { result ≡ is_wild b }
{
    matches!(b, b'x' | b'X' | b'*')
}

pub fn is_sign(b: u8) -> bool
    ensures { result ≡ is_sign b }
{
    matches!(b, b'-' | b'+')
}

// A class of bytes of which runs are read.
pub trait Class {
    ghost class: { ℕ → Bool };

    fn has(b: u8) -> bool
        ensures { result ≡ class b };
}

pub struct Space;

impl Class for Space {
    ghost class = { is_space };

    fn has(b: u8) -> bool {
        matches!(b, b' ' | b'\t')
    }
}

pub struct Digit;

impl Class for Digit {
    ghost class = { is_digit };

    #[tactic(auto, unfolding(rules::specs::Bytes::is_digit))]
    fn has(b: u8) -> bool {
        matches!(b, b'0'..=b'9')
    }
}

// A letter, a digit or `-`; most are small letters.
pub struct Word;

impl Class for Word {
    ghost class = { is_word };

    #[tactic(auto, unfolding(rules::specs::Bytes::is_digit, rules::specs::Bytes::is_letter))]
    fn has(b: u8) -> bool {
        matches!(b, b'a'..=b'z') || matches!(b, b'A'..=b'Z' | b'-' | b'0'..=b'9')
    }
}

// ---- runs of a class

// The first bytes of the class, up to 65,535: how many, counted in 16 bits (02, N5), and what is left behind them.
#[tactic(auto, unfolding(rules::specs::Parse::count))]
fn skip_part<C: Class>(s: &[u8]) -> (u16, &[u8])
    ensures left { rest C.class s.now ≡ rest C.class result.1.now }
    ensures size { result.0 + length result.1.now ≡ length s.now }
    ensures whole { result.0 < 65535 → count C.class result.1.now ≡ 0 }
{
    let mut left = s;
    for n in 0..u16::MAX {
        match left {
            [b, behind @ ..] if C::has(*b) => left = behind,
            _ => return (n, left),
        }
    }
    (u16::MAX, left)
}

// A longer run has several parts.
pub fn skip_run<C: Class>(s: &[u8]) -> &[u8]
    ensures { result.now ≡ rest C.class s.now }
{
    let mut left = s;
    loop {
        let (n, behind) = skip_part::<C>(left);
        left = behind;
        if n < u16::MAX {
            return left;
        }
    }
}

// Those of a run behind its first two. By a loop of its own, since spaces need no count of 16 bits; out of line, since written into its callers it took up
// to six tenths more for each space, by what stood around it (docs/DECISIONS.md).
#[tactic(auto, unfolding(rules::specs::Parse::count))]
#[inline(never)]
fn skip_further_spaces(s: &[u8]) -> &[u8]
    ensures { result.now ≡ skip s.now }
{
    let mut left = s;
    while let [b, behind @ ..] = left {
        if !Space::has(*b) {
            return left;
        }
        left = behind;
    }
    left
}

// Most runs have one space, or none.
#[tactic(auto, unfolding(rules::specs::Parse::count))]
#[inline(always)]
pub fn skip_spaces(s: &[u8]) -> &[u8]
    ensures { result.now ≡ skip s.now }
{
    match s {
        [first, behind @ ..] if Space::has(*first) => match behind {
            [second, left @ ..] if Space::has(*second) => skip_further_spaces(left),
            _ => behind,
        },
        _ => s,
    }
}

// ---- numbers

// A number's value, where it is not too large, and what is left behind it.
#[derive(Clone, Copy)]
pub struct Number<'a> {
    pub value: Option<u64>,
    pub left: &'a [u8],
}

// A digit more. Behind a value below a tenth of the largest number every digit fits.
#[tactic(auto, unfolding(rules::specs::Bytes::is_digit))]
fn push(value: Option<u64>, digit: u8) -> Option<u64>
    requires { is_digit digit ≡ true }
    ensures { result ≡ pushed value digit }
{
    if let Some(v) = value
        && v < u64::MAX / 10
    {
        return Some(v * 10 + u64::from(digit - b'0'));
    }
    value?.checked_mul(10)?.checked_add(u64::from(digit - b'0'))
}

// The digits that s begins with, behind others of the value start. The library's `parse` reads a whole `&str`, and would not say where the digits end.
#[tactic(auto, using(crate::proofs::Numbers::digits), unfolding(rules::specs::Parse::count))]
#[inline(always)]
fn read_digits(s: &[u8], start: u64) -> Number<'_>
    ensures value { result.value ≡ digits_after start s.now }
    ensures left { result.left.now ≡ rest is_digit s.now }
{
    let mut value = Some(start);
    let mut left = s;
    while let [b, behind @ ..] = left {
        if !Digit::has(*b) {
            return Number { value, left };
        }
        value = push(value, *b);
        left = behind;
    }
    Number { value, left }
}

// The first digit is read apart, as most numbers have no other.
#[tactic(auto, unfolding(crate::proofs::Opened::readers))]
#[inline(always)]
pub fn read_number(s: &[u8]) -> Option<Number<'_>>
    ensures { number_in result ≡ number_of (read_number s.now) }
{
    match s {
        [b'0', left @ ..] => Some(Number {
            value: Some(0),
            left,
        }),
        [b, left @ ..] if Digit::has(*b) => Some(read_digits(left, u64::from(*b - b'0'))),
        _ => None,
    }
}

// These bytes.
#[tactic(auto, using(crate::proofs::Literals::literal_lem))]
pub fn skip_bytes<'a>(s: &'a [u8], w: &[u8]) -> Option<&'a [u8]>
    ensures { rest_in result ≡ rest_of (literal w.now s.now) }
{
    s.strip_prefix(w)
}

// A dot.
#[tactic(auto, unfolding(crate::proofs::Opened::readers))]
pub fn skip_dot(s: &[u8]) -> Option<&[u8]>
    ensures { rest_in result ≡ rest_of (literal (bytes ".") s.now) }
{
    match s {
        [b'.', left @ ..] => Some(left),
        _ => None,
    }
}

// A dot and a number.
#[tactic(auto, unfolding(crate::proofs::Opened::readers))]
#[inline(always)]
pub fn read_dot_number(s: &[u8]) -> Option<Number<'_>>
    ensures { number_in result ≡ number_of (read_after_dot read_number s.now) }
{
    read_number(skip_dot(s)?)
}

// A number whose value is not computed: `read_number` would.
#[tactic(auto, unfolding(crate::proofs::Opened::readers))]
pub fn skip_number(s: &[u8]) -> Option<&[u8]>
    ensures { rest_in result ≡ rest_of (read_number s.now) }
{
    match s {
        [b'0', left @ ..] => Some(left),
        [b, left @ ..] if Digit::has(*b) => Some(skip_run::<Digit>(left)),
        _ => None,
    }
}

// ---- identifiers

// A number, or a text by its bytes. No two are compared by a derived order or equality: precedence says how they compare.
#[derive(Clone, Copy)]
pub enum Identifier<'a> {
    Number(u64),
    Text(&'a [u8]),
}

// The bytes of s before what is left of it: by a length less another, since no pattern splits a slice by what is behind.
pub fn before<'a>(s: &'a [u8], left: &[u8]) -> &'a [u8]
    requires { length left.now ≤ length s.now }
    ensures { result.now ≡ before s.now left.now }
{
    &s[..s.len() - left.len()]
}

#[tactic(auto, using(crate::proofs::FirstBytes::identifiers), unfolding(crate::proofs::Opened::readers))]
pub fn read_identifier(s: &[u8]) -> Option<(Identifier<'_>, &[u8])>
    ensures { identifier_in result ≡ read_identifier s.now }
{
    match s {
        [b, behind @ ..] if is_letter(*b) => {
            let left = skip_run::<Word>(behind);
            Some((Identifier::Text(before(s, left)), left))
        }
        _ => {
            let n = read_number(s)?;
            match n.value {
                Some(value) => Some((Identifier::Number(value), n.left)),
                None => Some((Identifier::Text(before(s, n.left)), n.left)),
            }
        }
    }
}

// An identifier whose value is not computed: `read_identifier` would.
#[tactic(auto, unfolding(crate::proofs::Opened::readers))]
pub fn skip_identifier(s: &[u8]) -> Option<&[u8]>
    ensures { rest_in result ≡ rest_of (read_identifier s.now) }
{
    match s {
        [b, left @ ..] if is_letter(*b) => Some(skip_run::<Word>(left)),
        _ => skip_number(s),
    }
}

// ---- identifiers with dots between

// A reader of identifiers: those of a range, and in crates above those of a version.
pub trait Reader {
    ghost Item: { Type 0 };

    ghost reads: { List ℕ → Result Item };

    fn skip(s: &[u8]) -> Option<&[u8]>
        ensures { rest_in result ≡ rest_of (reads s.now) };

    ghost takes: { Takes reads };
}

// The identifiers of a range.
pub struct Ranges;

impl Reader for Ranges {
    ghost Item = { Identifier };

    ghost reads = { read_identifier };

    fn skip(s: &[u8]) -> Option<&[u8]> {
        skip_identifier(s)
    }

    ghost takes = { identifier-behind };
}

// How many identifiers with dots between there are, the text that they begin, and what is left behind them.
#[derive(Clone, Copy)]
pub struct Identifiers<'a> {
    pub count: usize,
    pub text: &'a [u8],
    pub left: &'a [u8],
}

// A dot and an identifier.
#[tactic(auto, unfolding(crate::proofs::Opened::readers))]
pub fn skip_after_dot<R: Reader>(s: &[u8]) -> Option<&[u8]>
    ensures { rest_in result ≡ rest_of (read_after_dot R.reads s.now) }
{
    R::skip(skip_dot(s)?)
}

// Identifiers with dots between. The count and what is left are bounded together (`within`, here and in the two below), for the sums over a text; the
// struct has not the text that bounds them. Out of line, since most texts have none.
#[tactic(auto, using(crate::proofs::Series::series))]
#[inline(never)]
pub fn skip_identifiers<R: Reader>(s: &[u8]) -> Option<Identifiers<'_>>
    ensures answer { series_in R.reads result ≡ series_of (read_series R.reads s.now) }
    ensures text { IfSome result (λ found. found.text ≡ s.entry) }
    ensures within { IfSome result (λ found. found.count + length found.left.now ≤ length s.now) }
{
    let mut left = R::skip(s)?;
    // By hand: an iterator's `count` would not hand on what is left behind the last one.
    let mut count = 1;
    while let Some(behind) = skip_after_dot::<R>(left) {
        count += 1;
        left = behind;
    }
    Some(Identifiers {
        count,
        text: s,
        left,
    })
}

// `-` or `+`, then identifiers with dots between.
#[tactic(auto, using(crate::proofs::Series::signed))]
#[inline(always)]
fn skip_signed(s: &[u8]) -> Option<Identifiers<'_>>
    ensures answer { qualifier_in result ≡ series_of (read_signed s.now) }
    ensures text { IfSome result (λ found. found.text.now ≡ drop 1 s.now) }
    ensures within { IfSome result (λ found. found.count + length found.left.now ≤ length s.now) }
{
    match s {
        [b, identifiers @ ..] if is_sign(*b) => skip_identifiers::<Ranges>(identifiers),
        _ => None,
    }
}

// A sign without identifiers is left: as in the rules, the qualifier is read then too, and has none.
#[tactic(auto, using(crate::proofs::Series::qualifiers))]
#[inline(always)]
pub fn skip_qualifier(s: &[u8]) -> Identifiers<'_>
    ensures answer { qualifier_is result ≡ series_of (read_qualifier s.now) }
    ensures text { result.text.now ≡ begun (list_of (read_qualifier s.now)) (drop 1 s.now) }
    ensures within { result.count + length result.left.now ≤ length s.now }
{
    skip_signed(s).unwrap_or(Identifiers {
        count: 0,
        text: &[],
        left: s,
    })
}
