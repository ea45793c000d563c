// Versions: three numbers with dots between, prerelease identifiers behind a `-`, build identifiers behind a `+`. Each reader is given the
// part of the text from its place on, and hands back what is left behind what it read, or nothing where it read nothing.
#![tactic(auto)]

mod version;

ghost use Rattle.std.specs.Prelude.{◌≡◌, [], ◌∷◌, ℕ, List, length, drop, IfSome, IfOk};
ghost use Rattle.rules.specs.Syntax.{Identifier};
ghost use Rattle.rules.specs.Parse.{list_of};
ghost use Rattle.rules.specs.Version.{read_word, read_version_identifier, read_series, version_identifiers_in};
ghost use Rattle.rules.specs.Admission.{version_of};
ghost use Rattle.lexer.specs.Views.{rest_in, rest_of, series_in, series_of, begun};
ghost use Rattle.version.specs.Views.{padded, read_numbers, numbers_in, numbers_of, read_tail, tail_in, tail_of, numbered, parts_in, version_in, version_text_of, beginning};
ghost use Rattle.version.specs.Takes.{word-takes, identifier-takes};

use lexer::{
    Class, Digit, Identifiers, Reader, Word, before, read_dot_number, read_number,
    skip_identifiers, skip_run,
};
use refusals::{LONGEST, Refusal};
pub use version::Version;

// ---- identifiers

// Whether a word is of digits alone that begin with a zero, and not 0.
#[tactic(auto, using(crate::proofs::Words::paddings))]
fn is_padded(word: &[u8]) -> bool
    ensures { result ≡ padded word.now }
{
    match word {
        [b'0', _, ..] => skip_run::<Digit>(word).is_empty(),
        _ => false,
    }
}

#[tactic(auto, unfolding(lexer::proofs::Opened::readers, rules::specs::Version::read_word))]
fn skip_word(s: &[u8]) -> Option<&[u8]>
    ensures { rest_in result ≡ rest_of (read_word s.now) }
{
    match s {
        [b, left @ ..] if Word::has(*b) => Some(skip_run::<Word>(left)),
        _ => None,
    }
}

// Prerelease identifiers.
pub struct Prerelease;

impl Reader for Prerelease {
    ghost Item = { Identifier };

    ghost reads = { read_version_identifier };

    #[tactic(auto, using(crate::proofs::Words::identifiers))]
    fn skip(s: &[u8]) -> Option<&[u8]> {
        let left = skip_word(s)?;
        if is_padded(before(s, left)) {
            return None;
        }
        Some(left)
    }

    ghost takes = { identifier-takes };
}

// Build identifiers.
struct Build;

impl Reader for Build {
    ghost Item = { List ℕ };

    ghost reads = { read_word };

    fn skip(s: &[u8]) -> Option<&[u8]> {
        skip_word(s)
    }

    ghost takes = { word-takes };
}

// A sign, and identifiers with dots between; none where there is no sign. Where no identifier stands behind the sign, nothing is read, while
// `skip_qualifier` leaves such a sign of a range. The sign is given beside the reader: as a method of the trait
// it would be three functions with their ghost members for the two calls below.
#[tactic(auto, using(crate::proofs::Tails::series))]
#[inline(always)]
fn skip_series<R: Reader>(s: &[u8], sign: u8) -> Option<Identifiers<'_>>
    ensures answer { series_in R.reads result ≡ series_of (read_series (sign ∷ []) R.reads s.now) }
    ensures text { IfSome result (λ found. found.text.now ≡ begun (list_of (read_series (sign ∷ []) R.reads s.now)) (drop 1 s.now)) }
{
    match s {
        [b, identifiers @ ..] if *b == sign => skip_identifiers::<R>(identifiers),
        _ => Some(Identifiers {
            count: 0,
            text: &[],
            left: s,
        }),
    }
}

// ---- versions

// Three numbers, each where it is not too large, and what is left behind them.
#[derive(Clone, Copy)]
struct Numbers<'a> {
    major: Option<u64>,
    minor: Option<u64>,
    patch: Option<u64>,
    left: &'a [u8],
}

// Three numbers with dots between.
#[tactic(auto, using(crate::proofs::Dotted::numbers))]
#[inline(always)]
fn read_numbers(s: &[u8]) -> Option<Numbers<'_>>
    ensures { numbers_in result ≡ numbers_of (read_numbers s.now) }
{
    let major = read_number(s)?;
    let minor = read_dot_number(major.left)?;
    let patch = read_dot_number(minor.left)?;
    // Each field comes from another reader.
    Some(Numbers {
        major: major.value,
        minor: minor.value,
        patch: patch.value,
        left: patch.left,
    })
}

// The prerelease identifiers, where what follows the numbers is a version's to its end.
#[tactic(auto, using(crate::proofs::Tails::tails))]
#[inline(always)]
fn read_tail(s: &[u8]) -> Option<Identifiers<'_>>
    ensures answer { tail_in result ≡ tail_of (read_tail s.now) }
    ensures text { IfSome result (λ found. found.text.now ≡ begun (list_of (read_tail s.now)) (drop 1 s.now)) }
{
    let prerelease = skip_series::<Prerelease>(s, b'-')?;
    let build = skip_series::<Build>(prerelease.left, b'+')?;
    if !build.left.is_empty() {
        return None;
    }
    Some(prerelease)
}

impl Numbers<'_> {
    // The version of these numbers, where none is too large.
    fn version<'a>(self, prerelease: Identifiers<'a>) -> Option<Version<'a>>
        requires { prerelease.count ≡ length (version_identifiers_in prerelease.text.now) }
        ensures { parts_in result ≡ numbered self.entry.major self.entry.minor self.entry.patch prerelease.entry }
    {
        Some(Version {
            major: self.major?,
            minor: self.minor?,
            patch: self.patch?,
            count: prerelease.count,
            prerelease: prerelease.text,
        })
    }
}

// The version that the text is: refused where it is none or too long (8), or where a number of it is too large (9).
#[tactic(auto, using(crate::proofs::VersionLaws::versions))]
pub fn read_version(s: &[u8]) -> Result<Version<'_>, Refusal>
    ensures answer { version_in result ≡ version_text_of (version_of s.now) }
    ensures text { IfOk result (λ v. v.prerelease.now ≡ beginning s.now) }
{
    if s.len() > LONGEST {
        return Err(Refusal::NoVersion);
    }
    let n = read_numbers(s).ok_or(Refusal::NoVersion)?;
    let tail = read_tail(n.left).ok_or(Refusal::NoVersion)?;
    n.version(tail).ok_or(Refusal::VersionTooLarge)
}
