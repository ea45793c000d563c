// The arguments of the programs that take a mode and a range.
#![tactic(auto)]

ghost use Rattle.streams.specs.Views.{IsPrefixLen};

use range::Compat;
use std::env::{Env, FillError};
use std::time::Clock;
use streams::{Failure, has_arg};

// The mode that the first names in letters; none where it names none, or where the arguments are not two.
pub fn mode(rt: &impl Env) -> Option<Compat> {
    if !has_arg(rt, 2) || has_arg(rt, 3) {
        return None;
    }
    // The library's `arg` fills memory that it is lent, and answers how many bytes. A `FromStr` would have to stand in `range`, which has no names of the
    // modes, and would take a `str`.
    let mut word = [0u8; 8];
    let n = rt.arg(1, &mut word).ok()?;
    match &word[..n] {
        b"cargo" => Some(Compat::Cargo),
        b"npm" => Some(Compat::Npm),
        _ => None,
    }
}

// Puts the second, the range, at the start of text, as the library's `arg` does, and answers its length: 0 where there is none, and then `mode` is
// none too. Of one that is longer than text it puts the first bytes, and answers how many these are: a range over 65,536 bytes is refused by its first
// 65,536, as every text of so many.
pub fn range(rt: &impl Env, text: &mut [u8]) -> usize
    ensures { IsPrefixLen result text.new }
{
    match rt.arg(2, text) {
        Ok(n) => n,
        Err(FillError::TooLong) => text.len(),
        Err(FillError::NotPresent) => 0,
    }
}

// Runs a program on the mode and the range, or says how it is called.
pub fn run<R: Env + Print + Eprint + Clock, F: FnOnce(Compat, &[u8]) -> Result<(), Failure>>(
    rt: &R,
    program: &[u8],
    usage: &[u8],
    answer: F,
)
    requires { F.IsAlwaysCallable answer }
{
    let Some(compat) = mode(rt) else {
        return streams::put_usage(rt, program, usage);
    };
    // No heap: an array, of which the range is the first bytes.
    let mut text = [0u8; 65536];
    let n = range(rt, &mut text);
    streams::tell(rt, program, answer(compat, &text[..n]));
}
