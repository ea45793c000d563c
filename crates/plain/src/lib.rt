// The work of the program `plainform`: a text under each mode, as a line of its normal text or its refusal. The writers are as spelling's writers, for the reasons given
// there. Those of crates/verdicts have other answers, other bytes round them and another room.
#![tactic(auto)]

ghost use Rattle.std.specs.Prelude.{◌≡◌, ◌+◌, ◌≤◌, length};
ghost use Rattle.rules.specs.Answers.{normal_text};
ghost use Rattle.rules.specs.Plainform.{without_newline, mode_letters, spell_answer, mode_line, mode_lines, plainform, room};
ghost use Rattle.range.specs.Views.{compat_of};
ghost use Rattle.rows.specs.Put.{Put};

use normal_text::normal_text;
use range::Compat;
use spelling::{put_bytes, put_refused};

// How many bytes are enough for the lines of every input: `room` of the rules.
pub const ROOM: usize = 65562;

// ---- the input

#[tactic(auto, using(crate::proofs::Inputs::inputs))]
fn without_newline<'a>(input: &'a [u8]) -> &'a [u8]
    ensures { result.now ≡ without_newline input.now }
{
    match input {
        [front @ .., b'\n'] => front,
        _ => input,
    }
}

// ---- a line of a mode

// The mode in letters, and a blank. The program `admits` reads the letters among others as words of its command line (crates/arguments).
fn put_mode(out: &mut [u8], at: usize, compat: Compat) -> usize
    requires { at + length (mode_letters (compat_of compat)) ≤ length out.old }
    ensures { Put out.old at (mode_letters (compat_of compat)) out.new result }
{
    match compat {
        Compat::Cargo => put_bytes(out, at, b"cargo "),
        Compat::Npm => put_bytes(out, at, b"npm "),
    }
}

// The normal text, or the refusal, which is never 7: the bytes that are lent are enough.
#[tactic(auto, using(crate::proofs::Answering::answers))]
fn put_answer(text: &[u8], compat: Compat, out: &mut [u8], at: usize) -> usize
    requires { at + length (spell_answer (normal_text (compat_of compat) text.now)) ≤ length out.old }
    ensures { Put out.old at (spell_answer (normal_text (compat_of compat) text.now)) out.new result }
{
    match normal_text(text, compat, &mut out[at..]) {
        Ok(len) => at + len,
        Err(refusal) => put_refused(out, at, u64::from(refusal)),
    }
}

#[tactic(auto, using(crate::proofs::Lines::lines))]
fn put_line(text: &[u8], compat: Compat, out: &mut [u8], at: usize) -> usize
    requires { at + length (mode_line (compat_of compat) text.now) ≤ length out.old }
    ensures { Put out.old at (mode_line (compat_of compat) text.now) out.new result }
{
    let i = put_mode(out, at, compat);
    let end = put_answer(text, compat, out, i);
    put_bytes(out, end, b"\n")
}

// ---- the program

// The lines of both modes.
#[tactic(auto, using(crate::proofs::Lines::both_lines))]
fn put_lines(text: &[u8], out: &mut [u8]) -> usize
    requires { length (mode_lines text.now) ≤ length out.old }
    ensures { Put out.old 0 (mode_lines text.now) out.new result }
{
    let at = put_line(text, Compat::Cargo, out, 0);
    put_line(text, Compat::Npm, out, at)
}

// What the program writes, at the start of out; answers how many bytes that is, within those of out, where the program cuts them off.
#[tactic(auto, using(crate::proofs::Lines::programs))]
pub fn plainform(input: &[u8], out: &mut [u8]) -> usize
    requires { room ≤ length out.old }
    ensures put { Put out.old 0 (plainform input.now) out.new result }
    ensures within { result ≤ length out.new }
{
    let text = without_newline(input);
    if text.len() > 4096 {
        return put_bytes(out, 0, b"too long\n");
    }
    put_lines(text, out)
}
