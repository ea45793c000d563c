// The work of the program `admits`: the line for a version, and the line for a refused range. The writers are as spelling's
// writers, for the reasons given there; some write from the start.
#![tactic(auto)]

ghost use Rattle.std.specs.Prelude.{◌≡◌, ◌+◌, ◌-◌, ◌<◌, ◌≤◌, length, take, MatchResult};
ghost use Rattle.rules.specs.Admits.{spell_verdict, verdict_line, answer_line, refused_range, verdict_room};
ghost use Rattle.range.specs.Views.{compat_of};
ghost use Rattle.rows.specs.Put.{Put};
ghost use Rattle.refusals.specs.Views.{answer_of};
ghost use Rattle.rangeset.specs.Sets.{IsSetOf};
ghost use Rattle.verdicts.specs.Views.{length_put};

use admission::admit_version;
use range::Compat;
use rangeset::RangeSet;
use refusals::{LONGEST, Refusal};
use spelling::{put_bytes, put_refused};

// How many bytes are enough for every line: `verdict_room` of the rules. Both writers of lines say that they end within the bytes, where the program cuts
// them off.
pub const ROOM: usize = 65567;

// ---- the line for a version

// The answer in letters: each has its bytes, and the refusal its number.
fn put_answer(out: &mut [u8], at: usize, answer: Result<bool, Refusal>) -> usize
    requires { at + length (spell_verdict (answer_of answer)) ≤ length out.old }
    ensures { Put out.old at (spell_verdict (answer_of answer)) out.new result }
{
    match answer {
        Ok(true) => put_bytes(out, at, b"yes"),
        Ok(false) => put_bytes(out, at, b"no"),
        Err(refusal) => put_refused(out, at, u64::from(refusal)),
    }
}

// The line, a blank, the answer and a 0A.
#[tactic(auto, using(crate::proofs::Lines::lines))]
fn put_line(line: &[u8], answer: Result<bool, Refusal>, out: &mut [u8]) -> usize
    requires { length (verdict_line line.now (answer_of answer)) ≤ length out.old }
    ensures { Put out.old 0 (verdict_line line.now (answer_of answer)) out.new result }
{
    let i = put_bytes(out, 0, line);
    let j = put_bytes(out, i, b" ");
    let end = put_answer(out, j, answer);
    put_bytes(out, end, b"\n")
}

// Whether the range admits the version on the line, as a line. The refusal of a line that is too long is one text; of Refusal and newline it would take two writers.
#[tactic(auto, using(crate::proofs::Lines::verdicts))]
pub fn put_verdict(set: &RangeSet<'_>, line: &[u8], out: &mut [u8]) -> usize
    requires { verdict_room ≤ length out.old }
    ensures put { Put out.old 0 (answer_line (compat_of set.now.compat) set.now.text.now line.now) out.new result }
    ensures within { result ≤ length out.new }
{
    if line.len() > LONGEST {
        return put_bytes(out, 0, b"refused 8\n");
    }
    put_line(line, admit_version(set, line), out)
}

// ---- the line for the range

// The range, if it is not refused; else its line is put, and the error is how many bytes that is, as every writer answers.
#[tactic(auto, using(crate::proofs::Ranges::ranges))]
pub fn parse_or_put<'a>(
    range: &'a [u8],
    compat: Compat,
    out: &mut [u8],
) -> Result<RangeSet<'a>, usize>
    requires { verdict_room ≤ length out.old }
    ensures put { Put out.old 0 (refused_range (compat_of compat) range.now) out.new (length_put result) }
    ensures of { MatchResult result (IsSetOf range.entry compat) (λ len. 0 < len) }
    ensures within { length_put result ≤ length out.new }
{
    match RangeSet::parse(range, compat) {
        Ok(set) => Ok(set),
        Err(refusal) => {
            let end = put_refused(out, 0, u64::from(refusal));
            Err(put_bytes(out, end, b"\n"))
        }
    }
}
