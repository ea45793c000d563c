// The program `admits`: which versions a range admits. Its arguments are the mode and the range. It reads versions from standard input, one to
// a line, and writes each line with its answer; or one line, where the range is refused.
#![tactic(auto)]

ghost use Rattle.std.specs.Prelude.{◌≡◌, ◌+◌, ◌-◌, ◌≤◌, ◌++◌, [], OnOk, length, min, take};
ghost use Rattle.rules.specs.Admits.{verdict_room};
ghost use Rattle.arrayvec.specs.ArrayVec.{array_vec_len};

use arrayvec::ArrayVec;
use memchr::memchr;
use range::Compat;
use rangeset::RangeSet;
use std::io;
use std::io::Write;
use std::time::Clock;
use streams::{Failure, Output};
use verdicts::{parse_or_put, put_verdict};

// ---- the lines

// How many bytes of a line are held: a longer line has one answer, whatever follows.
const LINE: usize = 65536;

// How many bytes of answers are held before they are written.
const BLOCK: usize = 131072;

// The answers of a range to the lines of an input.
#[derive(Drop)]
struct Answers<'a, W> {
    set: RangeSet<'a>,
    // The first bytes of the line that is not ended. It takes as many bytes as it has room for, and is full where the line is over 65,535 bytes.
    line: ArrayVec<u8, LINE>,
    // The last line that ended, with its answer: `put_verdict` puts it at the start of memory that it is lent, and answers its length.
    answered: [u8; verdicts::ROOM],
    // Lines with their answers, which are written when there are many.
    block: ArrayVec<u8, BLOCK>,
    out: W,
}

impl<W: Write> Answers<'_, W> {
    // Writes the block. The line that is held stays.
    fn flush(&mut self) -> io::Result<()>
        ensures cleared { OnOk result (self.new.block.items ≡ []) }
        ensures line { self.new.line ≡ self.old.line }
        ensures answered { self.new.answered ≡ self.old.answered }
    {
        self.out.write_all(self.block.as_slice())?;
        self.block.clear();
        Ok(())
    }

    // Writes the block, unless so many bytes have room in it: an empty one has room for every answer.
    fn with_room(&mut self, len: usize) -> io::Result<()>
        requires { len ≤ verdict_room }
        ensures room { OnOk result (array_vec_len self.new.block + len ≤ BLOCK) }
        ensures line { self.new.line ≡ self.old.line }
        ensures answered { self.new.answered ≡ self.old.answered }
    {
        if self.block.remaining_capacity() < len {
            self.flush()?;
        }
        Ok(())
    }

    // Puts the first bytes of `answered` behind the block's bytes.
    fn put(&mut self, len: usize)
        requires answered { len ≤ verdict_room }
        requires room { array_vec_len self.old.block + len ≤ BLOCK }
        ensures block { self.new.block.items ≡ self.old.block.items ++ take len self.old.answered }
        ensures line { self.new.line ≡ self.old.line }
    {
        let _fits = self.block.try_extend_from_slice(&self.answered[..len]);
    }

    // Answers the line that is held, and holds none.
    fn answer(&mut self) -> io::Result<()>
        ensures { self.new.line.items ≡ [] }
    {
        let len = put_verdict(&self.set, self.line.as_slice(), &mut self.answered);
        self.line.clear();
        self.with_room(len)?;
        self.put(len);
        Ok(())
    }

    // Holds as many of these bytes as have room behind those of the line.
    fn hold(&mut self, part: &[u8])
        ensures line { self.new.line.items ≡ self.old.line.items ++ take (min (LINE - array_vec_len self.old.line) (length part.now)) part.now }
        ensures block { self.new.block ≡ self.old.block }
    {
        let _held = self.line.write(part);
    }

    // Answers the lines that end in the chunk, and holds what follows them.
    fn answer_chunk(&mut self, chunk: &[u8]) -> io::Result<()> {
        let mut rest = chunk;
        while let Some(end) = memchr(b'\n', rest) {
            self.hold(&rest[..end]);
            self.answer()?;
            rest = &rest[end + 1..];
        }
        self.hold(rest);
        self.flush()
    }

    // Answers the last line, which needs no 0A.
    fn answer_last(&mut self) -> io::Result<()>
        ensures { self.new.line.items ≡ [] }
    {
        if !self.line.is_empty() {
            self.answer()?;
        }
        self.flush()
    }

    // A read fills an array (no heap) to the place that it answers, and no bytes are the end of the input. Where a read fails, the line that is not
    // ended has no answer. The reads are counted, up to a number that no run uses up: a loop
    // with no end needs a handle that the programs are not allowed.
    fn answer_all(&mut self, rt: &(impl io::Input + Clock)) -> Result<(), Failure> {
        let mut chunk = [0u8; 65536];
        for _ in 0..u64::MAX {
            let n = streams::read(rt, &mut chunk).map_err(Failure::Input)?;
            if n == 0 {
                return self.answer_last().map_err(Failure::Output);
            }
            self.answer_chunk(&chunk[..n]).map_err(Failure::Output)?;
        }
        Ok(())
    }
}

fn answer_lines(rt: &(impl io::Input + Print + Clock), set: RangeSet<'_>) -> Result<(), Failure> {
    let mut answers = Answers {
        set,
        line: ArrayVec::new(),
        answered: [0; verdicts::ROOM],
        block: ArrayVec::new(),
        out: Output(rt),
    };
    answers.answer_all(rt)
}

// ---- the range

// The range is read once, and not for each version.
fn answer_range(
    rt: &(impl io::Input + Print + Clock),
    compat: Compat,
    range: &[u8],
) -> Result<(), Failure> {
    // No heap: an array, of which the line is the first bytes.
    let mut out = [0u8; verdicts::ROOM];
    match parse_or_put(range, compat, &mut out) {
        Ok(set) => answer_lines(rt, set),
        Err(len) => Output(rt).write_all(&out[..len]).map_err(Failure::Output),
    }
}

fn main(rt: HostRuntime) {
    let usage = b"admits cargo|npm RANGE < VERSIONS\n";
    arguments::run(&rt, b"admits", usage, |compat, range| {
        answer_range(&rt, compat, range)
    });
}
