// The program `origins`: which words of a range each of its comparators came from. Its arguments are the mode and the range. It writes a line for
// each comparator, as `<2.0.0 from ^1.2.3`; or one line, where the range is refused.
#![tactic(auto)]

ghost use Rattle.std.specs.Prelude.{◌≤◌, IfOk, length};

use normal_text::normal_text;
use printing::{BYTES, IDS, WORDS};
use range::Compat;
use rangeset::identifier_bytes;
use reading::read;
use refusals::Refusal;
use rows::COMPARATOR_WORDS;
use std::io;
use std::io::Write;
use std::time::Clock;
use streams::{Failure, Output};

// ---- the lines

// The item of an empty range has no bytes. Both are bytes of a text and no `str`, so no `Display` prints them.
fn put_line(out: &mut impl Write, comparator: &[u8], item: &[u8]) -> io::Result<()> {
    out.write_all(comparator)?;
    if item.is_empty() {
        return out.write_all(b" from an empty range\n");
    }
    out.write_all(b" from ")?;
    out.write_all(item)?;
    out.write_all(b"\n")
}

// The comparators of the normal text stand in the order of their rows. A row is eight words of 01, which are u64, and its seventh and eighth are the
// item's place and length.
fn put_lines(out: &mut impl Write, range: &[u8], normal: &[u8], words: &[u64]) -> io::Result<()> {
    let comparators = normal
        .split(|b| *b == b' ')
        .filter(|word| !matches!(*word, b"||"));
    let (rows, _) = words.as_chunks::<COMPARATOR_WORDS>();
    for (comparator, row) in comparators.zip(rows) {
        let item = identifier_bytes(range, row[6] as usize, row[7] as usize);
        put_line(out, comparator, item)?;
    }
    Ok(())
}

// ---- the answer

// The rows of the range, and its normal text, whose length is answered. There is no heap, so both are written to memory that is lent.
fn read_and_spell(
    compat: Compat,
    range: &[u8],
    normal: &mut [u8],
    words: &mut [u64],
    ids: &mut [u64],
) -> Result<usize, Refusal>
    ensures { IfOk result (λ n. n ≤ length normal.new) }
{
    read(range, compat, words, ids)?;
    normal_text(range, compat, normal)
}

// The arrays are parameters: as the fields of one struct, of the one that the call changed it did not prove that the text's length lies within it.
fn answer(
    out: &mut impl Write,
    compat: Compat,
    range: &[u8],
    normal: &mut [u8; BYTES],
    words: &mut [u64; WORDS],
    ids: &mut [u64; IDS],
) -> io::Result<()> {
    match read_and_spell(compat, range, normal, words, ids) {
        Ok(len) => put_lines(out, range, &normal[..len], words),
        Err(refusal) => writeln!(out, "refused {refusal}"),
    }
}

// ---- the range

fn answer_range(rt: &(impl Print + Clock), compat: Compat, range: &[u8]) -> io::Result<()> {
    answer(
        &mut Output(rt),
        compat,
        range,
        &mut [0u8; BYTES],
        &mut [0u64; WORDS],
        &mut [0u64; IDS],
    )
}

fn main(rt: HostRuntime) {
    let usage = b"origins cargo|npm RANGE\n";
    arguments::run(&rt, b"origins", usage, |compat, range| {
        answer_range(&rt, compat, range).map_err(Failure::Output)
    });
}
