// The shelf's edges as rows of data (stdin), in the manner of the program that replays 01's: each row is a call on one shelf, by the functions that
// `maluwesi_shelf_c` exports. What a call answers is printed behind its row, and what it leaves as the Adler-32 checksum of all lent bytes; the gate
// holds both to the file stdout.
//
// A row is a line of five numbers, with a blank between, and behind it a text, with a newline behind it:
//
//     CALL SIZE CODE MODE LENGTH
//
// SIZE is how many bytes are lent: a shelf has 37,890, and they stay from row to row. LENGTH is the text's. CALL is one of
//
//     0  a heading: the text says what the rows behind it are
//     1  make empty
//     2  add the text, with this code and mode
//     3  remove the code
//     4  the listing of the code: the number, the place and the length
//     5  first fit of the version that is the text: the number, 1 where one fits, and its code
//     6  no call: the byte at the place CODE becomes MODE
//     7  the lookup of the version that is the text, as first fit
#![tactic(auto)]

ghost use Rattle.std.specs.Prelude.{◌<◌};

use data_rows::{Rest, at_most};
use lexer::before;
use maluwesi_shelf::{
    maluwesi_shelf_add, maluwesi_shelf_clear, maluwesi_shelf_find, maluwesi_shelf_first_fit,
    maluwesi_shelf_lookup, maluwesi_shelf_remove,
};
use std::io;

// ---- rows

#[derive(Clone, Copy, PartialEq, Eq)]
enum Call {
    Heading,
    Clear,
    Add,
    Remove,
    Find,
    FirstFit,
    SetByte,
    Lookup,
}

// The rows are numbers. One that is no call's sets a byte, as 6 does.
impl From<u64> for Call {
    fn from(number: u64) -> Call {
        match number {
            0 => Call::Heading,
            1 => Call::Clear,
            2 => Call::Add,
            3 => Call::Remove,
            4 => Call::Find,
            5 => Call::FirstFit,
            7 => Call::Lookup,
            _ => Call::SetByte,
        }
    }
}

// A row: its line, what the line's numbers say, as the exported functions take it (the mode is a number), and the text.
#[derive(Clone, Copy)]
struct Row<'a> {
    line: &'a [u8],
    call: Call,
    size: u64,
    code: u16,
    mode: u8,
    text: &'a [u8],
}

impl<'a> data_rows::Row<'a> for Row<'a> {
    fn take(rest: &mut Rest<'a>) -> Row<'a> {
        // Where the line begins.
        let start = rest.bytes;
        let call = Call::from(rest.number());
        let size = rest.number();
        // A cast is to lose no bits, so the remainder is taken first.
        let code = (rest.number() % 65536) as u16;
        let mode = (rest.number() % 256) as u8;
        let length = rest.number();
        let line = before(start, rest.bytes);
        let text = rest.text(length);
        Row {
            line,
            call,
            size,
            code,
            mode,
            text,
        }
    }
}

// ---- what is printed

// The sum of two, by the modulus of Adler-32.
fn plus(a: u64, b: u64) -> u64
    ensures { result < 65521 }
{
    (a % 65521 + b % 65521) % 65521
}

fn put_checksum(rt: &impl Print, s: &[u8]) -> io::Result<()> {
    let mut a = 1;
    let mut b = 0;
    // Two sums and no `fold` over a pair of them, which took 1.4 times as long.
    for byte in s {
        a = plus(a, u64::from(*byte));
        b = plus(b, a);
    }
    println!(rt; " {b} {a}")
}

// ---- the calls

// The function that C calls leaves a place and a length.
fn show_find(rt: &impl Print, shelf: &[u8], code: u16) -> io::Result<()> {
    let mut place = 1;
    let mut len = 1;
    let number = maluwesi_shelf_find(shelf, code, &mut place, &mut len);
    print!(rt; " {number} {place} {len}")
}

// What first fit or the lookup answers.
fn show_fit<F: FnOnce(&mut u8, &mut u16) -> u64>(rt: &impl Print, fit: F) -> io::Result<()>
    requires { F.IsAlwaysCallable fit }
{
    let mut found = 1;
    let mut code = 1;
    let number = fit(&mut found, &mut code);
    print!(rt; " {number} {found} {code}")
}

fn set_byte(shelf: &mut [u8], at: u16, byte: u8) {
    if let Some(place) = shelf.get_mut(usize::from(at)) {
        *place = byte;
    }
}

impl Row<'_> {
    // A match on the call: the rows say which it is, so it is data, and no function that a caller could pass.
    fn show_call(&self, rt: &impl Print, shelf: &mut [u8]) -> io::Result<()> {
        // For the two closures.
        let text = self.text;
        match self.call {
            Call::Heading => Ok(()),
            Call::Clear => print!(rt; " {}", maluwesi_shelf_clear(shelf)),
            Call::Add => print!(rt;
                " {}",
                maluwesi_shelf_add(shelf, self.code, self.mode, text)
            ),
            Call::Remove => print!(rt; " {}", maluwesi_shelf_remove(shelf, self.code)),
            Call::Find => show_find(rt, shelf, self.code),
            Call::FirstFit => show_fit(rt, |found, code| {
                maluwesi_shelf_first_fit(shelf, text, found, code)
            }),
            Call::Lookup => show_fit(rt, |found, code| {
                maluwesi_shelf_lookup(shelf, text, found, code)
            }),
            Call::SetByte => {
                set_byte(shelf, self.code, self.mode);
                Ok(())
            }
        }
    }

    // The row, and behind it what the call answers and leaves.
    fn show(&self, rt: &impl Print, memory: &mut [u8]) -> io::Result<()> {
        rt.write_all(self.line)?;
        rt.write_all(self.text)?;
        rt.write_all(b"\n")?;
        let n = at_most(self.size, memory.len());
        let shelf = &mut memory[..n];
        self.show_call(rt, shelf)?;
        put_checksum(rt, shelf)
    }
}

// ---- the file

// No heap: the file is read to an array, and the shelf is the first bytes of another, as many as each row says.
fn main(rt: HostRuntime) -> io::Result<()> {
    let mut memory = [0u8; 37891];
    data_rows::replay(&rt, &mut [0u8; 16384], |row: Row<'_>| {
        row.show(&rt, &mut memory)
    })
}
