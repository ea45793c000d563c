// The files of the programs that replay rows of data: numbers, with a byte behind each, and texts of so many bytes, with a byte behind each.
#![tactic(auto)]

ghost use Rattle.std.specs.Prelude.{◌≡◌, ◌+◌, ◌-◌, ◌≤◌, drop, length, min, take};
ghost use Rattle.rules.specs.Parse.{read_number};
ghost use Rattle.lexer.specs.Views.{number_of};
ghost use Rattle.data_rows.specs.Views.{number_at};

use lexer::read_number;
use std::io;
use std::time::Clock;

// So many, or as many as there are. Neither of the two types has a `From` to the other.
pub fn at_most(n: u64, room: usize) -> usize
    ensures { result ≡ min n room }
{
    n.min(room as u64) as usize
}

// What is left of a file.
#[derive(Clone, Copy)]
pub struct Rest<'a> {
    pub bytes: &'a [u8],
}

impl<'a> Rest<'a> {
    // Takes n bytes and the byte behind them, or as many as there are, and answers the n.
    pub fn text(&mut self, n: u64) -> &'a [u8]
        ensures answer { result.now ≡ take n self.old.bytes.now }
        ensures rest { self.new.bytes.now ≡ drop (n + 1) self.old.bytes.now }
    {
        let (text, behind) = self.bytes.split_at(at_most(n, self.bytes.len()));
        self.bytes = behind.get(1..).unwrap_or(behind);
        text
    }

    // Takes a number and the byte behind it. Where there is no number, that is 0, as for a field that a row leaves empty; one of more than 64 bits is the
    // largest.
    #[tactic(auto, using(crate::proofs::Numbers::number_within))]
    pub fn number(&mut self) -> u64
        ensures value { result ≡ number_at (number_of (read_number self.old.bytes.now)) }
        ensures rest { length self.new.bytes.now ≤ length self.old.bytes.now - 1 }
    {
        let (value, left) = match read_number(self.bytes) {
            Some(number) => (number.value.unwrap_or(u64::MAX), number.left),
            None => (0, self.bytes),
        };
        self.bytes = left;
        self.text(0);
        value
    }
}

// ---- the rows

// A row of a file, which is a byte at least.
pub trait Row<'a>: Sized {
    fn take(rest: &mut Rest<'a>) -> Self
        ensures { length rest.new.bytes.now ≤ length rest.old.bytes.now - 1 };
}

// Reads standard input to `file`, and shows each row. There is no heap, so the caller lends more bytes than there are: of a longer input the last row
// would be cut off.
pub fn replay<'a, R: Row<'a>, F: FnMut(R) -> io::Result<()>>(
    rt: &(impl io::Input + Clock),
    file: &'a mut [u8],
    mut show: F,
) -> io::Result<()>
    requires { F.IsAlwaysCallable show }
{
    let n = streams::read_all(rt, file)?;
    let mut rest = Rest { bytes: &file[..n] };
    while !rest.bytes.is_empty() {
        show(R::take(&mut rest))?;
    }
    Ok(())
}
