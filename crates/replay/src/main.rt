// 01's edges, and answers of the crate semver-parser 0.10.3, as rows of data (stdin), each of which is asked of the proved calls: what they answer,
// and what they leave in all that they are lent, is printed behind the row, and the gate holds it to the file stdout.
//
// A row is a line of nine numbers, with a blank between, and behind it two texts, with a newline behind each:
//
//     CALL CARGO NPM WORDS IDS SIZE GIVEN SIZE GIVEN
//
// CARGO is how many bytes are lent where the call is made under Cargo, and NPM where it is made under Npm; WORDS and IDS how many words are lent
// for comparators and for identifiers. SIZE is how many bytes a text has, and GIVEN how many of them stand in the row: in a text that has more, the
// last two of these are repeated behind them. CALL is one of
//
//     0  a heading: the text says what the rows behind it are
//     1  the normal text
//     2  the reading
//     3  admission: the second text is the version
//     4  the normal text read again, under the other mode
//     5  the readings compared: with the second text under Npm, whose normal text is lent WORDS bytes
//     6  plainform
//     7, 8, 9  as 1, 2 and 4, for long texts: of what is lent the end is printed; 8 and 9 are lent comparator words for every text, 8 identifier
//              words too, and 9 none
//
// A line for each mode, Cargo first, has 01's number and what is counted, `yes` or `no`, or `equal` or `different`; behind it, or in lines of their
// own, stand all lent bytes, which held `_` before, and all lent words, which held 7.
#![tactic(auto)]

use admission::admit;
use data_rows::{Rest, at_most};
use equality::{equal_readings, read_normal_text};
use lexer::before;
use normal_text::normal_text;
use plain::plainform;
use printing::{Answer, BYTES, Counted, IDS, Length, Shown, WORDS};
use range::Compat;
use reading::read;
use std::io;

// The most bytes, and the most words of a kind, that are lent where all of it is printed.
const SHORT_BYTES: usize = 1024;

const SHORT_WORDS: usize = 64;

// The most bytes of a row's first text, and of its second, and the bytes of the file.
const TEXT: usize = 131072;

const OTHER: usize = 65536;

const FILE: usize = 131072;

// ---- rows

// A call that is shown with short memory, all of it, and with long memory, by its end.
#[derive(Clone, Copy, PartialEq, Eq)]
enum Spelled {
    NormalText,
    Reading,
    ReadAgain,
}

#[derive(Clone, Copy, PartialEq, Eq)]
enum Call {
    Heading,
    Short(Spelled),
    Admission,
    Equality,
    Plainform,
    Long(Spelled),
}

// The rows are numbers. One that is no call's is taken for 9.
impl From<u64> for Call {
    fn from(number: u64) -> Call {
        match number {
            0 => Call::Heading,
            1 => Call::Short(Spelled::NormalText),
            2 => Call::Short(Spelled::Reading),
            3 => Call::Admission,
            4 => Call::Short(Spelled::ReadAgain),
            5 => Call::Equality,
            6 => Call::Plainform,
            7 => Call::Long(Spelled::NormalText),
            8 => Call::Long(Spelled::Reading),
            _ => Call::Long(Spelled::ReadAgain),
        }
    }
}

// A text: how many bytes it has, how many of them stand in the row by its line, and these, which are fewer where the file ends before.
#[derive(Clone, Copy)]
struct Text<'a> {
    size: u64,
    given: u64,
    bytes: &'a [u8],
}

// A row: its line, what the line's numbers say, and the texts.
#[derive(Clone, Copy)]
struct Row<'a> {
    line: &'a [u8],
    call: Call,
    cargo: u64,
    npm: u64,
    words: u64,
    ids: u64,
    text: Text<'a>,
    other: Text<'a>,
}

// The call of a row under one mode, with so many bytes lent.
#[derive(Clone, Copy)]
struct Question<'a> {
    compat: Compat,
    bytes: u64,
    words: u64,
    ids: u64,
    text: &'a [u8],
    other: &'a [u8],
}

impl<'a> data_rows::Row<'a> for Row<'a> {
    fn take(rest: &mut Rest<'a>) -> Row<'a> {
        // Where the line begins.
        let start = rest.bytes;
        let call = Call::from(rest.number());
        let cargo = rest.number();
        let npm = rest.number();
        let words = rest.number();
        let ids = rest.number();
        let size = rest.number();
        let given = rest.number();
        let other_size = rest.number();
        let other_given = rest.number();
        let line = before(start, rest.bytes);
        let text = Text {
            size,
            given,
            bytes: rest.text(given),
        };
        let other = Text {
            size: other_size,
            given: other_given,
            bytes: rest.text(other_given),
        };
        Row {
            line,
            call,
            cargo,
            npm,
            words,
            ids,
            text,
            other,
        }
    }
}

// ---- the calls

// The one user is here, and the mode's crate has no word for it.
fn other_mode(compat: Compat) -> Compat {
    match compat {
        Compat::Cargo => Compat::Npm,
        Compat::Npm => Compat::Cargo,
    }
}

// What a call is lent.
#[derive(Drop)]
struct Lent<'a> {
    out: &'a mut [u8],
    words: &'a mut [u64],
    ids: &'a mut [u64],
}

impl<'a> Question<'a> {
    // The question of long memory: all words, but that the reading alone takes identifier words.
    fn lent_all(self, call: Spelled) -> Question<'a> {
        Question {
            words: u64::MAX,
            ids: match call {
                Spelled::Reading => u64::MAX,
                Spelled::NormalText | Spelled::ReadAgain => 0,
            },
            ..self
        }
    }

    // Of what is lent the call takes as much as the row says, or all. A match on the call, here and below: the rows say which it is, so it is data, and no
    // function that a caller could pass.
    fn show_spelled(
        &self,
        rt: &impl Print,
        call: Spelled,
        shown: Shown,
        lent: Lent<'_>,
    ) -> io::Result<()> {
        let Lent { out, words, ids } = lent;
        let m = at_most(self.bytes, out.len());
        let n = at_most(self.words, words.len());
        let k = at_most(self.ids, ids.len());
        let (out, words, ids) = (&mut out[..m], &mut words[..n], &mut ids[..k]);
        match call {
            Spelled::NormalText => {
                let length = normal_text(self.text, self.compat, out).map(Length);
                print!(rt; " {} ", Answer(length))?;
                shown.put_bytes(rt, out)
            }
            Spelled::Reading => {
                let counts = read(self.text, self.compat, words, ids).map(Counted);
                println!(rt; " {}", Answer(counts))?;
                shown.put_words(rt, words)?;
                shown.put_words(rt, ids)
            }
            Spelled::ReadAgain => {
                let other = other_mode(self.compat);
                let counts = read_normal_text(self.text, self.compat, other, out, words, ids);
                println!(rt; " {}", Answer(counts.map(Counted)))?;
                shown.put_bytes(rt, out)?;
                shown.put_words(rt, words)?;
                shown.put_words(rt, ids)
            }
        }
    }

    // The arrays are parameters: over arrays of this size that are made here, the proof of `Lent` is too deep for the prover.
    fn show_long(
        &self,
        rt: &impl Print,
        call: Spelled,
        out: &mut [u8; BYTES],
        words: &mut [u64; WORDS],
        ids: &mut [u64; IDS],
    ) -> io::Result<()> {
        let lent = Lent { out, words, ids };
        self.lent_all(call).show_spelled(rt, call, Shown::End, lent)
    }

    fn show_admission(&self, rt: &impl Print) -> io::Result<()> {
        let admitted = admit(self.text, self.compat, self.other);
        println!(rt;
            " {}",
            Answer(admitted.map(|yes| if yes { "yes" } else { "no" }))
        )
    }

    fn show_equality(&self, rt: &impl Print) -> io::Result<()> {
        // No heap: arrays, of which as much is lent as the row says.
        let mut first = [b'_'; SHORT_BYTES];
        let mut second = [b'_'; SHORT_WORDS];
        let a = &mut first[..at_most(self.bytes, SHORT_BYTES)];
        let b = &mut second[..at_most(self.words, SHORT_WORDS)];
        let same = equal_readings(self.text, self.compat, self.other, Compat::Npm, a, b);
        println!(rt;
            " {}",
            Answer(same.map(|yes| if yes { "equal" } else { "different" }))
        )?;
        Shown::Whole.put_bytes(rt, a)?;
        Shown::Whole.put_bytes(rt, b)
    }

    fn show(&self, rt: &impl Print, call: Call) -> io::Result<()> {
        match call {
            Call::Heading => Ok(()),
            Call::Short(call) => {
                let lent = Lent {
                    out: &mut [b'_'; SHORT_BYTES],
                    words: &mut [7; SHORT_WORDS],
                    ids: &mut [7; SHORT_WORDS],
                };
                self.show_spelled(rt, call, Shown::Whole, lent)
            }
            Call::Admission => self.show_admission(rt),
            Call::Equality => self.show_equality(rt),
            Call::Plainform => show_plainform(rt, self.text, &mut [0; plain::ROOM]),
            Call::Long(call) => self.show_long(
                rt,
                call,
                &mut [b'_'; BYTES],
                &mut [7; WORDS],
                &mut [7; IDS],
            ),
        }
    }
}

// It writes to an array (no heap), and answers how many bytes.
fn show_plainform(rt: &impl Print, input: &[u8], out: &mut [u8; plain::ROOM]) -> io::Result<()> {
    let len = plainform(input, out);
    rt.write_all(&out[..len])
}

// ---- a text longer than what is given of it

impl Text<'_> {
    fn is_cut(&self) -> bool {
        self.size > self.given
    }

    // The text begins with what is given, and goes on with the last two bytes of it. Where that has no room, all bytes stay.
    fn lengthen<'b>(&self, whole: &'b mut [u8]) -> &'b [u8] {
        let n = at_most(self.size, whole.len());
        if let Some((head, tail)) = whole.split_at_mut_checked(self.bytes.len()) {
            head.copy_from_slice(self.bytes);
            if let Some(last) = head.last_chunk::<2>() {
                for (byte, same) in tail.iter_mut().zip(last.iter().cycle()) {
                    *byte = *same;
                }
            }
        }
        &whole[..n]
    }
}

// ---- a row

impl Row<'_> {
    // The row's call, under each mode; plainform asks under both itself.
    fn show_call(&self, rt: &impl Print, text: &[u8], other: &[u8]) -> io::Result<()> {
        let question = Question {
            compat: Compat::Cargo,
            bytes: self.cargo,
            words: self.words,
            ids: self.ids,
            text,
            other,
        };
        question.show(rt, self.call)?;
        if self.call == Call::Plainform {
            return Ok(());
        }
        let under_npm = Question {
            compat: Compat::Npm,
            bytes: self.npm,
            ..question
        };
        under_npm.show(rt, self.call)
    }

    // No heap: the texts are made in arrays.
    fn show_long(&self, rt: &impl Print) -> io::Result<()> {
        let mut first = [0u8; TEXT];
        let mut second = [0u8; OTHER];
        let text = self.text.lengthen(&mut first);
        let other = self.other.lengthen(&mut second);
        self.show_call(rt, text, other)
    }

    // The row, and behind it what the call answers and leaves.
    fn show(&self, rt: &impl Print) -> io::Result<()> {
        rt.write_all(self.line)?;
        Shown::Whole.put_bytes(rt, self.text.bytes)?;
        Shown::Whole.put_bytes(rt, self.other.bytes)?;
        if self.text.is_cut() || self.other.is_cut() {
            return self.show_long(rt);
        }
        self.show_call(rt, self.text.bytes, self.other.bytes)
    }
}

// ---- the file

// No heap: the file is read to an array.
fn main(rt: HostRuntime) -> io::Result<()> {
    data_rows::replay(&rt, &mut [0u8; FILE], |row: Row<'_>| row.show(&rt))
}
