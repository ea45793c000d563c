// The manners of the programs on their standard streams. A read that fails is told from the end of the input, and a write that takes a part of its
// bytes is followed by another. What a signal interrupts is tried again, and so is a call on a non-blocking descriptor that is not ready. No contract
// can say which bytes are read or written.
#![tactic(auto)]

ghost use Rattle.std.specs.Prelude.{◌≤◌, IfOk, length};
ghost use Rattle.streams.specs.Views.{IsPrefixLen};

use arrayvec::ArrayString;
use std::env::{Env, FillError};
use std::fmt::Write as _;
use std::io::{ErrorKind, Read, Write};
use std::time::{Clock, Duration};
use std::{fmt, io, str, thread};

// ---- calls that are tried again

// Waits where the call that failed is to be tried again, and hands back the error where it is not. Where the descriptor is not ready, the wait is a
// millisecond: there is no call that waits for it.
fn wait(rt: &impl Clock, error: io::Error) -> io::Result<()> {
    match error.kind() {
        ErrorKind::WouldBlock => {
            thread::sleep(rt, Duration::from_millis(1));
            Ok(())
        }
        ErrorKind::Interrupted => Ok(()),
        _ => Err(error),
    }
}

// The error of tries that were counted to their end, a number that no run uses up: a loop with no end is a handle that the programs are not allowed.
fn tired() -> io::Error {
    io::Error::from(ErrorKind::Interrupted)
}

// ---- standard input

// Reads some bytes to the start of buf, or none at the end of the input; answers how many, as the library's `read` does. The loop is that of
// `Output::write` over another call: as one function over a closure for the call it did not prove, since behind it nothing is known of what the closure
// left in buf.
pub fn read(rt: &(impl io::Input + Clock), buf: &mut [u8]) -> io::Result<usize>
    ensures prefix_len { IfOk result (λ n. IsPrefixLen n buf.new) }
    ensures within { IfOk result (λ n. n ≤ length buf.old) }
{
    for _ in 0..u64::MAX {
        match rt.reader().read(buf) {
            Ok(n) => return Ok(n),
            Err(error) => wait(rt, error)?,
        }
    }
    Err(tired())
}

// Reads to the start of buf until the input ends or buf is full. The library's `read_exact` does not say how many bytes came before the end, and its
// `read_to_end` needs a heap.
pub fn read_all(rt: &(impl io::Input + Clock), buf: &mut [u8]) -> io::Result<usize>
    ensures { IfOk result (λ n. IsPrefixLen n buf.new) }
{
    let mut at = 0;
    while at < buf.len() {
        match read(rt, &mut buf[at..])? {
            0 => break,
            n => at += n,
        }
    }
    Ok(at)
}

// ---- standard output

// Standard output as a writer.
#[derive(Drop)]
pub struct Output<'a, R>(pub &'a R);

impl<R: Print + Clock> Write for Output<'_, R> {
    fn write(&mut self, text: &[u8]) -> io::Result<usize> {
        for _ in 0..u64::MAX {
            match self.0.write_some(text) {
                Ok(n) => return Ok(n),
                Err(error) => wait(self.0, error)?,
            }
        }
        Err(tired())
    }

    fn flush(&mut self) -> io::Result<()> {
        Ok(())
    }

    // As std's, but that its error is what the system would say of the kind. Where nothing was taken it fails, and `read_all` ends: the two are not one
    // loop.
    fn write_all(&mut self, text: &[u8]) -> io::Result<()> {
        let mut rest = text;
        while !rest.is_empty() {
            match self.write(rest)? {
                0 => return Err(io::Error::from(ErrorKind::WriteZero)),
                n => rest = &rest[n..],
            }
        }
        Ok(())
    }
}

// ---- standard error

// Which stream failed, and why. No two are compared.
#[derive(Clone, Copy)]
pub enum Failure {
    Input(io::Error),
    Output(io::Error),
}

// What the system says of the error, without its number.
impl fmt::Display for Failure {
    fn fmt<W: fmt::Write>(&self, f: &mut fmt::Formatter<W>) -> fmt::Result {
        let (stream, error) = match self {
            Failure::Input(error) => ("standard input", error),
            Failure::Output(error) => ("standard output", error),
        };
        let mut said = ArrayString::<256>::new();
        let _ = write!(said, "{error}");
        let text = said.as_str();
        let reason = text
            .split_once(" (os error ")
            .map_or(text, |(reason, _)| reason);
        write!(f, "{stream}: {reason}")
    }
}

// The text that standard error takes. Callers pass bytes, and may pass any (a `&str` would ask more of them): where they are no text, nothing is written.
fn words(bytes: &[u8]) -> &str {
    str::from_utf8(bytes).unwrap_or("")
}

// The line for a stream that failed, behind the program's name, with which each line on standard error begins. Where the reader of a pipe is gone, that is no failure of the program's. Where
// standard error cannot be written either, there is nobody to tell.
pub fn tell(rt: &impl Eprint, program: &[u8], done: Result<(), Failure>) {
    match done {
        Ok(()) => {}
        Err(Failure::Output(error)) if error.kind() == ErrorKind::BrokenPipe => {}
        Err(failure) => {
            let _ = eprintln!(rt; "{}: {failure}", words(program));
        }
    }
}

// ---- the arguments

// Whether the program was given an argument i; its own name is 0.
pub fn has_arg(rt: &impl Env, i: usize) -> bool {
    !matches!(rt.arg(i, &mut []), Err(FillError::NotPresent))
}

// The library's `arg` fills memory that it is lent, and answers how many bytes.
fn is_help(rt: &impl Env) -> bool {
    let mut word = [0u8; 8];
    let Ok(n) = rt.arg(1, &mut word) else {
        return false;
    };
    !has_arg(rt, 2) && matches!(&word[..n], b"--help")
}

// How the program is called: to standard output where its one argument is `--help`, and to standard error where its arguments are wrong. The two are
// different handles, with a call each, so a writer that is chosen first is no shorter.
pub fn put_usage(rt: &(impl Env + Print + Eprint + Clock), program: &[u8], usage: &[u8]) {
    if is_help(rt) {
        let done = Output(rt).write_all(usage);
        tell(rt, program, done.map_err(Failure::Output));
        return;
    }
    let _ = eprint!(rt; "{}", words(usage));
}
