// The program `plainform`: reads a range text from standard input, and writes its normal text or its refusal under each mode.
#![tactic(auto)]

use std::io;
use std::io::Write;
use std::time::Clock;
use streams::{Failure, Output};

fn run(rt: &(impl io::Input + Print + Clock)) -> Result<(), Failure> {
    // No heap: two arrays, of which the texts are the first bytes. 4,096 bytes, a 0A and one byte more: what follows them changes nothing.
    let mut input = [0u8; 4098];
    let n = streams::read_all(rt, &mut input).map_err(Failure::Input)?;
    let mut out = [0u8; plain::ROOM];
    let len = plain::plainform(&input[..n], &mut out);
    let written = Output(rt).write_all(&out[..len]);
    written.map_err(Failure::Output)
}

// It takes no argument, so there is nothing that chooses a step: a usage, or the one run.
fn main(rt: HostRuntime) {
    if streams::has_arg(&rt, 1) {
        streams::put_usage(&rt, b"plainform", b"plainform < RANGE\n");
        return;
    }
    streams::tell(&rt, b"plainform", run(&rt));
}
