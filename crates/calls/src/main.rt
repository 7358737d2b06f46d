// Document 01's call list program: reads standard input to its end and prints a line for each line of it.
#![tactic(auto)]

use std::io;

// One read gives at most so many bytes.
const PART: usize = 512;

// Room for the answers to all lines that can end in a part.
const ANSWERS: usize = typing::LONGEST_LINE * PART;

// Without tickets.
fn main(rt: HostRuntime) -> io::Result<()> {
    let mut input = [0u8; PART];
    let mut out = [0u8; ANSWERS];
    typing::run(0, &mut rt.stdin(), &mut rt.stdout(), &mut input, &mut out)
}
