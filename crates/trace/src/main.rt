// The call list program with a ticket for each merge (document 02, card 3): after the line of a put or delete one line for each
// merge that it made, in order, at most 64 of them.
#![tactic(auto)]

use std::io;

// One read gives at most so many bytes: few, for each of them may be the end of a line with 64 tickets.
const PART: usize = 16;

// Room for the answers to all lines that can end in a part.
const ANSWERS: usize = typing::LONGEST_LINE * (typing::TICKETS_MOST + 1) * PART;

fn main(rt: HostRuntime) -> io::Result<()> {
    let mut input = [0u8; PART];
    let mut out = [0u8; ANSWERS];
    typing::run(
        typing::TICKETS_MOST,
        &mut rt.stdin(),
        &mut rt.stdout(),
        &mut input,
        &mut out,
    )
}
