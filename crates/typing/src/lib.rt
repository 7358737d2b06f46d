// The call list programs' reading and writing: the input to its end, and the answers to its lines to the output. What is printed is
// the dialogue's; here bytes are only read, fed and written.
#![tactic(auto)]

ghost use Rattle.std.specs.Prelude.{◌≡◌, ◌*◌, ◌≤◌, List, length, OnOk, Ok, Err};
ghost use Rattle.std.specs.List.{FoldsTo};
ghost use Rattle.std.specs.declared.io.Error.{Error};
ghost use Rattle.std.specs.Io.{ReadsAtMost, WritesAtMost};
ghost use Rattle.std.specs.Io.KnownBytes.{Appends, ReadConsumes, WriteAppends};
ghost use Rattle.dialogue.specs.Said.{tickets_most, longest_answer};
ghost use Rattle.typing.specs.Typed.{Answers, AnswersBegin, Begins};

use dialogue::State;
use std::io;
use std::io::{ErrorKind, Read, Write};

// For the programs' buffers: no line that is printed has more bytes, and no program prints more tickets for a call.
pub const LONGEST_LINE: usize = dialogue::LONGEST_LINE;

pub const TICKETS_MOST: usize = dialogue::TICKETS_MOST;

// A call that a signal interrupts before it moves a byte is made again.
fn retry<F: FnMut() -> io::Result<usize>>(call: &mut F) -> io::Result<usize>
    requires { F.IsAlwaysCallable call.old }
    ensures { (failed : List Error) × (last : F) × FoldsTo (λ f e g. F.step f (Err e) g) call.old failed last × F.step last result call.new }
{
    for _ in 0..u64::MAX {
        match call() {
            Err(e) if e.kind() == ErrorKind::Interrupted => {}
            done => return done,
        }
    }
    call()
}

fn read_in<R: Read>(reader: &mut R, input: &mut [u8]) -> io::Result<usize>
    ensures bound { ReadsAtMost result input.new }
    ensures bytes { ReadConsumes (R.remaining reader.old) (R.remaining reader.new) result input.new }
{
    retry(&mut || reader.read(input))
}

fn write_some<W: Write>(writer: &mut W, bytes: &[u8]) -> io::Result<usize>
    ensures bound { WritesAtMost result bytes.now }
    ensures bytes { WriteAppends (W.contents writer.old) (W.contents writer.new) result bytes.now }
{
    retry(&mut || writer.write(bytes))
}

// Writes all bytes, or says why it cannot: std's `write_all` does not say that what it has written at an `Err` is their beginning
// (clause `begun`).
fn write_out<W: Write>(writer: &mut W, bytes: &[u8]) -> io::Result<()>
    ensures all { OnOk result (Appends (W.contents writer.old) (W.contents writer.new) bytes.now) }
    ensures begun { Begins bytes.now (W.contents writer.old) (W.contents writer.new) }
{
    let mut rest = bytes;
    while !rest.is_empty() {
        let put = write_some(writer, rest)?;
        if put == 0 {
            return Err(io::Error::from(ErrorKind::WriteZero));
        }
        rest = &rest[put..];
    }
    Ok(())
}

// The input is read, as many bytes at once as there is room for, until a read gives nothing; for each of them there must be room for
// an answer. Both buffers come back whole. Where the reader's bytes and the writer's are known, what is written is what the dialogue
// says of the input: all of it at an `Ok`, and at an `Err` its beginning. No error is made here but that of a writer that takes no
// byte: the others are the reader's and the writer's own. A read that fails ends the program without an answer to the line that has
// begun, because half a line may say what the whole line does not. Rattle wants a bound on every loop; this one is more reads than any
// run makes.
pub fn run<R: Read, W: Write>(
    tickets: usize,
    reader: &mut R,
    writer: &mut W,
    input: &mut [u8],
    out: &mut [u8],
) -> io::Result<()>
    requires { (tickets ≤ tickets_most) × ((1 ≤ length input.old) × (longest_answer tickets * length input.old ≤ length out.old)) }
    ensures whole { (length input.new ≡ length input.old) × (length out.new ≡ length out.old) }
    ensures answers { OnOk result (Answers tickets (R.remaining reader.old) (W.contents writer.old) (W.contents writer.new)) }
    ensures begun { AnswersBegin tickets (R.remaining reader.old) (W.contents writer.old) (W.contents writer.new) }
{
    let mut space = [0u32; dialogue::BENCH_WORDS];
    let words: &mut [u32] = &mut space;
    let mut state = State::start(tickets);
    for _ in 0..u64::MAX {
        let n = read_in(reader, input)?;
        if n == 0 {
            let last = dialogue::finish(words, state, out);
            return write_out(writer, &out[..last.bytes]);
        }
        let fed = dialogue::feed(words, state, &input[..n], out);
        write_out(writer, &out[..fed.bytes])?;
        state = fed.state;
    }
    Ok(())
}
