// Document 01's call list program without its reading and writing: parts of the input in, the bytes of the answers out. The
// store is the first of the bench's words, as many as the last format that was not refused took. After the line of a put or delete
// stand the lines of its first tickets (document 02, card 3), as many as the program is started with: document 01's with none.
#![tactic(auto)]

ghost use Rattle.std.specs.Prelude.{ℕ, ◌+◌, ◌*◌, ◌≤◌, ◌≡◌, List, [], ◌∷◌, ◌++◌, map, length, take};
ghost use Rattle.lines.specs.declared.Line.TheVariants.{Put, Delete};
ghost use Rattle.lines.specs.Bytes.{Printed};
ghost use Rattle.lines.specs.Lines.{longest_line};
ghost use Rattle.levels.specs.Inside.{merges_most};
ghost use Rattle.levels.specs.Tickets.{ticket_from};
ghost use Rattle.words.specs.Calls.{merges_counted};
ghost use Rattle.reader.specs.Answers.{looked_answer};
ghost use Rattle.writer.specs.Answers.{changed_answer};
ghost use Rattle.store.specs.Answers.{format_answer};
ghost use Rattle.store.specs.Change.{SumsFit};
ghost use Rattle.dialogue.specs.Bench.{bench_words, room_of};
ghost use Rattle.dialogue.specs.Said.{formatted_line, looked_line, changed_line, ticket_line, ticket_lines, said_of, tickets_most, longest_answer};
ghost use Rattle.dialogue.specs.Dialogue.{Session, opening, heard, ended};
ghost use Rattle.dialogue.specs.State.{Holds, Feeds, closed, answered_as, Says};

use geometry::{Geometry, Refusal};
use layout::Layout;
use lines::{Line, Reading};
use writer::Change;

// The words that the program works on.
pub const BENCH_WORDS: usize = 16384;

// No line that is printed has more bytes. A line of the input has one of them for its answer and one for each ticket; it may be one
// byte, its end, so a part may have as many answers as bytes.
pub const LONGEST_LINE: usize = 46;

// No program prints more tickets for a call.
pub const TICKETS_MOST: usize = 64;

// Between two parts of the input: how many tickets are printed for a call at most, how many words are the store, and how far the
// line that has begun is read.
#[derive(Clone, Copy)]
pub struct State {
    tickets: usize,
    words: usize,
    reading: Reading,
}

// What a part of the input has left: the state for the next part, and how many bytes there are to print.
#[derive(Clone, Copy)]
pub struct Fed {
    pub state: State,
    pub bytes: usize,
}

impl State {
    // Before the first byte: no store, and no line has begun. At most so many tickets are printed for a call.
    pub fn start(tickets: usize) -> State
        requires { tickets ≤ tickets_most }
        ensures { (words : List ℕ) → Holds tickets result words opening }
    {
        State {
            tickets,
            words: 0,
            reading: Reading::start(),
        }
    }
}

// The line for what a format answered, by document 01's number and values of each case.
fn print_formatted(out: &mut [u8], at: usize, f: Result<u32, Refusal>) -> usize
    requires { at + longest_line ≤ length out.old }
    ensures { (result ≤ at + longest_line) × Printed out.old out.new at result (formatted_line (format_answer f)) }
{
    match f {
        Ok(limit) => lines::print_line(out, at, b'f', &[0, limit]),
        Err(r) => lines::print_line(out, at, b'f', &[u32::from(r), 0]),
    }
}

// The same for look up.
fn print_looked(out: &mut [u8], at: usize, l: Result<Option<u32>, Refusal>) -> usize
    requires { at + longest_line ≤ length out.old }
    ensures { (result ≤ at + longest_line) × Printed out.old out.new at result (looked_line (looked_answer l)) }
{
    match l {
        Ok(Some(v)) => lines::print_line(out, at, b'g', &[0, 1, v]),
        Ok(None) => lines::print_line(out, at, b'g', &[0, 0, 0]),
        Err(r) => lines::print_line(out, at, b'g', &[u32::from(r), 0, 0]),
    }
}

// The same for put and delete: their sums over all levels are words (`SumsFit`), so nothing is cut off.
fn print_changed(out: &mut [u8], at: usize, letter: u8, changed: Result<Change, Refusal>) -> usize
    requires { (at + longest_line ≤ length out.old) × SumsFit (changed_answer changed) }
    ensures { (result ≤ at + longest_line) × Printed out.old out.new at result (changed_line letter (changed_answer changed)) }
{
    match changed {
        Ok(change) => {
            let [one, two, three] = change.tally;
            let merged = one.written + two.written + three.written;
            let compacted = one.compacted + two.compacted + three.compacted;
            let numbers = [0, u32::from(change.live), merged as u32, compacted as u32];
            lines::print_line(out, at, letter, &numbers)
        }
        Err(r) => lines::print_line(out, at, letter, &[u32::from(r), 0, 0, 0]),
    }
}

// The lines of n tickets, which stand in the first rows, four words each, or of as many as there are rows.
fn print_tickets(out: &mut [u8], at: usize, rows: &[[u32; 4]], n: usize) -> usize
    requires { at + longest_line * length rows.now ≤ length out.old }
    ensures { (result ≤ at + longest_line * length rows.now)
        × Printed out.old out.new at result (ticket_lines (map ticket_from (take n rows.now))) }
{
    let shown = &rows[..n.min(rows.len())];
    let mut end = at;
    for row in shown {
        end = lines::print_line(out, end, b't', row);
    }
    end
}

// The line of a put or delete, and the lines of its first tickets, which stand in the rows.
fn print_whole(
    out: &mut [u8],
    at: usize,
    letter: u8,
    changed: Result<Change, Refusal>,
    rows: &[[u32; 4]],
) -> usize
    requires { (at + longest_answer (length rows.now) ≤ length out.old)
        × (SumsFit (changed_answer changed) × (merges_counted (changed_answer changed) ≤ merges_most)) }
    ensures { (result ≤ at + longest_answer (length rows.now))
        × Printed out.old out.new at result
        (changed_line letter (changed_answer changed) ++ ticket_lines (map ticket_from (take (merges_counted (changed_answer changed)) rows.now))) }
{
    let end = print_changed(out, at, letter, changed);
    print_tickets(out, end, rows, writer::merges(changed))
}

// A put, and what is printed for it: at most as many tickets as there are rows to work in.
fn say_put(s: &mut [u32], k: u32, v: u32, rows: &mut [[u32; 4]], out: &mut [u8], at: usize) -> usize
    requires { at + longest_answer (length rows.old) ≤ length out.old }
    ensures { Says (length rows.old) (said_of (length rows.old) s.old (Put k v))
        at result s.new out.old out.new }
{
    let changed = store::put_rows(s, k, v, rows);
    print_whole(out, at, b'p', changed, rows)
}

// The same for delete.
fn say_delete(s: &mut [u32], k: u32, rows: &mut [[u32; 4]], out: &mut [u8], at: usize) -> usize
    requires { at + longest_answer (length rows.old) ≤ length out.old }
    ensures { Says (length rows.old) (said_of (length rows.old) s.old (Delete k))
        at result s.new out.old out.new }
{
    let changed = store::delete_rows(s, k, rows);
    print_whole(out, at, b'd', changed, rows)
}

// A format takes what its layout needs; it is refused where it breaks a limit or needs more words than there are.
fn room_for(b: u32, w: u32, d: u32, g: u32, h: u32, p: u32) -> Result<usize, Refusal>
    ensures { result ≡ room_of (record { b = b; w = w; d = d; g = g; h = h; p = p }) }
{
    let z = Layout::old(Geometry::new(b, w, d, g, h, p)?);
    let need = z.length;
    if need > BENCH_WORDS {
        return Err(Refusal::WrongLength);
    }
    Ok(need)
}

// A line has been answered: n words are the store, and no other line has begun.
fn answered(tickets: usize, n: usize, end: usize) -> Fed
    ensures { result ≡ answered_as tickets n end }
{
    Fed {
        state: State {
            tickets,
            words: n,
            reading: Reading::start(),
        },
        bytes: end,
    }
}

// What a line asks, on the store in the first n words; its answer from place `at` on.
fn answer(words: &mut [u32], tickets: usize, n: usize, out: &mut [u8], at: usize, line: Line) -> Fed
    requires { (length words.old ≡ bench_words) × ((tickets ≤ tickets_most) × ((n ≤ bench_words) × (at + longest_answer tickets ≤ length out.old))) }
    ensures { (result.bytes ≤ at + longest_answer tickets)
        × Feeds tickets (closed (said_of tickets (take n words.old) line)) at result words.new out.old out.new }
{
    match line {
        Line::Format { b, w, d, g, h, p } => match room_for(b, w, d, g, h, p) {
            Err(r) => answered(tickets, n, print_formatted(out, at, Err(r))),
            Ok(m) => {
                let f = store::format(&mut words[0..m], b, w, d, g, h, p);
                answered(tickets, m, print_formatted(out, at, f))
            }
        },
        Line::Put { key, payload } => {
            let mut rows = [[0u32; 4]; TICKETS_MOST];
            let end = say_put(
                &mut words[0..n],
                key,
                payload,
                &mut rows[0..tickets],
                out,
                at,
            );
            answered(tickets, n, end)
        }
        Line::Delete { key } => {
            let mut rows = [[0u32; 4]; TICKETS_MOST];
            let end = say_delete(&mut words[0..n], key, &mut rows[0..tickets], out, at);
            answered(tickets, n, end)
        }
        Line::Get { key } => {
            let l = store::look_up(&words[0..n], key);
            answered(tickets, n, print_looked(out, at, l))
        }
        Line::Unreadable => answered(tickets, n, lines::print_line(out, at, b'?', &[])),
    }
}

// One byte more of the input: a line end has the line that has begun answered, any other byte is one more of it.
fn hear(words: &mut [u32], state: State, byte: u8, out: &mut [u8], at: usize) -> Fed
    requires { (length words.old ≡ bench_words)
        × ((state.tickets ≤ tickets_most) × ((state.words ≤ bench_words) × (at + longest_answer state.tickets ≤ length out.old))) }
    ensures { (result.state.tickets ≡ state.tickets) × ((result.state.words ≤ bench_words) × ((result.bytes ≤ at + longest_answer state.tickets)
        × ((m : ℕ) (s : Session) → Holds m state words.old s → Feeds m (heard m s (byte ∷ [])) at result words.new out.old out.new))) }
{
    if byte == b'\n' {
        let line = state.reading.line();
        return answer(words, state.tickets, state.words, out, at, line);
    }
    let reading = state.reading.take(byte);
    Fed {
        state: State { reading, ..state },
        bytes: at,
    }
}

// A part of the input, cut anywhere: the answers to the lines that end in it.
pub fn feed(words: &mut [u32], state: State, input: &[u8], out: &mut [u8]) -> Fed
    requires { (length words.old ≡ bench_words)
        × ((state.tickets ≤ tickets_most) × ((state.words ≤ bench_words) × (longest_answer state.tickets * length input.now ≤ length out.old))) }
    ensures { (result.state.tickets ≡ state.tickets) × ((result.state.words ≤ bench_words) × ((result.bytes ≤ length out.old)
        × ((m : ℕ) (s : Session) → Holds m state words.old s → Feeds m (heard m s input.now) 0 result words.new out.old out.new))) }
{
    let mut fed = Fed { state, bytes: 0 };
    for &byte in input {
        fed = hear(words, fed.state, byte, out, fed.bytes);
    }
    fed
}

// The end of the input: a last line may lack its line end, and is answered as if it had come.
pub fn finish(words: &mut [u32], state: State, out: &mut [u8]) -> Fed
    requires { (length words.old ≡ bench_words)
        × ((state.tickets ≤ tickets_most) × ((state.words ≤ bench_words) × (longest_answer state.tickets ≤ length out.old))) }
    ensures { (result.bytes ≤ length out.old)
        × ((m : ℕ) (s : Session) → Holds m state words.old s → Feeds m (closed (ended m s)) 0 result words.new out.old out.new) }
{
    if state.reading.is_start() {
        return Fed { state, bytes: 0 };
    }
    hear(words, state, b'\n', out, 0)
}
