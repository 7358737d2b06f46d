// Runs the calls on the stores that standard input gives, and prints a line for each answer. The stored test
// holds it to the answers of the reference implementation (reference/src/bin/readings.rs makes both files).
//
// The input is a list of commands in words, the lowest byte of each first. A command is the code of a letter and
// its arguments; 0 or the input's end ends the list. There is one store of up to 4,096 words, at first of none:
//
//     l n start count word ..   the store has n words from now on, and so many of them, from start on, are these
//     c                         prints c and check's number
//     g key                     prints g, look up's refusal, 1 if found, payload
//     n key                     prints n, next's refusal, 1 if found, key, payload
//     s level key               prints s and the words that show gives
//     f B w d G h P             prints f, format's refusal and N
//     w                         prints w and a checksum over the words
//
// All but l and f leave the store as it is; what is not there is printed as 0.
#![tactic(auto)]

ghost use Rattle.std.specs.Prelude.{◌≤◌, length};

use std::io::{Read, Write};

// The longest store, in words.
const ROOM: usize = 4096;

// The program ends after so many commands, whatever the input is.
const COMMANDS: u32 = 1000000;

// The next word of the input, or 0 at its end.
fn word(input: &mut impl Read) -> u32 {
    let mut bytes = [0u8; 4];
    let _ = input.read_exact(&mut bytes);
    u32::from_le_bytes(bytes)
}

// The next word as a number that is at most this.
fn bounded(input: &mut impl Read, most: usize) -> usize
    ensures { result ≤ most }
{
    most.min(word(input) as usize)
}

// All words of a part from the input.
fn fill(input: &mut impl Read, s: &mut [u32]) {
    for x in s.iter_mut() {
        *x = word(input);
    }
}

// Command l: the new number of words.
fn load(input: &mut impl Read, s: &mut [u32]) -> usize
    ensures { result ≤ length s.old }
{
    let n = bounded(input, s.len());
    let start = bounded(input, n);
    let count = bounded(input, n - start);
    fill(input, &mut s[start..start + count]);
    n
}

// A line: the letter and the numbers.
fn print(output: &mut impl Write, letter: u8, numbers: &[u32]) {
    let _ = output.write_all(&[letter]);
    for n in numbers {
        let _ = write!(output, " {n}");
    }
    let _ = output.write_all(b"\n");
}

// A number that every word, their order and their count matter to.
fn checksum(s: &[u32]) -> u32 {
    let mut sum: u64 = 1;
    for &word in s {
        sum = (sum * 31 + u64::from(word)) % 4294967291;
    }
    sum as u32
}

// Command c, and g, n and f below: an answer's number and values in a line.
fn check(output: &mut impl Write, s: &[u32]) {
    let reason = match store::check(s) {
        Ok(()) => 0,
        Err(r) => u32::from(r),
    };
    print(output, b'c', &[reason]);
}

fn look_up(output: &mut impl Write, s: &[u32], key: u32) {
    let numbers = match store::look_up(s, key) {
        Ok(Some(payload)) => [0, 1, payload],
        Ok(None) => [0, 0, 0],
        Err(r) => [u32::from(r), 0, 0],
    };
    print(output, b'g', &numbers);
}

fn next(output: &mut impl Write, s: &[u32], key: u32) {
    let numbers = match store::next(s, key) {
        Ok(Some((at, payload))) => [0, 1, at, payload],
        Ok(None) => [0, 0, 0, 0],
        Err(r) => [u32::from(r), 0, 0, 0],
    };
    print(output, b'n', &numbers);
}

fn format(input: &mut impl Read, output: &mut impl Write, s: &mut [u32]) {
    let mut six = [0u32; 6];
    fill(input, &mut six);
    let [b, w, d, g, h, p] = six;
    let numbers = match store::format(s, b, w, d, g, h, p) {
        Ok(limit) => [0, limit],
        Err(r) => [u32::from(r), 0],
    };
    print(output, b'f', &numbers);
}

// Any command but l.
fn answer(input: &mut impl Read, output: &mut impl Write, s: &mut [u32], letter: u8) {
    match letter {
        b'c' => check(output, s),
        b'g' => look_up(output, s, word(input)),
        b'n' => next(output, s, word(input)),
        b's' => {
            let level = word(input);
            print(output, b's', store::show(s, level, word(input)));
        }
        b'f' => format(input, output, s),
        b'w' => print(output, b'w', &[checksum(s)]),
        _ => (),
    }
}

// One command: the number of words after it.
fn perform(
    input: &mut impl Read,
    output: &mut impl Write,
    s: &mut [u32],
    n: usize,
    command: u32,
) -> usize
    requires { n ≤ length s.old }
    ensures { result ≤ length s.old }
{
    match u8::try_from(command) {
        Ok(b'l') => load(input, s),
        Ok(letter) => {
            answer(input, output, &mut s[..n], letter);
            n
        }
        Err(_) => n,
    }
}

fn main(rt: HostRuntime) {
    let mut input = rt.stdin();
    let mut output = rt.stdout();
    let mut words = [0u32; ROOM];
    let mut n: usize = 0;
    for _ in 0..COMMANDS {
        let command = word(&mut input);
        if command == 0 {
            return;
        }
        n = perform(&mut input, &mut output, &mut words, n, command);
    }
}
