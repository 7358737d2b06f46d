// The lines of document 01's call list program: what a line says, read byte by byte, and the lines that are printed.
#![tactic(auto)]

ghost use Rattle.std.specs.Prelude.{◌≡◌, ◌+◌, ◌-◌, ◌*◌, ◌≤◌, ◌<◌, length};
ghost use Rattle.lines.specs.Bytes.{Printed};
ghost use Rattle.lines.specs.Lines.{decimal, printed_line, room};
ghost use Rattle.lines.specs.Machine.{no_numbers, pushed, last_of, relast, call_of, digit_of, after_start, after_letter, after_space, grown, after_digits, step, said, line_after, is_start};

use itoa::Buffer;

// What a line says.
#[derive(Clone, Copy)]
pub enum Line {
    Format {
        b: u32,
        w: u32,
        d: u32,
        g: u32,
        h: u32,
        p: u32,
    },
    Put {
        key: u32,
        payload: u32,
    },
    Delete {
        key: u32,
    },
    Get {
        key: u32,
    },
    Unreadable,
}

// The calls that a line can ask for. Each has its letter and its own count of numbers.
#[derive(Clone, Copy)]
pub enum Call {
    Format,
    Put,
    Delete,
    Get,
}

// How many numbers a line has so far, and the last six of them in their order: a line says its meaning only at its end, so
// they move up for a further one and need no index.
#[derive(Clone, Copy)]
pub struct Numbers {
    count: usize,
    last: [u32; 6],
}

// How far a line has been read. Lines have no greatest length, so this is all that is kept of one.
#[derive(Clone, Copy)]
pub enum Reading {
    // No byte yet.
    Start,
    // The letter; a space must follow.
    Letter(Call),
    // A space; a digit must follow.
    Space(Call, Numbers),
    // One digit or more of the last number.
    Digits(Call, Numbers),
    // Whatever follows, the line is unreadable.
    Spoiled,
}

// The number that a byte says as a digit.
#[tactic(auto, unfolding(crate::specs::Machine::digit_of))]
fn digit_of(byte: u8) -> Option<u32>
    ensures { result ≡ digit_of byte }
{
    (byte as char).to_digit(10)
}

impl Call {
    #[tactic(auto, unfolding(crate::specs::Machine::call_of))]
    fn of(letter: u8) -> Option<Call>
        ensures { result ≡ call_of letter }
    {
        match letter {
            b'f' => Some(Call::Format),
            b'p' => Some(Call::Put),
            b'd' => Some(Call::Delete),
            b'g' => Some(Call::Get),
            _ => None,
        }
    }
}

impl Numbers {
    fn none() -> Numbers
        ensures { result ≡ no_numbers }
    {
        Numbers {
            count: 0,
            last: [0; 6],
        }
    }

    fn push(self, v: u32) -> Numbers
        requires { self.count < 6 }
        ensures { result ≡ pushed self v }
    {
        let [_, n5, n4, n3, n2, n1] = self.last;
        Numbers {
            count: self.count + 1,
            last: [n5, n4, n3, n2, n1, v],
        }
    }

    fn change_last(mut self, v: u32) -> Numbers
        ensures { result ≡ relast self v }
    {
        self.last[5] = v;
        self
    }

    // What a call's letter says with these numbers.
    #[tactic(auto, unfolding(crate::specs::Machine::said))]
    fn said_by(self, call: Call) -> Line
        ensures { result ≡ said call self }
    {
        let last = self.last;
        match (call, self.count, last) {
            (Call::Format, 6, [b, w, d, g, h, p]) => Line::Format { b, w, d, g, h, p },
            (Call::Put, 2, [.., key, payload]) => Line::Put { key, payload },
            (Call::Delete, 1, [.., key]) => Line::Delete { key },
            (Call::Get, 1, [.., key]) => Line::Get { key },
            _ => Line::Unreadable,
        }
    }
}

// A line begins with one of the four letters.
#[tactic(auto, unfolding(crate::specs::Machine::after_start))]
fn after_start(byte: u8) -> Reading
    ensures { result ≡ after_start byte }
{
    match Call::of(byte) {
        Some(call) => Reading::Letter(call),
        None => Reading::Spoiled,
    }
}

// One letter, alone.
#[tactic(auto, unfolding(crate::specs::Machine::after_letter))]
fn after_letter(call: Call, byte: u8) -> Reading
    ensures { result ≡ after_letter call byte }
{
    if byte == b' ' {
        return Reading::Space(call, Numbers::none());
    }
    Reading::Spoiled
}

// A number begins; no line has a seventh.
#[tactic(auto, unfolding(crate::specs::Machine::after_space, crate::specs::Machine::digit_of))]
fn after_space(call: Call, numbers: Numbers, byte: u8) -> Reading
    ensures { result ≡ after_space call numbers byte }
{
    match digit_of(byte) {
        Some(digit) if numbers.count < 6 => Reading::Digits(call, numbers.push(digit)),
        _ => Reading::Spoiled,
    }
}

// A further digit. The sum is wider than a number of a line, so it cannot wrap before it is known to be one.
#[tactic(auto, unfolding(crate::specs::Machine::grown))]
fn grow(call: Call, numbers: Numbers, digit: u32) -> Reading
    ensures { result ≡ grown call numbers (last_of numbers * 10 + digit) }
{
    let wide = numbers.last[5] as u64 * 10 + digit as u64;
    let Ok(v) = u32::try_from(wide) else {
        return Reading::Spoiled;
    };
    Reading::Digits(call, numbers.change_last(v))
}

// The number goes on, or a space ends it.
#[tactic(auto, unfolding(crate::specs::Machine::after_digits, crate::specs::Machine::digit_of))]
fn after_digits(call: Call, numbers: Numbers, byte: u8) -> Reading
    ensures { result ≡ after_digits call numbers byte }
{
    if byte == b' ' {
        return Reading::Space(call, numbers);
    }
    let Some(digit) = digit_of(byte) else {
        return Reading::Spoiled;
    };
    grow(call, numbers, digit)
}

impl Reading {
    // Before the first byte of a line.
    pub fn start() -> Reading
        ensures { result ≡ Reading.Start }
    {
        Reading::Start
    }

    // One byte more of the line, which is no line end.
    #[tactic(auto, unfolding(crate::specs::Machine::step))]
    pub fn take(self, byte: u8) -> Reading
        ensures { result ≡ step self byte }
    {
        match self {
            Reading::Start => after_start(byte),
            Reading::Letter(call) => after_letter(call, byte),
            Reading::Space(call, numbers) => after_space(call, numbers, byte),
            Reading::Digits(call, numbers) => after_digits(call, numbers, byte),
            Reading::Spoiled => Reading::Spoiled,
        }
    }

    // What the line says if it ends here.
    #[tactic(auto, unfolding(crate::specs::Machine::line_after))]
    pub fn line(self) -> Line
        ensures { result ≡ line_after self }
    {
        match self {
            Reading::Digits(call, numbers) => numbers.said_by(call),
            _ => Line::Unreadable,
        }
    }

    // Whether no byte has been read: a last line without its line end is one, nothing after the last line end is none.
    pub fn is_start(self) -> bool
        ensures { result ≡ is_start self }
    {
        matches!(self, Reading::Start)
    }
}

// Writes the digits of n from place `at` on and answers the place after them.
pub fn print_number(out: &mut [u8], at: usize, n: u32) -> usize
    requires { at + length (decimal n) ≤ length out.old }
    ensures { Printed out.old out.new at result (decimal n) }
{
    let mut buffer = Buffer::new();
    let digits = buffer.format(n).as_bytes();
    let end = at + digits.len();
    out[at..end].copy_from_slice(digits);
    end
}

// Writes a line from place `at` on and answers the place after it: a letter, the numbers, a space before each, and the line
// end. A caller leaves room for ten digits of each number. The buffer and the place in it stay two parameters: of a struct of
// both each contract would have to say besides that it still lends the same buffer.
pub fn print_line(out: &mut [u8], at: usize, letter: u8, numbers: &[u32]) -> usize
    requires { at + room (length numbers.now) ≤ length out.old }
    ensures { (result ≤ at + room (length numbers.now)) × Printed out.old out.new at result (printed_line letter numbers.now) }
{
    out[at] = letter;
    let mut end = at + 1;
    for &n in numbers {
        out[end] = b' ';
        end = print_number(out, end + 1, n);
    }
    out[end] = b'\n';
    end + 1
}
