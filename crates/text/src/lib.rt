// Numbers, ids and cells as text, written behind one another into lent bytes.
#![tactic(auto)]

ghost use Rattle.std.specs.Prelude.{◌≡◌, ◌+◌, ◌≤◌, ℕ, List, [], ◌∷◌, length, take};
ghost use Rattle.definitions.specs.Text.{decimal, id_text, cell_text};
ghost use Rattle.definitions.specs.Page.{blanks, flush_right};
ghost use Rattle.lists.specs.Written.{Fits, Written};
ghost use Rattle.text.specs.Bytes.{space, newline, spaced};
ghost use Rattle.text.specs.Writer.{HasRoom, Wrote};

use lists::write_over;
use words::{NONE, low_bits};

// "Fields have one space between them, lines end with byte 10."
const SPACE: u8 = b' ';

const NEWLINE: u8 = b'\n';

const DIGIT_ZERO: u8 = b'0';

// Writes one byte at an index; the index behind it.
fn put_byte(byte: u8, bytes: &mut [u8], at: usize) -> usize
    requires { at + 1 ≤ length bytes.old }
    ensures { Written bytes.old at (byte ∷ []) bytes.new result }
{
    bytes[at] = byte;
    at + 1
}

// Writes so many blanks from an index on; where they end.
fn put_blanks(n: usize, bytes: &mut [u8], at: usize) -> usize
    requires { at + n ≤ length bytes.old }
    ensures { Written bytes.old at (blanks n) bytes.new result }
{
    let end = at + n;
    bytes[at..end].fill(SPACE);
    end
}

// Writes the decimal digits of `n` from an index on; where they end. The index stays in a register:
// a writer that is handed down the recursion is kept in memory, and a page of long numbers takes a
// quarter more time.
fn put_digits(n: usize, bytes: &mut [u8], at: usize) -> usize
    requires { Fits bytes.old at (decimal n) }
    ensures { Written bytes.old at (decimal n) bytes.new result }
{
    if n < 10 {
        return put_byte(DIGIT_ZERO + n as u8, bytes, at);
    }
    let last = put_digits(n / 10, bytes, at);
    put_byte(DIGIT_ZERO + (n % 10) as u8, bytes, last)
}

// Lent bytes, and how many of them are written, from the first one on. Each method writes a text behind what is written so far; every other
// byte stays as it was.
#[derive(Drop)]
pub struct Writer<'a> {
    bytes: &'a mut [u8],
    length: usize,
}

impl<'a> Writer<'a> {
    // Nothing is written yet.
    pub fn new(bytes: &'a mut [u8]) -> Writer<'a>
        ensures same_bytes { result.bytes.ghost_name ≡ bytes.entry.ghost_name }
        ensures found { result.bytes.now ≡ bytes.old }
        ensures nothing { result.length ≡ 0 }
    {
        Writer { bytes, length: 0 }
    }

    // How many bytes are written.
    pub fn length(&self) -> usize
        ensures { result ≡ self.now.length }
    {
        self.length
    }

    // What is written so far.
    pub fn written(&self) -> &[u8]
        requires { HasRoom self.now [] }
        ensures { result.now ≡ take self.now.length self.now.bytes.now }
    {
        &self.bytes[..self.length]
    }

    // One byte.
    fn byte(&mut self, byte: u8)
        requires { HasRoom self.old (byte ∷ []) }
        ensures { Wrote self.old (byte ∷ []) self.new }
    {
        self.length = put_byte(byte, self.bytes, self.length);
    }

    // The space between two fields.
    pub fn space(&mut self)
        requires { HasRoom self.old (space ∷ []) }
        ensures { Wrote self.old (space ∷ []) self.new }
    {
        self.byte(SPACE);
    }

    // The end of a line.
    pub fn newline(&mut self)
        requires { HasRoom self.old (newline ∷ []) }
        ensures { Wrote self.old (newline ∷ []) self.new }
    {
        self.byte(NEWLINE);
    }

    // So many blanks.
    pub fn blanks(&mut self, n: usize)
        requires { HasRoom self.old (blanks n) }
        ensures { Wrote self.old (blanks n) self.new }
    {
        self.length = put_blanks(n, self.bytes, self.length);
    }

    // The bytes of `text`. By `copy_from_slice` a page would ask the firmware for `memmove`.
    pub fn text(&mut self, text: &[u8])
        requires { HasRoom self.old text.now }
        ensures { Wrote self.old text.now self.new }
    {
        write_over(text, self.bytes, self.length);
        self.length += text.len();
    }

    // A text flushed right in `width` characters.
    pub fn flush_right(&mut self, text: &[u8], width: usize)
        requires narrow { length text.now ≤ width }
        requires room { HasRoom self.old (flush_right width text.now) }
        ensures { Wrote self.old (flush_right width text.now) self.new }
    {
        // The whole field blank first, and the text over its end: the compiler knows the width
        // where this is called, and writes such blanks at once.
        let end = put_blanks(width, self.bytes, self.length);
        write_over(text, self.bytes, end - text.len());
        self.length = end;
    }

    // The decimal digits of `n`. Not by `Display`: the firmware's archive has no formatter and no heap.
    pub fn number(&mut self, n: usize)
        requires { HasRoom self.old (decimal n) }
        ensures { Wrote self.old (decimal n) self.new }
    {
        self.length = put_digits(n, self.bytes, self.length);
    }

    // A space and then a value.
    fn next<S: Style>(&mut self, value: S::Value)
        requires { HasRoom self.old (space ∷ S.shown value) }
        ensures { Wrote self.old (space ∷ S.shown value) self.new }
    {
        self.space();
        S::put(value, self);
    }

    // For each value a space and then the value.
    pub fn fields<S: Style>(&mut self, values: &[S::Value])
        requires { HasRoom self.old (spaced S.shown values.now) }
        ensures { Wrote self.old (spaced S.shown values.now) self.new }
    {
        for value in values {
            self.next::<S>(*value);
        }
    }
}

// How values are shown.
pub trait Style {
    type Value: Copy;

    ghost shown: { Self.Value → List ℕ };

    fn put(value: Self::Value, out: &mut Writer)
        requires { HasRoom out.old (shown value) }
        ensures { Wrote out.old (shown value) out.new };
}

// A number by its decimal digits.
pub struct Number;

impl Style for Number {
    type Value = usize;

    ghost shown = { decimal };

    fn put(value: usize, out: &mut Writer) {
        out.number(value);
    }
}

// A column word by its id.
pub struct Id;

impl Style for Id {
    type Value = u32;

    ghost shown = { id_text };

    fn put(value: u32, out: &mut Writer) {
        out.number(words::id(value) as usize);
    }
}

// A number by its digits, the empty cell by `-`, and the cell that says "there is none" by `none`.
pub struct Cell;

impl Style for Cell {
    type Value = u32;

    ghost shown = { cell_text };

    fn put(value: u32, out: &mut Writer) {
        match value {
            0 => out.text(b"-"),
            NONE => out.text(b"none"),
            _ => out.number(low_bits(value) as usize),
        }
    }
}
