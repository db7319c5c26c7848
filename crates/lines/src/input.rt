// A line of input: collected byte by byte, and taken apart.
ghost use Rattle.std.specs.Prelude.{◌≡◌, ℕ, ◌+◌, ◌-◌, ◌*◌, ◌^◌, ◌≤◌, ◌<◌, ◌==◌, ◌++◌, ◌∷◌, List, [], length, take, IfOk, IfErr, IfSome, IsOk};
ghost use Rattle.std.specs.Io.{ReadsAtMost};
ghost use Rattle.std.specs.List.{before_first, after_first, position};

use parser::number::{digit, number};
use std::io;
use std::io::Read;
use std::marker::Model;

// The bytes of a line, as far as there is room for them, and how many there were.
#[derive(Drop)]
pub struct Line<const N: usize> {
    bytes: [u8; N],
    count: usize,
}

// The bytes that are held, and how many there were.
impl<const N: usize> Model for Line<N> {
    ghost Value = { List ℕ × ℕ };

    ghost view = { λ l. (take l.count l.bytes, l.count) };
}

impl<const N: usize> Line<N> {
    pub fn new() -> Line<N>
        ensures { result ≡ ([], 0) }
    {
        Line {
            bytes: [0; N],
            count: 0,
        }
    }

    pub fn push(&mut self, b: u8)
        ensures room { length self.old.0 < N → self.new.0 ≡ self.old.0 ++ b ∷ [] }
        ensures full { N ≤ length self.old.0 → self.new.0 ≡ self.old.0 }
        ensures counted { self.old.1 < 2 ^ 64 - 1 → self.new.1 ≡ self.old.1 + 1 }
    {
        if self.count < N {
            self.bytes[self.count] = b;
        }
        self.count = self.count.saturating_add(1);
    }

    pub fn clear(&mut self)
        ensures { self.new ≡ ([], 0) }
    {
        self.count = 0;
    }

    pub fn is_empty(&self) -> bool
        ensures { result ≡ (self.now.1 == 0) }
    {
        self.count == 0
    }

    // The line; or, where there was no room for all of it, as an error the part there was room for.
    pub fn text(&self) -> Result<&[u8], &[u8]>
        ensures whole { IfOk result (λ s. (s.now ≡ self.now.0) × (length s.now ≡ self.now.1)) }
        ensures long { IfErr result (λ s. (s.now ≡ self.now.0) × (length s.now < self.now.1)) }
    {
        self.bytes.get(..self.count).ok_or(&self.bytes)
    }
}

// The first field of a line, and what stands behind it and its blank.
pub fn first_field(line: &[u8]) -> (&[u8], &[u8])
    ensures field { result.0.now ≡ before_first (λ b. b == 32) line.now }
    ensures rest { result.1.now ≡ after_first (λ b. b == 32) line.now }
{
    match first_blank(line) {
        Some(end) => (&line[..end], &line[end + 1..]),
        None => (line, &[]),
    }
}

fn first_blank(line: &[u8]) -> Option<usize>
    ensures { result ≡ position (λ b. b == 32) line.now }
{
    line.iter().position(|b| *b == b' ')
}

// The number that a field is: decimal digits only, one at least, and no more than `most`. (`parse` would take a sign.)
pub fn number_of(field: &[u8], most: u64) -> Option<u64>
    ensures { IfSome result (λ n. n ≤ most) }
{
    match number(field, 0, 10) {
        Ok((v, end)) if end > 0 && end == field.len() && v <= most => Some(v),
        _ => None,
    }
}

// The bytes that a field spells, put into a buffer: two lower-case hex digits for each, no more of them than there is room for.
// (`to_digit` would take capitals.)
pub fn from_hex<'a>(field: &[u8], room: &'a mut [u8]) -> Option<&'a [u8]>
    ensures { IfSome result (λ s. 2 * length s.now ≡ length field.now) }
{
    if field.len() % 2 != 0 {
        return None;
    }
    let bytes = room.get_mut(..field.len() / 2)?;
    for (b, pair) in bytes.iter_mut().zip(field.chunks_exact(2)) {
        *b = nibble(pair[0])? << 4 | nibble(pair[1])?;
    }
    Some(bytes)
}

fn nibble(b: u8) -> Option<u8> {
    u8::try_from(digit(b)).ok().filter(|d| *d < 16)
}

// A reader whose input ends where it cannot be read.
#[derive(Drop)]
pub struct Readable<R>(pub R);

impl<R: Read> Read for Readable<R> {
    fn read(&mut self, buf: &mut [u8]) -> io::Result<usize>
        ensures ok { IsOk result }
        ensures bound { ReadsAtMost result buf.new }
    {
        self.0.read(buf).or(Ok(0))
    }
}
