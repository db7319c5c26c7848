// Output gathered in a buffer of its own, which is written when more does not fit. std's BufWriter would take memory for its buffer.
ghost use Rattle.std.specs.Prelude.{◌≡◌, ◌+◌, ◌/◌, ◌%◌, ◌≤◌, ◌<◌, [], ◌∷◌, map, length, OnOk};
ghost use Rattle.parser.specs.Digits.{digit_of};

use std::io;
use std::io::Write;

const ROOM: usize = 65536;

#[derive(Drop)]
pub struct Output<W> {
    to: W,
    bytes: [u8; ROOM],
    used: usize,
    ghost fits: { used ≤ length bytes },
}

impl<W: Write> Output<W> {
    pub fn new(to: W) -> Output<W>
        ensures { result.used ≡ 0 }
    {
        Output {
            to,
            bytes: [0; ROOM],
            used: 0,
        }
    }

    // Writes what is gathered.
    fn send(&mut self) -> io::Result<()>
        ensures { OnOk result (self.new.used ≡ 0) }
    {
        self.to.write_all(&self.bytes[..self.used])?;
        self.used = 0;
        Ok(())
    }

    // Gathers bytes for which there is room.
    fn keep(&mut self, text: &[u8])
        requires { self.old.used + length text.now ≤ ROOM }
        ensures { self.new.used ≡ self.old.used + length text.now }
    {
        let end = self.used + text.len();
        self.bytes[self.used..end].copy_from_slice(text);
        self.used = end;
    }

    // Writes a text that is longer than there is room for. The buffer is filled to its end before it is sent, and is sent only for a byte
    // that has no room in it: so much can be written before anyone has to read.
    #[inline(never)]
    fn write_past(&mut self, text: &[u8]) -> io::Result<()> {
        let (now, later) = text.split_at(text.len().min(ROOM - self.used));
        self.keep(now);
        self.send()?;
        let (next, last) = later.split_at(later.len().min(ROOM));
        self.keep(next);
        if last.is_empty() {
            return Ok(());
        }
        self.send()?;
        if last.len() > ROOM {
            // no program here has so long a text
            return self.to.write_all(last);
        }
        self.keep(last);
        Ok(())
    }
}

// A byte's two hex digits, lower-case. (By `write!` a byte takes several times as long.)
pub fn hex_digits(b: u8) -> [u8; 2]
    ensures { map digit_of result ≡ b / 16 ∷ b % 16 ∷ [] }
{
    [hex_digit(b / 16), hex_digit(b % 16)]
}

#[tactic(auto, using(crate::proofs::HexLaws::digit_laws))]
fn hex_digit(d: u8) -> u8
    requires { d < 16 }
    ensures { digit_of result ≡ d }
{
    if d < 10 { b'0' + d } else { 87 + d }
}

impl<W: Write> Write for Output<W> {
    fn write(&mut self, text: &[u8]) -> io::Result<usize> {
        self.write_all(text)?;
        Ok(text.len())
    }

    // In one step: the provided one, which asks how much each write took, makes `readers` a fifth slower. What there is room for is all of
    // it here, and stands where it is called: most texts are a few bytes of a length that is known there.
    #[inline(always)]
    fn write_all(&mut self, text: &[u8]) -> io::Result<()> {
        if text.len() <= ROOM - self.used {
            self.keep(text);
            return Ok(());
        }
        self.write_past(text)
    }

    fn flush(&mut self) -> io::Result<()> {
        self.send()?;
        self.to.flush()
    }
}
