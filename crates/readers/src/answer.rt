// The answer to a line.
use crate::field;
use lines::input::{first_field, from_hex, number_of};
use parser::bytes::{eat, namespace, next, peek};
use parser::number::{backref, digit_at, hex_nibbles, integer_62, opt_integer_62};
use std::io::Write;
use std::{fmt, io};

// A line, or the start of one that is longer than there is room for.
pub fn line(line: Result<&[u8], &[u8]>, room: &mut [u8], out: &mut impl Write) -> io::Result<()> {
    match question(line, room) {
        Ok((s, at)) => answers(s, at, out)?,
        Err(wrong) => write!(out, "{wrong}")?,
    }
    out.write_all(b"\n")
}

// Why a line is no question.
#[derive(Clone, Copy, Debug, Drop, PartialEq, Eq)]
enum Wrong {
    Long,
    Place,
    Hex,
}

impl fmt::Display for Wrong {
    fn fmt<W: fmt::Write>(&self, f: &mut fmt::Formatter<W>) -> fmt::Result {
        f.write_str(match self {
            Wrong::Long => "? long",
            Wrong::Place => "? place",
            Wrong::Hex => "? hex",
        })
    }
}

// The bytes and the place in them. The original takes ASCII alone.
fn question<'a>(
    line: Result<&[u8], &[u8]>,
    room: &'a mut [u8],
) -> Result<(&'a [u8], usize), Wrong> {
    let line = line.or(Err(Wrong::Long))?;
    let (place, hex) = first_field(line);
    let at = number_of(place, 999_999_999).ok_or(Wrong::Place)?;
    let s = from_hex(hex, room).ok_or(Wrong::Hex)?;
    if !s.is_ascii() {
        return Err(Wrong::Hex);
    }
    Ok((s, at as usize))
}

fn answers(s: &[u8], at: usize, out: &mut impl Write) -> io::Result<()> {
    single(s, at, out)?;
    numbers(s, at, out)?;
    places(s, at, out)?;
    field::ident(s, at, out)?;
    field::hex_value(s, at, out)?;
    field::hex_text(s, at, out)
}

fn single(s: &[u8], at: usize, out: &mut impl Write) -> io::Result<()> {
    write!(out, "{} ", peek(s, at))?;
    field::pair(out, next(s, at))?;
    write!(out, "{} ", eat(s, at, b'_'))
}

fn numbers(s: &[u8], at: usize, out: &mut impl Write) -> io::Result<()> {
    field::pair(out, digit_at(s, at, 10))?;
    field::pair(out, digit_at(s, at, 62))?;
    field::pair(out, integer_62(s, at))?;
    field::pair(out, opt_integer_62(s, at, b's'))?;
    field::pair(out, opt_integer_62(s, at, b'G'))
}

fn places(s: &[u8], at: usize, out: &mut impl Write) -> io::Result<()> {
    field::pair(out, hex_nibbles(s, at))?;
    // The letter of a special one; 0 for a plain one.
    let space = namespace(s, at).map(|(letter, next)| (letter.unwrap_or(0), next));
    field::pair(out, space)?;
    // The back reference whose `B` is taken to stand at the place.
    let back = if at < s.len() {
        backref(s, at + 1)
    } else {
        None
    };
    field::pair(out, back)
}
