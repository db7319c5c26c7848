// The answer to a line.
use crate::field;
use demangle::print::{Mode, print};
use lines::input::{first_field, from_hex, number_of};
use std::io::Write;
use std::{fmt, io};

// What a line asks: the mode, the room for the name, and the symbol.
struct Question<'a> {
    mode: Mode,
    room: &'a mut [u8],
    symbol: &'a [u8],
}

// Why a line is no question.
#[derive(Clone, Copy, Debug, Drop, PartialEq, Eq)]
enum Wrong {
    Long,
    Mode,
    Room,
    Hex,
}

impl fmt::Display for Wrong {
    fn fmt<W: fmt::Write>(&self, f: &mut fmt::Formatter<W>) -> fmt::Result {
        f.write_str(match self {
            Wrong::Long => "? long",
            Wrong::Mode => "? mode",
            Wrong::Room => "? room",
            Wrong::Hex => "? hex",
        })
    }
}

// A line, or the start of one that is longer than there is room for.
pub fn line(
    line: Result<&[u8], &[u8]>,
    bytes: &mut [u8],
    room: &mut [u8],
    out: &mut impl Write,
) -> io::Result<()> {
    match parsed(line, bytes, room) {
        Ok(question) => answer(question, out)?,
        Err(wrong) => write!(out, "{wrong}")?,
    }
    out.write_all(b"\n")
}

// What a line asks, with the bytes of its symbol put into a buffer.
fn parsed<'a>(
    line: Result<&[u8], &[u8]>,
    bytes: &'a mut [u8],
    room: &'a mut [u8],
) -> Result<Question<'a>, Wrong> {
    let line = line.or(Err(Wrong::Long))?;
    let (mode, rest) = first_field(line);
    let mode = match mode {
        b"p" => Mode::Plain,
        b"s" => Mode::Short,
        _ => return Err(Wrong::Mode),
    };
    let (width, hex) = first_field(rest);
    let width = number_of(width, 65536).ok_or(Wrong::Room)?;
    let symbol = from_hex(hex, bytes).ok_or(Wrong::Hex)?;
    let room = room.get_mut(..width as usize).ok_or(Wrong::Room)?;
    Ok(Question { mode, room, symbol })
}

fn answer(question: Question<'_>, out: &mut impl Write) -> io::Result<()> {
    let Question { mode, room, symbol } = question;
    room.fill(field::BEFORE);
    field::checked(symbol, out)?;
    let printed = print(symbol, mode, room);
    field::printed(printed, room, out)
}
