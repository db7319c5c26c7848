// The answer to a line: four columns, none of them blank.
use crate::column;
use demangle::check::suffix;
use demangle::print::{Mode, Printed, print};
use demangle::refusal::Refusal;
use std::io;
use std::io::Write;

// How much is shown of a line that is longer than there is room for.
const SHOWN: usize = 64;

// A line, or the start of one that is longer than there is room for.
pub fn line(
    line: Result<&[u8], &[u8]>,
    mode: Mode,
    room: &mut [u8],
    out: &mut impl Write,
) -> io::Result<()> {
    match line {
        // In a file from Windows a carriage return belongs to the line's end.
        Ok(s) => symbol(s.strip_suffix(b"\r").unwrap_or(s), mode, room, out)?,
        Err(start) => longer(start, out)?,
    }
    out.write_all(b"\n")
}

// There is room for more bytes than any symbol may have.
fn longer(start: &[u8], out: &mut impl Write) -> io::Result<()> {
    refused(Refusal::TooLong, out)?;
    out.write_all(b"(no suffix)\t(first 64 bytes of a longer line) ")?;
    column::bytes(start.get(..SHOWN).unwrap_or(start), "(none)", out)
}

fn symbol(s: &[u8], mode: Mode, room: &mut [u8], out: &mut impl Write) -> io::Result<()> {
    match print(s, mode, room) {
        Ok(Printed { length, whole }) => accepted(room.get(..length).unwrap_or(room), whole, out)?,
        // The buffer holds the first part of a name at most, which may be another item's name.
        Err(refusal) => refused(refusal, out)?,
    }
    column::bytes(suffix(s), "(no suffix)", out)?;
    out.write_all(b"\t")?;
    column::bytes(s, "(empty line)", out)
}

// The first two columns.
fn accepted(text: &[u8], whole: bool, out: &mut impl Write) -> io::Result<()> {
    out.write_all(if whole { b"whole\t" } else { b"damaged\t" })?;
    column::text(text, "(empty name)", out)?;
    out.write_all(b"\t")
}

fn refused(refusal: Refusal, out: &mut impl Write) -> io::Result<()> {
    out.write_all(refusal.name().as_bytes())?;
    out.write_all(b"\t(no name)\t")
}
