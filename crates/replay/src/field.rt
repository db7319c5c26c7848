// The fields of an answer.
use demangle::check::{check, suffix};
use demangle::print::Printed;
use demangle::refusal::Refusal;
use lines::output::hex_digits;
use std::io;
use std::io::Write;

// What the buffer holds before a call: bytes that the call leaves must still be these.
pub const BEFORE: u8 = 0xa5;

// The place at which the suffix starts: it stands at the symbol's end.
fn suffix_start(symbol: &[u8]) -> usize {
    symbol.len().saturating_sub(suffix(symbol).len())
}

pub fn checked(symbol: &[u8], out: &mut impl Write) -> io::Result<()> {
    let code = check(symbol).err().map_or(0, Refusal::number);
    let start = suffix_start(symbol);
    write!(out, "{code} {start} ")
}

// The answer's number, the text's length, whether it is whole or damaged; whether the bytes behind the text were kept; the text.
pub fn printed(
    printed: Result<Printed, Refusal>,
    room: &[u8],
    out: &mut impl Write,
) -> io::Result<()> {
    let (code, n, state) = match printed {
        Ok(Printed { length, whole }) => (0, length, if whole { 'w' } else { 'd' }),
        // The first part of a name fills the room.
        Err(Refusal::NoRoom) => (Refusal::NoRoom.number(), room.len(), '-'),
        Err(refusal) => (refusal.number(), 0, '-'),
    };
    let (text, behind) = room.split_at_checked(n).unwrap_or((room, &[]));
    let kept = if is_kept(behind) { 'k' } else { 'x' };
    write!(out, "{code} {n} {state} {kept} ")?;
    if text.is_empty() {
        return out.write_all(b"-");
    }
    hex(text, out)
}

// Whether each byte is as it was before the call. No early way out: so the compiler takes many bytes at a time.
fn is_kept(behind: &[u8]) -> bool {
    let mut changed = 0;
    for b in behind {
        changed |= *b ^ BEFORE;
    }
    changed == 0
}

// Two hex digits for each byte, those of some bytes at a time.
fn hex(bytes: &[u8], out: &mut impl Write) -> io::Result<()> {
    for part in bytes.chunks(64) {
        let mut text = [0u8; 128];
        for (pair, b) in text.chunks_exact_mut(2).zip(part) {
            pair.copy_from_slice(&hex_digits(*b));
        }
        out.write_all(text.get(..2 * part.len()).unwrap_or(&text))?;
    }
    Ok(())
}
