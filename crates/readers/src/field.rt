// A field of an answer, with the blank behind it.
use nibbles::text::{char_at, is_text};
use nibbles::uint::Hex;
use parser::names::Name;
use parser::number::hex_nibbles;
use pieces::numbers::put_hex;
use punycode::{DecodeError, decode};
use std::fmt::Display;
use std::io;
use std::io::Write;

// What was read and the next place, as `v,next `.
pub fn pair<V: Display + Drop>(out: &mut impl Write, r: Option<(V, usize)>) -> io::Result<()> {
    match r {
        Some((v, next)) => write!(out, "{v},{next} "),
        None => out.write_all(b"! "),
    }
}

// An identifier's places, and then its characters where it has Punycode.
pub fn ident(s: &[u8], at: usize, out: &mut impl Write) -> io::Result<()> {
    let Some(name) = parser::names::ident(s, at) else {
        return out.write_all(b"! - ");
    };
    write!(
        out,
        "{},{},{},{} ",
        name.start, name.split, name.code, name.end
    )?;
    if name.code == name.end {
        return out.write_all(b"- ");
    }
    spelt(s, name, out)
}

// The characters of an identifier that has Punycode.
fn spelt(s: &[u8], name: Name, out: &mut impl Write) -> io::Result<()> {
    let bytes = s.get(name.start..name.end).unwrap_or(&[]);
    let ascii = name.split.saturating_sub(name.start);
    let code = name.code.saturating_sub(name.start);
    let mut chars = [0u32; 128];
    match decode(bytes, ascii, code, &mut chars) {
        Ok(n) => {
            out.write_all(b"=")?;
            for (i, c) in chars.iter().take(n).enumerate() {
                character(out, i == 0, *c)?;
            }
            out.write_all(b" ")
        }
        Err(DecodeError::Long) => out.write_all(b"long "),
        Err(DecodeError::Broken) => out.write_all(b"broken "),
    }
}

// A character in hex, with a `.` before it unless it is the first: by the writer of `pieces`, since by `write!` a line of many takes a third
// longer.
fn character(out: &mut impl Write, first: bool, c: u32) -> io::Result<()> {
    let mut room = [b'.'; 9];
    let n = put_hex(&mut room[1..], u64::from(c)).unwrap_or(8);
    let from = usize::from(first);
    out.write_all(room.get(from..n.saturating_add(1)).unwrap_or(&room))
}

pub fn hex_value(s: &[u8], at: usize, out: &mut impl Write) -> io::Result<()> {
    match nibbles::uint::hex_value(s, at) {
        Some((Hex::Small(v), next)) => write!(out, "{v},{next} "),
        Some((Hex::Big(e), next)) => write!(out, "*{e},{next} "),
        None => out.write_all(b"! "),
    }
}

// The last field, so with no blank behind it.
pub fn hex_text(s: &[u8], at: usize, out: &mut impl Write) -> io::Result<()> {
    match hex_nibbles(s, at) {
        Some((end, _)) => text(s.get(at..end).unwrap_or(&[]), out),
        None => out.write_all(b"!"),
    }
}

#[tactic(auto, using(crate::proofs::TextLaws::text_laws))]
fn text(nibbles: &[u8], out: &mut impl Write) -> io::Result<()> {
    if !is_text(nibbles) {
        return out.write_all(b"bad");
    }
    out.write_all(b"=")?;
    let mut at = 0;
    while let Ok(Some((c, next))) = char_at(nibbles, at) {
        character(out, at == 0, c)?;
        at = next;
    }
    Ok(())
}
