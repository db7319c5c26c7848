// A column's content, written so that a line stays a line, nothing looks blank, and no content looks like words of ours. Words of ours
// start with `(`, and content never does.
use crate::chars::is_seen;
use lines::output::hex_digits;
use std::io;
use std::io::Write;

// Printed text: letters of every script stay readable.
pub fn text(s: &[u8], words: &str, out: &mut impl Write) -> io::Result<()> {
    let Some((first, s, last)) = parts(s) else {
        return out.write_all(words.as_bytes());
    };
    numbers(first, out)?;
    for chunk in s.utf8_chunks() {
        let part = chunk.valid();
        runs(part.as_bytes(), &|at| behind(part, at), out)?;
        numbers(chunk.invalid(), out)?;
    }
    numbers(last, out)
}

// Bytes of no known script: those from 0x80 up are shown by their numbers, so that no character is looked for.
pub fn bytes(s: &[u8], words: &str, out: &mut impl Write) -> io::Result<()> {
    let Some((first, s, last)) = parts(s) else {
        return out.write_all(words.as_bytes());
    };
    numbers(first, out)?;
    runs(s, &|_| 0, out)?;
    numbers(last, out)
}

// A content in three parts, if there is one. The first and the last are shown by numbers: a `(` at the start, which starts words of ours,
// and a blank at the start or the end, which nobody sees.
fn parts(s: &[u8]) -> Option<(&[u8], &[u8], &[u8])> {
    if s.is_empty() {
        return None;
    }
    let (first, s) = s.split_at(usize::from(matches!(s, [b'(' | b' ', ..])));
    let (s, last) = s.split_at(s.len() - usize::from(matches!(s, [.., b' '])));
    Some((first, s, last))
}

// Bytes, each escaped that is not part of what is shown: most are ASCII, and `shown` is asked for the place behind a character that starts
// at a place with a byte from 0x80 up and is shown, or for none behind that place. A run of those that are shown goes out in one step.
fn runs<F: Fn(usize) -> usize>(bytes: &[u8], shown: &F, out: &mut impl Write) -> io::Result<()>
    requires { F.IsAlwaysCallable shown.now }
{
    // what is still to go out starts at `from`; what is shown ends at `next`
    let mut from = 0;
    let mut next = 0;
    for (at, b) in bytes.iter().enumerate() {
        if at < next || is_plain(*b) {
            continue;
        }
        if !b.is_ascii() {
            next = shown(at);
            if at < next {
                continue;
            }
        }
        if from < at {
            out.write_all(bytes.get(from..at).unwrap_or(&[]))?;
        }
        if *b == b'\\' {
            out.write_all(b"\\\\")?;
        } else {
            number(*b, out)?;
        }
        from = at.saturating_add(1);
    }
    out.write_all(bytes.get(from..).unwrap_or(&[]))
}

// A byte that is a character by itself and is shown as it is.
fn is_plain(b: u8) -> bool {
    matches!(b, b' '..=b'~') && b != b'\\'
}

// The place behind the character that starts at a place, where one does and is shown; else 0.
fn behind(text: &str, at: usize) -> usize {
    match text.get(at..).and_then(|rest| rest.chars().next()) {
        Some(c) if is_seen(c) => at.saturating_add(c.len_utf8()),
        _ => 0,
    }
}

fn numbers(bytes: &[u8], out: &mut impl Write) -> io::Result<()> {
    for b in bytes {
        number(*b, out)?;
    }
    Ok(())
}

fn number(b: u8, out: &mut impl Write) -> io::Result<()> {
    let [high, low] = hex_digits(b);
    out.write_all(&[b'\\', b'x', high, low])
}
