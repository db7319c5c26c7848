// Quoted text: characters, escaped, between two quotes.
ghost use Rattle.std.specs.Prelude.{◌≡◌, [], ◌∷◌, ◌++◌, true};
ghost use Rattle.pieces.specs.Laid.{Wrote};
ghost use Rattle.pieces.specs.Quoted.{backslash, unicode, escaped, escaped_all, quoted, chars_of};
ghost use Rattle.nibbles.specs.Chars.{is_text};

use crate::numbers::put_hex_end;
use crate::put::{Put, put_byte, put_run};
use nibbles::text::char_at;

// A character by its escape letter: a backslash and a byte.
fn put_backslash(out: &mut [u8], b: u8) -> Put
    ensures { Wrote (backslash b) out.old out.new result }
{
    let both = [b'\\', b];
    put_run(out, &both)
}

// A character by its number: `\u{..}` in lower case.
fn put_unicode(out: &mut [u8], c: u32) -> Put
    ensures { Wrote (unicode c) out.old out.new result }
{
    let a = put_run(out, b"\\u{")?;
    let k = put_hex_end(&mut out[a..], c as u64, b'}')?;
    Ok(a + k)
}

// One character inside quotes: escaped by a letter, itself if it is printable ASCII, or escaped by its number.
pub fn put_escaped(out: &mut [u8], quote: u8, c: u32) -> Put
    ensures { Wrote (escaped quote c) out.old out.new result }
{
    match c {
        _ if c == quote as u32 => put_backslash(out, quote),
        0 => put_backslash(out, b'0'),
        9 => put_backslash(out, b't'),
        10 => put_backslash(out, b'n'),
        13 => put_backslash(out, b'r'),
        92 => put_backslash(out, b'\\'),
        32..127 => put_byte(out, c as u8),
        _ => put_unicode(out, c),
    }
}

// One character and the quote behind it.
fn put_escaped_end(out: &mut [u8], quote: u8, c: u32) -> Put
    ensures { Wrote (escaped quote c ++ (quote ∷ [])) out.old out.new result }
{
    let a = put_escaped(out, quote, c)?;
    let k = put_byte(&mut out[a..], quote)?;
    Ok(a + k)
}

// A character between single quotes.
pub fn put_char(out: &mut [u8], c: u32) -> Put
    ensures { Wrote (quoted 39 (c ∷ [])) out.old out.new result }
{
    let a = put_byte(out, b'\'')?;
    let k = put_escaped_end(&mut out[a..], b'\'', c)?;
    Ok(a + k)
}

// The characters that pairs of nibbles spell. A character says where the next one starts, so no `for` counts the places. That the nibbles
// are text is asked in three places, and not by a type: `put_text` asks its caller for it, and a type would ask the same.
fn put_chars(out: &mut [u8], text: &[u8]) -> Put
    requires { is_text text.now ≡ true }
    ensures { Wrote (escaped_all 34 (chars_of text.now)) out.old out.new result }
{
    let mut at = 0;
    let mut w = 0;
    while let Ok(Some((c, next))) = char_at(text, at) {
        w += put_escaped(&mut out[w..], b'"', c)?;
        at = next;
    }
    Ok(w)
}

// These characters and the quote behind them.
fn put_chars_end(out: &mut [u8], text: &[u8]) -> Put
    requires { is_text text.now ≡ true }
    ensures { Wrote (escaped_all 34 (chars_of text.now) ++ (34 ∷ [])) out.old out.new result }
{
    let a = put_chars(out, text)?;
    let k = put_byte(&mut out[a..], b'"')?;
    Ok(a + k)
}

// The characters that pairs of nibbles spell, between double quotes.
pub fn put_text(out: &mut [u8], text: &[u8]) -> Put
    requires { is_text text.now ≡ true }
    ensures { Wrote (quoted 34 (chars_of text.now)) out.old out.new result }
{
    let a = put_byte(out, b'"')?;
    let k = put_chars_end(&mut out[a..], text)?;
    Ok(a + k)
}
