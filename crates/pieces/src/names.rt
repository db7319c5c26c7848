// Identifiers: as they are, or decoded from Punycode to UTF-8, or `punycode{..}` where that fails.
ghost use Rattle.pieces.specs.Laid.{Wrote};
ghost use Rattle.std.specs.Prelude.{◌≡◌, ◌≤◌, true, length, take, drop};
ghost use Rattle.parser.specs.Scalar.{is_scalar};
ghost use Rattle.nibbles.specs.Utf8.{utf8, encoded, Scalars};
ghost use Rattle.pieces.specs.Names.{basic_part, parts, raw_name, name_text};

use crate::put::{Put, put_byte, put_run, put_run_end};

// A character as UTF-8. ASCII goes its own way for speed: without it a name takes half as long again.
fn put_utf8(out: &mut [u8], c: u32) -> Put
    requires { is_scalar c ≡ true }
    ensures { Wrote (utf8 c) out.old out.new result }
{
    if c < 0x80 {
        return put_byte(out, c as u8);
    }
    let mut bytes = [0; 4];
    let text = char::from_u32(c).unwrap().encode_utf8(&mut bytes);
    put_run(out, text.as_bytes())
}

// Characters as UTF-8.
fn put_encoded(out: &mut [u8], chars: &[u32]) -> Put
    requires { Scalars chars.now }
    ensures { Wrote (encoded chars.now) out.old out.new result }
{
    let mut w = 0;
    for c in chars {
        w += put_utf8(&mut out[w..], *c)?;
    }
    Ok(w)
}

// The ASCII part and a `-`, or nothing where there is none. Name, ASCII part and code stay three parameters, as `put_name` promises of them:
// in a struct the same fact would be asked where it is built, and each of these would take it apart.
fn put_basic_part(out: &mut [u8], name: &[u8], ascii: usize) -> Put
    requires { ascii ≤ length name.now }
    ensures { Wrote (basic_part (take ascii name.now)) out.old out.new result }
{
    if ascii == 0 {
        return Ok(0);
    }
    put_run_end(out, &name[..ascii], b'-')
}

// The ASCII part and the code as standard Punycode has them, and a `}`.
fn put_parts(out: &mut [u8], name: &[u8], ascii: usize, code: usize) -> Put
    requires { (ascii ≤ length name.now) × (code ≤ length name.now) }
    ensures { Wrote (parts (take ascii name.now) (drop code name.now)) out.old out.new result }
{
    let a = put_basic_part(out, name, ascii)?;
    let k = put_run_end(&mut out[a..], &name[code..], b'}')?;
    Ok(a + k)
}

// A name that could not be decoded.
fn put_raw(out: &mut [u8], name: &[u8], ascii: usize, code: usize) -> Put
    requires { (ascii ≤ length name.now) × (code ≤ length name.now) }
    ensures { Wrote (raw_name (take ascii name.now) (drop code name.now)) out.old out.new result }
{
    let a = put_run(out, b"punycode{")?;
    let k = put_parts(&mut out[a..], name, ascii, code)?;
    Ok(a + k)
}

// An identifier's bytes, of which the first `ascii` are its ASCII part and those from `code` on its Punycode.
pub fn put_name(out: &mut [u8], name: &[u8], ascii: usize, code: usize) -> Put
    requires { ascii ≤ length name.now }
    ensures { Wrote (name_text ascii code name.now) out.old out.new result }
{
    if code >= name.len() {
        return put_run(out, &name[..ascii]);
    }
    let mut chars = [0u32; 128];
    let Ok(n) = punycode::decode(name, ascii, code, &mut chars) else {
        return put_raw(out, name, ascii, code);
    };
    put_encoded(out, &chars[..n])
}
