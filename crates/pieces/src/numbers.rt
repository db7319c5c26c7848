// Numbers: decimal, hexadecimal, the number of a crate, and lifetimes by their depth.
ghost use Rattle.std.specs.Prelude.{◌≡◌, [], ◌∷◌, ◌++◌, ◌<◌};
ghost use Rattle.pieces.specs.Laid.{Wrote};
ghost use Rattle.pieces.specs.Numeral.{decimal, hex_digit, hexadecimal, hash_text, depth_text, life_text};

use crate::put::{NoRoom, Put, put_byte};

// A number in decimal: the quotient by ten, then the last digit (document 01, "The forms we use").
pub fn put_decimal(out: &mut [u8], n: u64) -> Put
    ensures { Wrote (decimal n) out.old out.new result }
{
    if n < 10 {
        return put_byte(out, b'0' + n as u8);
    }
    let at = put_decimal(out, n / 10)?;
    let k = put_byte(&mut out[at..], b'0' + (n % 10) as u8)?;
    Ok(at + k)
}

// A digit as a byte: `char::from_digit` answers a `char` in an `Option`, which each digit would take out again.
#[tactic(auto, using(crate::proofs::NumeralLaws::digit_laws))]
fn hex_digit(d: u64) -> u8
    requires { d < 16 }
    ensures { result ≡ hex_digit d }
{
    if d < 10 {
        b'0' + d as u8
    } else {
        b'a' - 10 + d as u8
    }
}

// A number in hexadecimal, without leading zeros: the value's leading zeros say how many digits it needs, a form that document 01 fixes.
pub fn put_hex(out: &mut [u8], v: u64) -> Put
    ensures { Wrote (hexadecimal v) out.old out.new result }
{
    if v == 0 {
        return put_byte(out, b'0');
    }
    let n = ((67 - v.leading_zeros()) / 4) as usize;
    for i in 0..n {
        if i >= out.len() {
            return Err(NoRoom);
        }
        let k = (n - 1 - i) as u64;
        out[i] = hex_digit((v >> (4 * k)) % 16);
    }
    Ok(n)
}

// A number in hexadecimal with a byte behind it.
pub(crate) fn put_hex_end(out: &mut [u8], v: u64, end: u8) -> Put
    ensures { Wrote (hexadecimal v ++ (end ∷ [])) out.old out.new result }
{
    let a = put_hex(out, v)?;
    let k = put_byte(&mut out[a..], end)?;
    Ok(a + k)
}

// A crate's number in brackets.
pub fn put_hash(out: &mut [u8], v: u64) -> Put
    ensures { Wrote (hash_text v) out.old out.new result }
{
    let a = put_byte(out, b'[')?;
    let k = put_hex_end(&mut out[a..], v, b']')?;
    Ok(a + k)
}

// A lifetime's name by its depth: a letter below 26, `_` and the depth from there on.
#[tactic(auto, using(crate::proofs::NumeralLaws::depth_laws), unfolding(crate::specs::Laid::laid, crate::specs::Numeral::depth_text))]
fn put_depth(out: &mut [u8], depth: u64) -> Put
    ensures { Wrote (depth_text depth) out.old out.new result }
{
    if depth < 26 {
        return put_byte(out, b'a' + depth as u8);
    }
    let a = put_byte(out, b'_')?;
    let k = put_decimal(&mut out[a..], depth)?;
    Ok(a + k)
}

// A lifetime: `'` and its name.
pub fn put_life(out: &mut [u8], depth: u64) -> Put
    ensures { Wrote (life_text depth) out.old out.new result }
{
    let a = put_byte(out, b'\'')?;
    let k = put_depth(&mut out[a..], depth)?;
    Ok(a + k)
}
