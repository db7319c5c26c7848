// Numbers: digits of any base and their value, read by one loop; base 62, base 10 and base 16 are its instances.
ghost use Rattle.std.specs.Prelude.{◌≡◌, ◌+◌, ◌*◌, ◌^◌, ◌<◌, SomeIff, length, drop};
ghost use Rattle.parser.specs.Digits.{digit_of, digits};
ghost use Rattle.parser.specs.Number.{digit_at, number_at, integer62, optional62, length10, hex_at, back_at};

use crate::bytes::{eat, peek};

// What a byte counts as a digit, and 62 if it is none: no `Option`, since this cannot fail and still must not, and `digit_of`, of which the
// grammar is made, is that number.
#[tactic(auto, using(crate::proofs::DigitLaws::digit_laws))]
pub fn digit(c: u8) -> u64
    ensures { result ≡ digit_of c }
{
    match c {
        b'0'..=b'9' => u64::from(c - b'0'),
        b'a'..=b'z' => u64::from(c - 87),
        b'A'..=b'Z' => u64::from(c - 29),
        _ => 62,
    }
}

// The digit of a base at a place, and the next place.
#[tactic(auto, using(crate::proofs::ReaderLaws::digit_at_laws))]
pub fn digit_at(s: &[u8], at: usize, base: u64) -> Option<(u64, usize)>
    ensures { result ≡ digit_at base s.now at }
{
    if at >= s.len() {
        return None;
    }
    let d = digit(s[at]);
    if d < base { Some((d, at + 1)) } else { None }
}

// The place after the digits of a base that stand at a place.
#[tactic(auto, using(crate::proofs::DigitLaws::run_laws))]
pub fn run_end(s: &[u8], at: usize, base: u64) -> usize
    ensures { result ≡ at + length (digits base (drop at s.now)) }
{
    for i in at..s.len() {
        if digit(s[i]) >= base {
            return i;
        }
    }
    at.max(s.len())
}

// The number with one digit more, where it fits 64 bits. Below the greatest number that may be multiplied every digit fits: all but the last
// turns of a loop take this one test, and no division, since the base is a constant where this is compiled in.
#[tactic(auto, using(crate::proofs::ReadingLaws::onward_laws))]
fn onward(x: u64, base: u64, d: u64) -> Option<u64>
    requires { d < base }
    ensures { SomeIff result (x * base + d < 2 ^ 64) (x * base + d) }
{
    if x < u64::MAX / base {
        return Some(x * base + d);
    }
    x.checked_mul(base)?.checked_add(d)
}

// The number that stands at a place in a base, and the place after its digits: that alone where it does not fit 64 bits. What the loop keeps
// is a record, which `using` does not close by (tried), so three goals have answers that search.
#[tactic(auto, using(crate::proofs::ReadingLaws::number_laws))]
pub fn number(s: &[u8], at: usize, base: u64) -> Result<(u64, usize), usize>
    ensures { result ≡ number_at base s.now at }
{
    let mut x: u64 = 0;
    for i in at..s.len() {
        let d = digit(s[i]);
        if d >= base {
            return Ok((x, i));
        }
        let Some(y) = onward(x, base, d) else {
            return Err(run_end(s, i, base));
        };
        x = y;
    }
    Ok((x, at.max(s.len())))
}

// A base-62 number. Out of line: inlined into `backref`, its loop took half as long again wherever it lay.
#[tactic(auto, using(crate::proofs::ReaderLaws::integer_laws))]
#[inline(never)]
pub fn integer_62(s: &[u8], at: usize) -> Option<(u64, usize)>
    ensures { result ≡ integer62 s.now at }
{
    if peek(s, at) == b'_' {
        return Some((0, at + 1));
    }
    let Ok((x, e)) = number(s, at, 62) else {
        return None;
    };
    if peek(s, e) != b'_' || x == u64::MAX {
        return None;
    }
    Some((x + 1, e + 1))
}

// A tag and a base-62 number, one more; 0 where the tag is absent, which is a value and no refusal: RFC 2603 has the number so.
#[tactic(auto, using(crate::proofs::ReaderLaws::optional_laws))]
pub fn opt_integer_62(s: &[u8], at: usize, tag: u8) -> Option<(u64, usize)>
    ensures { result ≡ optional62 tag s.now at }
{
    let behind = eat(s, at, tag);
    if behind == at {
        return Some((0, at));
    }
    let (x, e) = integer_62(s, behind)?;
    Some((x.checked_add(1)?, e))
}

// The decimal length of an identifier.
#[tactic(auto, using(crate::proofs::ReaderLaws::length_laws))]
pub fn length_10(s: &[u8], at: usize) -> Option<(u64, usize)>
    ensures { result ≡ length10 s.now at }
{
    let (d, behind) = digit_at(s, at, 10)?;
    if d == 0 {
        return Some((0, behind));
    }
    number(s, at, 10).ok()
}

// Hex nibbles up to a `_`: where they end, and the next place.
#[tactic(auto, using(crate::proofs::ReaderLaws::hex_laws))]
pub fn hex_nibbles(s: &[u8], at: usize) -> Option<(usize, usize)>
    ensures { result ≡ hex_at s.now at }
{
    let e = run_end(s, at, 16);
    if peek(s, e) == b'_' {
        Some((e, e + 1))
    } else {
        None
    }
}

// The number of a back reference, behind its `B`: the place that it leads to, which is before the `B`, and the next place.
#[tactic(auto, using(crate::proofs::ReaderLaws::back_laws))]
pub fn backref(s: &[u8], at: usize) -> Option<(usize, usize)>
    ensures { result ≡ back_at s.now at }
{
    let (v, e) = integer_62(s, at)?;
    if at == 0 || v >= (at - 1) as u64 {
        return None;
    }
    Some((v as usize, e))
}
