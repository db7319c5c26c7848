// UTF-8 in pairs of hex nibbles: the character at a place, and whether a whole part is text. `more` and `first` have answers that search:
// `using` does not see which ranges of a `match` a value missed.
ghost use Rattle.std.specs.Prelude.{◌≡◌, ◌≤◌, ◌<◌, ◌^◌};
ghost use Rattle.nibbles.specs.Chars.{char_at, is_text};
ghost use Rattle.nibbles.specs.Steps.{octet_at, more_at, tail_at, first_at};

use parser::{number, scalar};

// No character stands at the place.
#[derive(Clone, Copy, Debug, Drop, PartialEq, Eq)]
pub struct NotText;

// The byte that the two nibbles at a place spell.
#[tactic(auto, using(crate::proofs::StepLaws::octet_laws))]
fn octet(s: &[u8], at: usize) -> Option<u64>
    ensures { result ≡ octet_at s.now at }
{
    let [high, low, ..] = s.get(at..)? else {
        return None;
    };
    let high = number::digit(*high);
    if high >= 16 {
        return None;
    }
    let low = number::digit(*low);
    if low >= 16 {
        return None;
    }
    Some(high * 16 + low)
}

// The value so far, with the six bits of the continuation byte at a place.
#[tactic(auto, using(crate::proofs::StepLaws::more_laws))]
fn more(s: &[u8], at: usize, v: u64) -> Option<u64>
    requires { v < 2 ^ 32 }
    ensures { result ≡ more_at v s.now at }
{
    match octet(s, at) {
        Some(b @ 0x80..=0xbf) => Some(v * 64 + (b - 0x80)),
        _ => None,
    }
}

// The character of which so many continuation bytes are left, at a place, after the value so far, and the next place. A value
// is overlong below `low`, and otherwise a character if it is a scalar.
#[tactic(auto, using(crate::proofs::StepLaws::tail_laws))]
#[inline(never)]
fn tail(s: &[u8], at: usize, left: u64, low: u64, v: u64) -> Option<(u32, usize)>
    requires v_bound { v < 0x40 }
    requires left_bound { left ≤ 3 }
    ensures { result ≡ tail_at left low v s.now at }
{
    let mut next = at;
    let mut value = v;
    for _i in 0..left {
        value = more(s, next, value)?;
        next += 2;
    }
    if low <= value && scalar::is_scalar(value) {
        Some((value as u32, next))
    } else {
        None
    }
}

// The first character at a place. Its first byte says how many follow, and the least value that needs as many.
#[tactic(auto, using(crate::proofs::StepLaws::first_laws))]
#[inline(always)]
fn first(s: &[u8], at: usize) -> Option<(u32, usize)>
    ensures { result ≡ first_at s.now at }
{
    match octet(s, at) {
        Some(b @ 0..=0x7f) => Some((b as u32, at + 2)),
        Some(b @ 0xc0..=0xdf) => tail(s, at + 2, 1, 0x80, b - 0xc0),
        Some(b @ 0xe0..=0xef) => tail(s, at + 2, 2, 0x800, b - 0xe0),
        Some(b @ 0xf0..=0xf7) => tail(s, at + 2, 3, 0x1_0000, b - 0xf0),
        _ => None,
    }
}

// The character at a place and the next place, or that the text ends there.
#[tactic(auto, using(crate::proofs::StepLaws::char_laws))]
pub fn char_at(s: &[u8], at: usize) -> Result<Option<(u32, usize)>, NotText>
    ensures { result ≡ char_at s.now at }
{
    if s.len() <= at {
        return Ok(None);
    }
    first(s, at).map(Some).ok_or(NotText)
}

// Whether a whole part is text: an even count of nibbles that spell characters.
#[tactic(auto, using(crate::proofs::StepLaws::text_laws))]
pub fn is_text(s: &[u8]) -> bool
    ensures { result ≡ is_text s.now }
{
    let mut at = 0;
    // a `for` is no plainer: a character takes as many nibbles as its first byte says
    while at < s.len() {
        // most characters are one byte, which needs no more than this
        if let Some(b) = octet(s, at)
            && b < 0x80
        {
            at += 2;
            continue;
        }
        let Some((_, next)) = first(s, at) else {
            return false;
        };
        at = next;
    }
    true
}
