// Reading a delta: a generalized variable-length integer.
ghost use Rattle.std.specs.Prelude.{◌≡◌};
ghost use Rattle.punycode.specs.Decode.{puny_digit, threshold_of};
ghost use Rattle.punycode.specs.Steps.{delta_at, limited, as_digit, as_delta};

use crate::params::{BASE, LIMIT, T_MAX, T_MIN};

// What a byte counts as a digit: a-z 0 to 25, 0-9 26 to 35.
#[tactic(auto, using(crate::proofs::DigitLaws::digit_laws))]
pub fn digit(c: u8) -> Option<u64>
    ensures { result ≡ as_digit (puny_digit c) }
{
    match c {
        b'a'..=b'z' => Some(u64::from(c - b'a')),
        b'0'..=b'9' => Some(u64::from(c - b'0') + 26),
        _ => None,
    }
}

// A digit below this is the last of its number.
#[tactic(auto, using(crate::proofs::DigitLaws::threshold_laws))]
pub fn threshold(bias: u64, k: u64) -> u64
    ensures { result ≡ threshold_of bias k }
{
    k.saturating_sub(bias).clamp(T_MIN, T_MAX)
}

// The delta at a place, where it is below the limit, and the place after it: no digit of it is bad or missing.
#[tactic(auto, using(crate::proofs::DeltaLaws::read_laws))]
pub fn read_delta(name: &[u8], at: usize, bias: u64) -> Option<(u64, usize)>
    ensures { as_delta name.now result ≡ limited (delta_at bias name.now at) }
{
    let mut x: u64 = 0;
    let mut w: u64 = 1;
    let mut k = BASE;
    for i in at..name.len() {
        let d = digit(name[i])?;
        x += d * w;
        if x >= LIMIT {
            return None;
        }
        let t = threshold(bias, k);
        if d < t {
            return Some((x, i + 1));
        }
        w *= BASE - t;
        k += BASE;
    }
    None
}
