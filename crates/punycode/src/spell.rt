// The loop over the code: a character a turn.
ghost use Rattle.std.specs.Prelude.{◌≡◌, ◌+◌, ◌-◌, ◌<◌, ◌≤◌, ◌^◌, length, take, drop};
ghost use Rattle.punycode.specs.Answer.{most, shown, count_of};
ghost use Rattle.punycode.specs.Decode.{initial-n, initial-bias, turn_of, rounds};
ghost use Rattle.punycode.specs.Steps.{delta_at, as_turn};

use crate::DecodeError;
use crate::adapt::adapt;
use crate::delta::read_delta;
use crate::params::{INITIAL_BIAS, INITIAL_N, MOST};
use crate::places::insert;
use parser::scalar::is_scalar;

// What a turn finds: a character's value, its place, the next bias and the next place of the code.
#[derive(Clone, Copy, Debug, Drop, PartialEq, Eq)]
pub struct Step {
    value: u64,
    place: u64,
    bias: u64,
    next: usize,
}

// The next character, of which the digits and then the value are judged. `len` counts it in.
#[tactic(auto, using(crate::proofs::TurnLaws::turn_laws))]
pub fn next_char(name: &[u8], at: usize, n: u64, i: u64, bias: u64, len: u64) -> Option<Step>
    requires n_bound { n < 2 ^ 32 }
    requires i_bound { i < 2 ^ 32 }
    requires le_len { 1 ≤ len }
    requires len_bound { len ≤ most + 1 }
    ensures { as_turn name.now result ≡ turn_of n i len (delta_at bias name.now at) }
{
    let (delta, next) = read_delta(name, at, bias)?;
    let p = i + delta;
    let value = n + p / len;
    if is_scalar(value) {
        Some(Step {
            value,
            place: p % len,
            bias: adapt(delta, len, i == 0),
            next,
        })
    } else {
        None
    }
}

// The characters of the code at a place, among `count` basic ones that stand in the places already.
#[tactic(auto, using(crate::proofs::SpellLaws::spell_laws))]
pub fn spell(
    name: &[u8],
    code: usize,
    count: usize,
    chars: &mut [u32; 128],
) -> Result<usize, DecodeError>
    requires count_le_most { count ≤ most }
    ensures chars_after { shown result chars.new ≡ rounds (most - count) initial-n 0 initial-bias (take count chars.old) (drop code name.now) }
    ensures few { count_of result ≤ most }
{
    let mut n = INITIAL_N;
    let mut i: u64 = 0;
    let mut bias = INITIAL_BIAS;
    let mut at = code;
    let mut len = count;
    // a `for` is no plainer: a turn takes as many bytes as its delta has digits
    while at < name.len() {
        let step = next_char(name, at, n, i, bias, len as u64 + 1).ok_or(DecodeError::Broken)?;
        if len >= MOST {
            return Err(DecodeError::Long);
        }
        insert(chars, len, step.place as usize, step.value as u32);
        n = step.value;
        i = step.place + 1;
        bias = step.bias;
        at = step.next;
        len += 1;
    }
    Ok(len)
}
