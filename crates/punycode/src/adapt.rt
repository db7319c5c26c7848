// The bias after a delta.
ghost use Rattle.std.specs.Prelude.{◌≡◌, ◌<◌, ◌≤◌, ◌^◌};
ghost use Rattle.punycode.specs.Decode.{lowered, adapted};
ghost use Rattle.punycode.specs.Steps.{limit};

use crate::params::{BASE, DAMP, SKEW, T_MAX, T_MIN};

// The parameters as the formula has them: base - tmin, the same and 1, and where lowering ends.
const SPAN: u64 = BASE - T_MIN;

const SLOPE: u64 = BASE - T_MIN + 1;

const LOW: u64 = (BASE - T_MIN) * T_MAX / 2;

// The loop of `adapt`, and what is returned behind it.
#[tactic(auto, using(crate::proofs::AdaptLaws::lower_laws))]
pub fn lower(delta: u64) -> u64
    requires { delta < 2 ^ 33 }
    ensures { result ≡ lowered delta delta 0 }
{
    let mut d = delta;
    let mut k: u64 = 0;
    // a `for` over k is no plainer: what ends the loop is d
    while d > LOW {
        d /= SPAN;
        k += BASE;
    }
    k + SLOPE * d / (d + SKEW)
}

// The bias after a delta, with so many characters, the new one counted; the first delta is damped.
#[tactic(auto, using(crate::proofs::AdaptLaws::adapt_laws))]
pub fn adapt(delta: u64, points: u64, first: bool) -> u64
    requires delta_lt_limit { delta < limit }
    requires le_points { 1 ≤ points }
    ensures { result ≡ adapted delta points first }
{
    let d = delta / if first { DAMP } else { 2 };
    lower(d + d / points)
}
