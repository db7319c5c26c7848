// The value of hex nibbles.
ghost use Rattle.std.specs.Prelude.{◌≡◌};
ghost use Rattle.nibbles.specs.Uint.{hex_value};

use parser::bytes::peek;
use parser::number::number;

// Hex nibbles: their value where it fits 64 bits, else the place where they end.
#[derive(Clone, Copy, Debug, Drop, PartialEq, Eq)]
pub enum Hex {
    Small(u64),
    Big(usize),
}

// Hex nibbles up to a `_`, and the next place.
#[tactic(auto, using(crate::proofs::UintLaws::hex_laws))]
pub fn hex_value(s: &[u8], at: usize) -> Option<(Hex, usize)>
    ensures { result ≡ hex_value s.now at }
{
    let (hex, e) = match number(s, at, 16) {
        Ok((x, e)) => (Hex::Small(x), e),
        Err(e) => (Hex::Big(e), e),
    };
    if peek(s, e) == b'_' {
        Some((hex, e + 1))
    } else {
        None
    }
}
