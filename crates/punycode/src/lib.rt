// Punycode: the Rust's `punycode_decode` with the insert into 128 places (port order 3).
#![tactic(auto)]

ghost use Rattle.std.specs.Prelude.{◌≡◌, ◌≤◌};
ghost use Rattle.punycode.specs.Answer.{most, decoded, shown, count_of};

mod adapt;
mod delta;
mod params;
mod places;
mod spell;

// Why an identifier has no characters: there is no room for them, or its code is broken.
#[derive(Clone, Copy, Debug, Drop, PartialEq, Eq)]
pub enum DecodeError {
    Long,
    Broken,
}

// The characters of an identifier's bytes, of which the first `ascii` are its ASCII part and those from `code` on its Punycode:
// so many stand at the front of the places lent. A count and no slice: there is no heap, the places are the caller's, and a slice would keep
// them lent.
#[tactic(auto, using(crate::proofs::SpellLaws::decode_laws))]
pub fn decode(
    name: &[u8],
    ascii: usize,
    code: usize,
    chars: &mut [u32; 128],
) -> Result<usize, DecodeError>
    ensures chars_after { shown result chars.new ≡ decoded ascii code name.now }
    ensures few { count_of result ≤ most }
{
    let basic = &name[..ascii.min(name.len())];
    if basic.len() > params::MOST {
        return Err(DecodeError::Long);
    }
    places::copy(basic, chars);
    spell::spell(name, code, basic.len(), chars)
}
