// Identifiers: `ident`, and what it is made of.
ghost use Rattle.std.specs.Prelude.{◌≡◌};
ghost use Rattle.parser.specs.Names.{span_at, last_of, coded_at, ident_at};

use crate::bytes::eat;
use crate::number::length_10;

// An identifier: its ASCII part from `start` to `split`, its Punycode from `code` to `end`, which is the next place. Without Punycode the
// last three are one, and no `Option` stands in the place of two: every definition of a name has four places.
#[derive(Clone, Copy, Debug, PartialEq, Eq)]
pub struct Name {
    pub start: usize,
    pub split: usize,
    pub code: usize,
    pub end: usize,
}

// A length, an optional `_`, and that many bytes: the first place and the place after them.
#[tactic(auto, using(crate::proofs::NameLaws::bytes_laws))]
pub fn bytes(s: &[u8], at: usize) -> Option<(usize, usize)>
    ensures { result ≡ span_at s.now at }
{
    let (n, e) = length_10(s, at)?;
    let a = eat(s, e, b'_');
    if a > s.len() || n > (s.len() - a) as u64 {
        return None;
    }
    Some((a, a + n as usize))
}

// The place of the last b.
#[tactic(auto, using(crate::proofs::NameLaws::last_laws))]
pub fn last_of(t: &[u8], b: u8) -> Option<usize>
    ensures { result ≡ last_of b t.now }
{
    for i in (0..t.len()).rev() {
        if t[i] == b {
            return Some(i);
        }
    }
    None
}

// An identifier behind its `u`: the last `_` of its bytes splits them, and what is after it is not empty.
#[tactic(auto, using(crate::proofs::NameLaws::coded_laws))]
fn coded(s: &[u8], at: usize) -> Option<Name>
    ensures { result ≡ coded_at s.now at }
{
    let (start, end) = bytes(s, at)?;
    let (split, code) = match last_of(&s[start..end], b'_') {
        Some(i) => (start + i, start + i + 1),
        None => (start, start),
    };
    if code == end {
        return None;
    }
    Some(Name {
        start,
        split,
        code,
        end,
    })
}

#[tactic(auto, using(crate::proofs::NameLaws::ident_laws))]
pub fn ident(s: &[u8], at: usize) -> Option<Name>
    ensures { result ≡ ident_at s.now at }
{
    let behind = eat(s, at, b'u');
    if behind != at {
        return coded(s, behind);
    }
    let (start, end) = bytes(s, at)?;
    Some(Name {
        start,
        split: end,
        code: end,
        end,
    })
}
