// Readings of more than one part, each of which the printer takes at once.
ghost use Rattle.std.specs.Prelude.{◌≡◌};
ghost use Rattle.parser.specs.Number.{optional62};
ghost use Rattle.printer.specs.Readings.{tag_at, mark_at, named_at, life_at, abi_at, behind_unsafe, head_at, flag_at, scalar_at, literal_at};

use nibbles::text::is_text;
use nibbles::uint::{Hex, hex_value};
use parser::bytes::eat;
use parser::names::{Name, ident};
use parser::number::{hex_nibbles, integer_62, opt_integer_62};
use parser::scalar::is_scalar;

// The byte at a place, 0 past the end, and the place behind it. No `Option`: 0 is no tag, so that the arm for what is no tag is the one for
// the end too, which an `Option` would say a second time in every match.
#[derive(Clone, Copy, Debug, PartialEq, Eq)]
pub struct Tag {
    pub byte: u8,
    pub behind: usize,
}

#[tactic(auto, using(crate::proofs::ReadLaws::look_laws))]
pub fn look(s: &[u8], at: usize) -> Tag
    ensures { result ≡ tag_at s.now at }
{
    if at < s.len() {
        return Tag {
            byte: s[at],
            behind: at + 1,
        };
    }
    Tag {
        byte: 0,
        behind: at,
    }
}

// The place behind the `e` of a string that stands behind a tag `R`; the place itself where none does, as `eat` has it.
#[tactic(auto, using(crate::proofs::ReadLaws::mark_laws))]
pub fn string_mark(s: &[u8], at: usize, tag: u8) -> usize
    ensures { result ≡ mark_at s.now at tag }
{
    if tag == b'R' { eat(s, at, b'e') } else { at }
}

// A disambiguator. Most names have none, and this is small enough to stand where it is called.
#[tactic(auto, using(crate::proofs::ReadLaws::absent_laws))]
fn disambiguator(s: &[u8], at: usize) -> Option<(u64, usize)>
    ensures { result ≡ optional62 115 s.now at }
{
    if eat(s, at, b's') == at {
        return Some((0, at));
    }
    opt_integer_62(s, at, b's')
}

// A disambiguator and an identifier, whose end is the next place.
#[tactic(auto, using(crate::proofs::ReadLaws::named_laws))]
pub fn numbered(s: &[u8], at: usize) -> Option<(u64, Name)>
    ensures { result ≡ named_at s.now at }
{
    let (d, next) = disambiguator(s, at)?;
    let name = ident(s, next)?;
    Some((d, name))
}

// The lifetime of a reference: 0 where there is none, which prints as that lifetime does: nothing. It differs from an optional number in
// more than its tag, which is one more there.
#[tactic(auto, using(crate::proofs::ReadLaws::life_laws))]
pub fn lifetime(s: &[u8], at: usize) -> Option<(u64, usize)>
    ensures { result ≡ life_at s.now at }
{
    let next = eat(s, at, b'L');
    if next == at {
        return Some((0, at));
    }
    integer_62(s, next)
}

// An ABI: `C`, or a name from a place to a place.
#[derive(Clone, Copy, Debug, PartialEq, Eq)]
pub enum Abi {
    C,
    Named(usize, usize),
}

// What stands before the parameters of a function pointer.
#[derive(Clone, Copy, Debug, PartialEq, Eq)]
pub struct Head {
    pub is_unsafe: bool,
    pub abi: Option<Abi>,
}

// An ABI behind its `K`: a name has no Punycode and is not empty.
#[tactic(auto, using(crate::proofs::ReadLaws::abi_laws))]
fn some_abi(s: &[u8], at: usize) -> Option<(Abi, usize)>
    ensures { result ≡ abi_at s.now at }
{
    let c = eat(s, at, b'C');
    if c != at {
        return Some((Abi::C, c));
    }
    let name = ident(s, at)?;
    if name.start == name.split {
        return None;
    }
    if name.code != name.end {
        return None;
    }
    Some((Abi::Named(name.start, name.split), name.end))
}

#[tactic(auto, using(crate::proofs::ReadLaws::behind_laws))]
fn optional_abi(s: &[u8], at: usize) -> Option<(Option<Abi>, usize)>
    ensures { result ≡ behind_unsafe s.now at }
{
    let k = eat(s, at, b'K');
    if k == at {
        return Some((None, at));
    }
    let (abi, next) = some_abi(s, k)?;
    Some((Some(abi), next))
}

#[tactic(auto, using(crate::proofs::ReadLaws::head_laws))]
pub fn function(s: &[u8], at: usize) -> Option<(Head, usize)>
    ensures { result ≡ head_at s.now at }
{
    let u = eat(s, at, b'U');
    let (abi, next) = optional_abi(s, u)?;
    Some((
        Head {
            is_unsafe: u != at,
            abi,
        },
        next,
    ))
}

#[tactic(auto, using(crate::proofs::ReadLaws::flag_laws))]
pub fn boolean(s: &[u8], at: usize) -> Option<(bool, usize)>
    ensures { result ≡ flag_at s.now at }
{
    let (hex, next) = hex_value(s, at)?;
    match hex {
        Hex::Small(0) => Some((false, next)),
        Hex::Small(1) => Some((true, next)),
        _ => None,
    }
}

#[tactic(auto, using(crate::proofs::ReadLaws::char_laws))]
pub fn character(s: &[u8], at: usize) -> Option<(u64, usize)>
    ensures { result ≡ scalar_at s.now at }
{
    let (hex, next) = hex_value(s, at)?;
    match hex {
        Hex::Small(v) if is_scalar(v) => Some((v, next)),
        _ => None,
    }
}

// A string: where its nibbles end, and the next place.
#[tactic(auto, using(crate::proofs::ReadLaws::literal_laws))]
pub fn string(s: &[u8], at: usize) -> Option<(usize, usize)>
    ensures { result ≡ literal_at s.now at }
{
    let (e, next) = hex_nibbles(s, at)?;
    if is_text(&s[at..e]) {
        Some((e, next))
    } else {
        None
    }
}
