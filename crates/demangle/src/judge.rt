// Which symbols are accepted: length, prefix, first byte, ASCII, first path, second path, in this order.
ghost use Rattle.std.specs.Prelude.{◌≡◌, ◌≢◌, Err};
ghost use Rattle.demangle.specs.Accept.{prefix_of, all_ascii, path_at, second_at, reading_of, verdict_of};

use crate::refusal::Refusal;
use parser::bytes::peek;
use printer::state::{Printer, Status};

// How many bytes a symbol may have, and how many levels a reading may count.
const MOST: usize = 4096;

pub const LEVELS: usize = 500;

// The length of `R`, `_R` or `__R`.
#[tactic(auto, using(crate::proofs::PrefixLaws::prefix_laws))]
fn prefix(symbol: &[u8]) -> Option<usize>
    ensures { result ≡ prefix_of symbol.now }
{
    if symbol.starts_with(b"R") {
        return Some(1);
    }
    if symbol.starts_with(b"_R") {
        return Some(2);
    }
    if symbol.starts_with(b"__R") {
        return Some(3);
    }
    None
}

// By the greatest byte, with no early way out: so the compiler takes many bytes at a time, as it does for the library's `is_ascii`; but here
// the bound is a number of ours, which a wrong edit can turn.
#[tactic(auto, using(crate::proofs::PrefixLaws::ascii_laws))]
fn ascii(s: &[u8]) -> bool
    ensures { result ≡ all_ascii s.now }
{
    let mut top: u8 = 0;
    for b in s {
        top = top.max(*b);
    }
    top < 128
}

// A path read from a place, with nothing printed: how far it came.
#[tactic(auto, using(crate::proofs::JudgeLaws::path_laws))]
fn path(s: &[u8], place: usize) -> Result<usize, Refusal>
    ensures { result ≡ path_at s.now place }
{
    let mut none = [0u8; 1];
    let mut p = Printer::new(&mut none, place);
    p.path(s, false, LEVELS, 0, None);
    match p.st.status {
        Status::Going => Ok(p.st.place),
        Status::Invalid => Err(Refusal::Invalid),
        _ => Err(Refusal::RecursedTooDeep),
    }
}

// Behind the first path: a second one, where an upper-case letter stands there.
#[tactic(auto, using(crate::proofs::JudgeLaws::second_laws))]
fn second(s: &[u8], place: usize) -> Result<usize, Refusal>
    ensures { result ≡ second_at s.now place }
{
    let c = peek(s, place);
    if !c.is_ascii_uppercase() {
        return Ok(place);
    }
    path(s, place)
}

// What stands behind the prefix, read to its end.
#[tactic(auto, using(crate::proofs::JudgeLaws::reading_laws))]
fn reading(s: &[u8]) -> Result<usize, Refusal>
    ensures { result ≡ reading_of s.now }
{
    let b = peek(s, 0);
    if !b.is_ascii_uppercase() {
        return Err(Refusal::Invalid);
    }
    if !ascii(s) {
        return Err(Refusal::Invalid);
    }
    second(s, path(s, 0)?)
}

// How many bytes a symbol's prefix has, and how many were read behind it.
#[tactic(auto, using(crate::proofs::JudgeLaws::judge_laws, crate::proofs::WithinLaws::judge_room))]
pub fn judge(symbol: &[u8]) -> Result<(usize, usize), Refusal>
    ensures verdict { result ≡ verdict_of symbol.now }
    ensures room { result ≢ Err Refusal.NoRoom }
{
    if symbol.len() > MOST {
        return Err(Refusal::TooLong);
    }
    let Some(k) = prefix(symbol) else {
        return Err(Refusal::Invalid);
    };
    Ok((k, reading(&symbol[k..])?))
}
