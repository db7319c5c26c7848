// Single bytes: `peek`, `eat`, `next`, `namespace`.
ghost use Rattle.std.specs.Prelude.{◌≡◌, get_or};
ghost use Rattle.parser.specs.Bytes.{past, byte_at, space_at};

// The byte at a place, and 0 past the end: no `Option`, since this cannot fail and still must not, and 0 is no tag.
#[tactic(auto, using(crate::proofs::ByteLaws::peek_laws))]
pub fn peek(s: &[u8], at: usize) -> u8
    ensures { result ≡ get_or s.now at 0 }
{
    if at < s.len() { s[at] } else { 0 }
}

// The place after a byte b that stands at a place; the place itself where another stands there, or none: no `Option`, since `past`, of
// which the grammar is made, is a place in any case.
#[tactic(auto, using(crate::proofs::ByteLaws::eat_laws))]
pub fn eat(s: &[u8], at: usize, b: u8) -> usize
    ensures { result ≡ past b s.now at }
{
    if at < s.len() && s[at] == b {
        at + 1
    } else {
        at
    }
}

// A byte and the next place.
#[tactic(auto, using(crate::proofs::ByteLaws::next_laws))]
pub fn next(s: &[u8], at: usize) -> Option<(u8, usize)>
    ensures { result ≡ byte_at s.now at }
{
    if at < s.len() {
        Some((s[at], at + 1))
    } else {
        None
    }
}

// A namespace and the next place: an upper-case letter is special and is shown, a lower-case one is not.
#[tactic(auto, using(crate::proofs::ByteLaws::space_laws))]
pub fn namespace(s: &[u8], at: usize) -> Option<(Option<u8>, usize)>
    ensures { result ≡ space_at s.now at }
{
    let (b, e) = next(s, at)?;
    match b {
        b'A'..=b'Z' => Some((Some(b), e)),
        b'a'..=b'z' => Some((None, e)),
        _ => None,
    }
}
