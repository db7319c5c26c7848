// The basic types: constant arrays of letters, starts and lengths over one run of name bytes, a form that document 01 fixes; and, for the test that every type goes
// through, their letters as a set. An array is stored anew wherever it is used: that is paid for a name, not for every type.
ghost use Rattle.std.specs.Prelude.{◌≡◌};
ghost use Rattle.pieces.specs.Laid.{Wrote};
ghost use Rattle.pieces.specs.Basic.{place, is_basic, basic_name};

use crate::put::{Put, put_run};

// From `a` to `z`; `.` where a letter names no basic type.
const LETTERS: [u8; 26] = *b"abcdef.hij.lmnop..stuv.xyz";

const STARTS: [u8; 26] = [
    0, 2, 6, 10, 13, 16, 19, 19, 21, 26, 31, 31, 34, 37, 41, 45, 46, 46, 46, 49, 52, 54, 57, 57,
    60, 63,
];

const LENGTHS: [u8; 26] = [
    2, 4, 4, 3, 3, 3, 0, 2, 5, 5, 0, 3, 3, 4, 4, 1, 0, 0, 3, 3, 2, 3, 0, 3, 3, 1,
];

const NAMES: [u8; 64] = *b"i8boolcharf64strf32u8isizeusizei32u32i128u128_i16u16()...i64u64!";

// The same letters as a set: a bit for each, that of `a` the lowest.
const SET: u64 = 0x3bcfbbf;

// A lower-case letter's place in the alphabet.
fn place(tag: u8) -> Option<usize>
    ensures { result ≡ place tag }
{
    match tag {
        b'a'..=b'z' => Some(usize::from(tag - b'a')),
        _ => None,
    }
}

// Whether a letter names a basic type.
#[tactic(auto, using(crate::proofs::BasicLaws::is_basic_laws), unfolding(crate::specs::Basic::is_basic, crate::specs::Basic::among, crate::specs::Basic::basic))]
pub fn is_basic(tag: u8) -> bool
    ensures { result ≡ is_basic tag }
{
    let Some(k) = place(tag) else {
        return false;
    };
    (SET >> k) % 2 == 1
}

// The name of the basic type that a letter names; nothing for another letter.
pub fn put_basic(out: &mut [u8], tag: u8) -> Put
    ensures { Wrote (basic_name tag) out.old out.new result }
{
    let Some(k) = place(tag) else {
        return Ok(0);
    };
    if LETTERS[k] != tag {
        return Ok(0);
    }
    let start = STARTS[k] as usize;
    let end = start + LENGTHS[k] as usize;
    let names = NAMES;
    put_run(out, &names[start..end])
}
