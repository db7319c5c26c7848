// The 128 places that are lent: the basic characters are copied there, and each decoded one is inserted.
ghost use Rattle.std.specs.Prelude.{◌≡◌, ◌+◌, ◌<◌, ◌≤◌, length, take};
ghost use Rattle.punycode.specs.Answer.{most};
ghost use Rattle.punycode.specs.Decode.{insert_at};

// The bytes of a text, each a character, to the front of the places.
#[tactic(auto, using(crate::proofs::PlaceLaws::copy_laws))]
pub fn copy(text: &[u8], chars: &mut [u32; 128])
    requires { length text.now ≤ most }
    ensures copied { take (length text.now) chars.new ≡ text.now }
    ensures all { length chars.new ≡ most }
{
    for (i, &b) in text.iter().enumerate() {
        chars[i] = u32::from(b);
    }
}

// A character between the first `len`: those from its place on move up by one, one by one, since the library's rotation needs memmove,
// which the archive for C is to do without.
pub fn insert(chars: &mut [u32; 128], len: usize, place: usize, c: u32)
    requires place_le_len { place ≤ len }
    requires len_lt_most { len < most }
    ensures inserted { take (len + 1) chars.new ≡ insert_at place c (take len chars.old) }
    ensures all { length chars.new ≡ most }
{
    for j in (place..len).rev() {
        chars[j + 1] = chars[j];
    }
    chars[place] = c;
}
