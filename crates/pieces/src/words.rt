// The fixed words, both markers among them.
ghost use Rattle.pieces.specs.Laid.{Wrote};
ghost use Rattle.std.specs.Prelude.{◌≡◌};
ghost use Rattle.pieces.specs.Packed.{packed};
ghost use Rattle.pieces.specs.Words.{word_at, word_by};

use crate::put::{Put, put_packed, put_run};

// A word by its name; specs/Words.antt has the text of each.
#[derive(Clone, Copy, Debug, PartialEq, Eq)]
pub enum Word {
    Invalid,
    Deep,
    Ask,
    Colons,
    Special,
    Closure,
    Shim,
    Colon,
    Hash,
    Close,
    Less,
    As,
    More,
    ValueLess,
    CommaBlank,
    Plus,
    Ref,
    Mut,
    PtrConst,
    PtrMut,
    Bracket,
    Semicolon,
    BracketEnd,
    Paren,
    Comma,
    ParenEnd,
    Unsafe,
    Extern,
    ExternEnd,
    Fn,
    Arrow,
    Dyn,
    Is,
    Splat,
    Equals,
    Range,
    Or,
    Null,
    Underscore,
    Minus,
    False,
    True,
    Brace,
    Star,
    Fields,
    Field,
    FieldsEnd,
    Hex,
    C,
    For,
    ForEnd,
    Tick,
}

impl Word {
    // A word of at most eight bytes as a number of base 256, its first byte the lowest. Numbers and not byte strings: the bytes of a
    // constant are stored anew wherever it is used, and a table of words costs more than the word that is looked up.
    #[tactic(auto, unfolding(crate::specs::Words::word_at, crate::specs::Words::ascii, crate::specs::Packed::packed, crate::specs::Packed::little))]
    fn packed(self) -> Option<u64>
        ensures { result ≡ packed (word_at self) }
    {
        match self {
            Word::Invalid | Word::Deep | Word::Splat => None,
            Word::Ask => Some(0x3f),
            Word::Colons => Some(0x3a3a),
            Word::Special => Some(0x7b3a3a),
            Word::Closure => Some(0x657275736f6c63),
            Word::Shim => Some(0x6d696873),
            Word::Colon => Some(0x3a),
            Word::Hash => Some(0x23),
            Word::Close => Some(0x7d),
            Word::Less => Some(0x3c),
            Word::As => Some(0x20736120),
            Word::More => Some(0x3e),
            Word::ValueLess => Some(0x3c3a3a),
            Word::CommaBlank => Some(0x202c),
            Word::Plus => Some(0x202b20),
            Word::Ref => Some(0x26),
            Word::Mut => Some(0x2074756d),
            Word::PtrConst => Some(0x2074736e6f632a),
            Word::PtrMut => Some(0x2074756d2a),
            Word::Bracket => Some(0x5b),
            Word::Semicolon => Some(0x203b),
            Word::BracketEnd => Some(0x5d),
            Word::Paren => Some(0x28),
            Word::Comma => Some(0x2c),
            Word::ParenEnd => Some(0x29),
            Word::Unsafe => Some(0x20656661736e75),
            Word::Extern => Some(0x22206e7265747865),
            Word::ExternEnd => Some(0x2022),
            Word::Fn => Some(0x286e66),
            Word::Arrow => Some(0x203e2d20),
            Word::Dyn => Some(0x206e7964),
            Word::Is => Some(0x20736920),
            Word::Equals => Some(0x203d20),
            Word::Range => Some(0x3d2e2e),
            Word::Or => Some(0x207c20),
            Word::Null => Some(0x6c6c756e21),
            Word::Underscore => Some(0x5f),
            Word::Minus => Some(0x2d),
            Word::False => Some(0x65736c6166),
            Word::True => Some(0x65757274),
            Word::Brace => Some(0x7b),
            Word::Star => Some(0x2a),
            Word::Fields => Some(0x207b20),
            Word::Field => Some(0x203a),
            Word::FieldsEnd => Some(0x7d20),
            Word::Hex => Some(0x7830),
            Word::C => Some(0x43),
            Word::For => Some(0x3c726f66),
            Word::ForEnd => Some(0x203e),
            Word::Tick => Some(0x27),
        }
    }

    // The word's text.
    pub fn lay(self, out: &mut [u8]) -> Put
        ensures { Wrote (word_at self) out.old out.new result }
    {
        if let Some(v) = self.packed() {
            return put_packed(out, v);
        }
        match self {
            Word::Invalid => put_run(out, b"{invalid syntax}"),
            Word::Deep => put_run(out, b"{recursion limit reached}"),
            _ => put_run(out, b"#[splat] "),
        }
    }
}

// The words by number: each at its own.
const WORDS: [Word; 52] = [
    Word::Invalid,
    Word::Deep,
    Word::Ask,
    Word::Colons,
    Word::Special,
    Word::Closure,
    Word::Shim,
    Word::Colon,
    Word::Hash,
    Word::Close,
    Word::Less,
    Word::As,
    Word::More,
    Word::ValueLess,
    Word::CommaBlank,
    Word::Plus,
    Word::Ref,
    Word::Mut,
    Word::PtrConst,
    Word::PtrMut,
    Word::Bracket,
    Word::Semicolon,
    Word::BracketEnd,
    Word::Paren,
    Word::Comma,
    Word::ParenEnd,
    Word::Unsafe,
    Word::Extern,
    Word::ExternEnd,
    Word::Fn,
    Word::Arrow,
    Word::Dyn,
    Word::Is,
    Word::Splat,
    Word::Equals,
    Word::Range,
    Word::Or,
    Word::Null,
    Word::Underscore,
    Word::Minus,
    Word::False,
    Word::True,
    Word::Brace,
    Word::Star,
    Word::Fields,
    Word::Field,
    Word::FieldsEnd,
    Word::Hex,
    Word::C,
    Word::For,
    Word::ForEnd,
    Word::Tick,
];

// The text of the word that has a number; nothing from 52 on, where there is none.
pub fn put_word(out: &mut [u8], k: usize) -> Put
    ensures { Wrote (word_by k) out.old out.new result }
{
    if k < WORDS.len() {
        WORDS[k].lay(out)
    } else {
        Ok(0)
    }
}
