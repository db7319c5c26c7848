// Pieces printed from the state's position on, each in the free rest of the buffer. Without a mode nothing is printed.
#![tactic(auto, unfolding(pieces::specs::Piece::spell))]

ghost use Rattle.std.specs.Prelude.{◌≡◌, Bool, true, not, Some, [], ◌∷◌, ◌≤◌, ◌<◌, ◌^◌, min, eqb, length};
ghost use Rattle.pieces.specs.Words as W;
ghost use Rattle.nibbles.specs.Chars.{is_text};
ghost use Rattle.pieces.specs.Quoted.{chars_of};
ghost use Rattle.pieces.specs.Laid.{Wrote};
ghost use Rattle.pieces.specs.Numeral.{hash_text};
ghost use Rattle.pieces.specs.Piece.{Piece, word, letter, run, abi, name, number, hash, life, basic, kind, quote, spell};
ghost use Rattle.printer.specs.Says.{emit, on_error, breaks, broken};
ghost use Rattle.printer.specs.Lay.{at, lay};
ghost use Rattle.printer.specs.Model.{piece_if, say_if};

use crate::state::Printer;
use pieces::mode::Mode;
use pieces::put::Put;
use pieces::words::Word;

// What can be laid at the front of a buffer: the text of a piece, the same in both modes that print.
pub trait Text: Copy {
    ghost piece: { Self → Piece };

    fn put(self, out: &mut [u8]) -> Put
        ensures { (short : Bool) → Wrote (spell short (piece self)) out.old out.new result };
}

impl Text for Word {
    ghost piece = { λ w. word w };

    fn put(self, out: &mut [u8]) -> Put {
        self.lay(out)
    }
}

// A word by its number: nothing from 52 on, where there is none.
#[derive(Clone, Copy)]
pub struct Numbered(pub usize);

impl Text for Numbered {
    ghost piece = { λ k. run (W.word_by k.0) };

    fn put(self, out: &mut [u8]) -> Put {
        pieces::words::put_word(out, self.0)
    }
}

#[derive(Clone, Copy)]
pub struct Letter(pub u8);

impl Text for Letter {
    ghost piece = { λ b. letter b.0 };

    fn put(self, out: &mut [u8]) -> Put {
        pieces::put::put_byte(out, self.0)
    }
}

// Bytes of the symbol, as they are.
#[derive(Clone, Copy)]
pub struct Run<'a>(pub &'a [u8]);

impl Text for Run<'_> {
    ghost piece = { λ r. run r.0.now };

    fn put(self, out: &mut [u8]) -> Put {
        pieces::put::put_run(out, self.0)
    }
}

// An ABI's name.
#[derive(Clone, Copy)]
pub struct AbiName<'a>(pub &'a [u8]);

impl Text for AbiName<'_> {
    ghost piece = { λ a. abi a.0.now };

    fn put(self, out: &mut [u8]) -> Put {
        pieces::put::put_abi(out, self.0)
    }
}

// An identifier's bytes: how many are its ASCII part, and where its Punycode starts.
#[derive(Clone, Copy)]
pub struct Ident<'a> {
    pub bytes: &'a [u8],
    pub ascii: usize,
    pub code: usize,
    ghost within: { ascii ≤ length bytes.now },
}

impl Text for Ident<'_> {
    ghost piece = { λ i. name i.ascii i.code i.bytes.now };

    fn put(self, out: &mut [u8]) -> Put {
        pieces::names::put_name(out, self.bytes, self.ascii, self.code)
    }
}

#[derive(Clone, Copy)]
pub struct Decimal(pub u64);

impl Text for Decimal {
    ghost piece = { λ n. number n.0 };

    fn put(self, out: &mut [u8]) -> Put {
        pieces::numbers::put_decimal(out, self.0)
    }
}

// A crate's number, which a short text does not show.
#[derive(Clone, Copy)]
struct Hash(u64);

impl Text for Hash {
    ghost piece = { λ n. run (hash_text n.0) };

    fn put(self, out: &mut [u8]) -> Put {
        pieces::numbers::put_hash(out, self.0)
    }
}

// A basic type, by its letter.
#[derive(Clone, Copy)]
pub struct Basic(pub u8);

impl Text for Basic {
    ghost piece = { λ b. basic b.0 };

    fn put(self, out: &mut [u8]) -> Put {
        pieces::basic::put_basic(out, self.0)
    }
}

// A lifetime, by its depth.
#[derive(Clone, Copy)]
pub struct Life(pub u64);

impl Text for Life {
    ghost piece = { λ d. life d.0 };

    fn put(self, out: &mut [u8]) -> Put {
        pieces::numbers::put_life(out, self.0)
    }
}

// A character between single quotes.
#[derive(Clone, Copy)]
pub struct Quoted(pub u32);

impl Text for Quoted {
    ghost piece = { λ c. quote 39 (c.0 ∷ []) };

    fn put(self, out: &mut [u8]) -> Put {
        pieces::quoted::put_char(out, self.0)
    }
}

// The characters that pairs of nibbles spell, between double quotes.
#[derive(Clone, Copy)]
pub struct Literal<'a> {
    pub nibbles: &'a [u8],
    ghost text: { is_text nibbles.now ≡ true },
}

impl Text for Literal<'_> {
    ghost piece = { λ l. quote 34 (chars_of l.nibbles.now) };

    fn put(self, out: &mut [u8]) -> Put {
        pieces::quoted::put_text(out, self.nibbles)
    }
}

// Where the free rest of the buffer starts. That a number fits 64 bits is known of a parameter, not of what is read from the state.
fn free(written: usize, room: usize) -> usize
    ensures value { result ≡ min written room }
    ensures written_bound { written < 2 ^ 64 }
    ensures room_bound { room < 2 ^ 64 }
{
    written.min(room)
}

impl Printer<'_> {
    // A piece. Where nothing is printed this is all of it, and stands where it is called.
    #[tactic(auto, using(crate::proofs::TextLaws::say_laws))]
    #[inline(always)]
    pub fn say<T: Text>(&mut self, piece: T, mode: Option<Mode>)
        ensures says { at self.new ≡ lay mode (emit (T.piece piece ∷ [])) (at self.old) }
        ensures lent { self.new.out.ghost_name ≡ self.old.out.ghost_name }
    {
        if let Some(shown) = mode {
            self.write(piece, shown);
        }
    }

    #[tactic(auto, using(crate::proofs::TextLaws::write_laws))]
    fn write<T: Text>(&mut self, piece: T, mode: Mode)
        ensures says { at self.new ≡ lay (Some mode) (emit (T.piece piece ∷ [])) (at self.old) }
        ensures lent { self.new.out.ghost_name ≡ self.old.out.ghost_name }
    {
        if self.st.is_full() {
            return;
        }
        let from = free(self.st.written, self.out.len());
        let put = piece.put(&mut self.out[from..]);
        self.st.settle(put);
    }

    // A word, where a test holds.
    #[tactic(auto, using(crate::proofs::TextLaws::if_laws))]
    pub fn word_if<T: Text>(&mut self, test: bool, k: T, mode: Option<Mode>)
        ensures says { at self.new ≡ lay mode (piece_if test (T.piece k)) (at self.old) }
        ensures lent { self.new.out.ghost_name ≡ self.old.out.ghost_name }
    {
        if test {
            self.say(k, mode);
        }
    }

    // What stands before an element of a list: nothing before the first.
    #[tactic(auto, using(crate::proofs::TextLaws::if_laws))]
    pub fn separator<T: Text>(&mut self, i: usize, k: T, mode: Option<Mode>)
        ensures says { at self.new ≡ lay mode (piece_if (not (eqb i 0)) (T.piece k)) (at self.old) }
        ensures lent { self.new.out.ghost_name ≡ self.old.out.ghost_name }
    {
        self.word_if(i != 0, k, mode);
    }

    // The comma of a tuple of one.
    #[tactic(auto, using(crate::proofs::TextLaws::if_laws))]
    pub fn comma(&mut self, count: usize, mode: Option<Mode>)
        ensures says { at self.new ≡ lay mode (say_if (eqb count 1) W.comma) (at self.old) }
        ensures lent { self.new.out.ghost_name ≡ self.old.out.ghost_name }
    {
        self.word_if(count == 1, Word::Comma, mode);
    }

    // A word, where an error is set.
    #[tactic(auto, using(crate::proofs::TextLaws::error_laws))]
    pub fn on_error<T: Text>(&mut self, k: T, mode: Option<Mode>)
        ensures says { at self.new ≡ lay mode (on_error (T.piece k ∷ [])) (at self.old) }
        ensures lent { self.new.out.ghost_name ≡ self.old.out.ghost_name }
    {
        if self.st.stopped() {
            self.say(k, mode);
        }
    }

    // `invalid!`: the marker, and the error, also over another one. Not one method over error and word, as in `State`: it would be as long
    // where it is called.
    #[tactic(auto, using(crate::proofs::TextLaws::mark_laws))]
    pub fn invalid(&mut self, mode: Option<Mode>)
        ensures says { at self.new ≡ lay mode (broken) (at self.old) }
        ensures lent { self.new.out.ghost_name ≡ self.old.out.ghost_name }
    {
        if !self.st.is_full() {
            self.st.invalid();
            self.say(Word::Invalid, mode);
        }
    }

    #[tactic(auto, using(crate::proofs::TextLaws::mark_laws))]
    pub fn too_deep(&mut self, mode: Option<Mode>)
        ensures says { at self.new ≡ lay mode (breaks 1) (at self.old) }
        ensures lent { self.new.out.ghost_name ≡ self.old.out.ghost_name }
    {
        if !self.st.is_full() {
            self.st.too_deep();
            self.say(Word::Deep, mode);
        }
    }

    // A crate's number: not where the text is short, and never 0.
    #[tactic(auto, using(crate::proofs::TextLaws::hash_laws))]
    pub fn crate_number(&mut self, v: u64, mode: Option<Mode>)
        ensures says { at self.new ≡ lay mode (emit (hash v ∷ [])) (at self.old) }
        ensures lent { self.new.out.ghost_name ≡ self.old.out.ghost_name }
    {
        if let Some(Mode::Plain) = mode
            && v != 0
        {
            self.write(Hash(v), Mode::Plain);
        }
    }

    // An integer's type: not where the text is short.
    #[tactic(auto, using(crate::proofs::TextLaws::kind_laws))]
    pub fn kind(&mut self, tag: u8, mode: Option<Mode>)
        ensures says { at self.new ≡ lay mode (emit (kind tag ∷ [])) (at self.old) }
        ensures lent { self.new.out.ghost_name ≡ self.old.out.ghost_name }
    {
        if let Some(Mode::Plain) = mode {
            self.write(Basic(tag), Mode::Plain);
        }
    }
}
