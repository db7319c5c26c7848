// The parts of a symbol that hold no other part: names, lifetimes, binders, literals. Those that look alike (`lifetime` and `bound_life`,
// `boolean` and `character`) differ in what is read and in what is said of it, which is all that they have.
// `krate`, `after_word` and `boolean` have answers that search: `using` stops at its limits there (tried).
// That a name lies within the symbol is asked beside it: a `Name` is four places, and the symbol is none of its parts.
ghost use Rattle.std.specs.Prelude.{◌≡◌, Bool, true, false, [], ◌∷◌, ◌++◌, ◌+◌, ◌≤◌, ◌^◌, length};
ghost use Rattle.parser.specs.Digits.{if-then};
ghost use Rattle.pieces.specs.Piece.{word, number};
ghost use Rattle.pieces.specs.Words as W;
ghost use Rattle.printer.specs.Says.{emit};
ghost use Rattle.printer.specs.Readings.{Within, AbiWithin};
ghost use Rattle.printer.specs.Lay.{Going, state_of, at, given, lay, lays, follows};
ghost use Rattle.printer.specs.Letters as letters;
ghost use Rattle.printer.specs.Model as g;
ghost use Rattle.printer.specs.Parts as part;

use crate::kinds::choose;
use crate::read::{Abi, Head, look, numbered};
use crate::state::Printer;
use crate::text;
use crate::text::{AbiName, Basic, Decimal, Ident, Letter, Life, Quoted, Run, Text};
use nibbles::uint::{Hex, hex_value};
use parser::bytes::eat;
use parser::names::Name;
use parser::number::integer_62;
use pieces::mode::Mode;
use pieces::words::Word;

impl Printer<'_> {
    // An identifier that was read.
    #[tactic(auto, using(crate::proofs::LeafLaws::name_laws))]
    fn name(&mut self, s: &[u8], name: Name, mode: Option<Mode>)
        requires { Within s.now name }
        ensures says { at self.new ≡ lay mode (emit (g.ident s.now name ∷ [])) (at self.old) }
        ensures lent { self.new.out.ghost_name ≡ self.old.out.ghost_name }
    {
        self.say(
            Ident {
                bytes: &s[name.start..name.end],
                ascii: name.split - name.start,
                code: name.code - name.start,
            },
            mode,
        );
    }

    // What needs a level where none is left: the end of the symbol is Invalid all the same.
    #[tactic(auto, using(crate::proofs::LeafLaws::level_laws))]
    pub fn no_level(&mut self, s: &[u8], mode: Option<Mode>)
        requires { Going (state_of self.old.st) }
        ensures says { at self.new ≡ lay mode (part.no_level s.now) (at self.old) }
        ensures lent { self.new.out.ghost_name ≡ self.old.out.ghost_name }
    {
        if self.st.place < s.len() {
            self.too_deep(mode);
            return;
        }
        self.invalid(mode);
    }

    // A crate's name and number. Where nothing is printed, only the place moves.
    #[tactic(auto, using(crate::proofs::LeafLaws::krate_laws))]
    pub fn krate(&mut self, s: &[u8], mode: Option<Mode>)
        requires { Going (state_of self.old.st) }
        ensures says { at self.new ≡ lay mode (g.krate s.now) (at self.old) }
        ensures lent { self.new.out.ghost_name ≡ self.old.out.ghost_name }
    {
        let Some((d, name)) = numbered(s, self.st.place) else {
            self.invalid(mode);
            return;
        };
        self.st.go(name.end);
        if mode.is_none() {
            return;
        }
        self.name(s, name, mode);
        self.crate_number(d, mode);
    }

    // An identifier with a word before it, unless it is empty.
    #[tactic(auto, using(crate::proofs::LeafLaws::after_laws))]
    fn after_word(&mut self, s: &[u8], k: Word, name: Name, mode: Option<Mode>)
        requires { Within s.now name }
        ensures says { at self.new ≡ lay mode (emit (g.unless_empty s.now k name)) (at self.old) }
        ensures lent { self.new.out.ghost_name ≡ self.old.out.ghost_name }
    {
        if name.start == name.end {
            return;
        }
        self.say(k, mode);
        self.name(s, name, mode);
    }

    // The name of a special namespace.
    #[tactic(auto, using(crate::proofs::LeafLaws::space_laws))]
    fn namespace(&mut self, ns: u8, mode: Option<Mode>)
        ensures says { at self.new ≡ lay mode (emit (g.space_name ns ∷ [])) (at self.old) }
        ensures lent { self.new.out.ghost_name ≡ self.old.out.ghost_name }
    {
        match ns {
            b'C' => self.say(Word::Closure, mode),
            b'S' => self.say(Word::Shim, mode),
            _ => self.say(Letter(ns), mode),
        }
    }

    // `#1}`
    #[tactic(auto, using(crate::proofs::LeafLaws::pieces))]
    fn counter(&mut self, d: u64, mode: Option<Mode>)
        ensures says { at self.new ≡ lay mode (emit (word W.hash ∷ number d ∷ word W.close ∷ [])) (at self.old) }
        ensures lent { self.new.out.ghost_name ≡ self.old.out.ghost_name }
    {
        self.say(Word::Hash, mode);
        self.say(Decimal(d), mode);
        self.say(Word::Close, mode);
    }

    // `::{closure:name#1}`
    #[tactic(auto, using(crate::proofs::LeafLaws::special_laws))]
    fn special(&mut self, s: &[u8], ns: u8, d: u64, name: Name, mode: Option<Mode>)
        requires { Within s.now name }
        ensures says { at self.new ≡ lay mode (emit (g.special_name s.now ns d name)) (at self.old) }
        ensures lent { self.new.out.ghost_name ≡ self.old.out.ghost_name }
    {
        self.say(Word::Special, mode);
        self.namespace(ns, mode);
        self.after_word(s, Word::Colon, name, mode);
        self.counter(d, mode);
    }

    // The name of a nested path, behind the path: of a special namespace with its letter.
    #[tactic(auto, using(crate::proofs::LeafLaws::nested_laws))]
    pub fn nested(&mut self, s: &[u8], ns: Option<u8>, mode: Option<Mode>)
        ensures says { at self.new ≡ lay mode (g.nested s.now ns) (at self.old) }
        ensures lent { self.new.out.ghost_name ≡ self.old.out.ghost_name }
    {
        if self.st.stopped() {
            self.say(Word::Ask, mode);
            return;
        }
        let Some((d, name)) = numbered(s, self.st.place) else {
            self.invalid(mode);
            return;
        };
        self.st.go(name.end);
        if mode.is_none() {
            return;
        }
        match ns {
            Some(letter) => self.special(s, letter, d, name, mode),
            None => self.after_word(s, Word::Colons, name, mode),
        }
    }

    // An identifier with a word behind it.
    #[tactic(auto, using(crate::proofs::LeafLaws::pieces))]
    pub fn name_and(&mut self, s: &[u8], name: Name, behind: Word, mode: Option<Mode>)
        requires { Within s.now name }
        ensures says { at self.new ≡ lay mode (emit (g.ident s.now name ∷ word behind ∷ [])) (at self.old) }
        ensures lent { self.new.out.ghost_name ≡ self.old.out.ghost_name }
    {
        self.name(s, name, mode);
        self.say(behind, mode);
    }

    // A lifetime that no binder binds.
    #[tactic(auto, using(crate::proofs::LeafLaws::unbound_laws))]
    fn unbound(&mut self, mode: Option<Mode>)
        ensures says { at self.new ≡ lay mode (g.unbound) (at self.old) }
        ensures lent { self.new.out.ghost_name ≡ self.old.out.ghost_name }
    {
        self.say(Word::Tick, mode);
        self.invalid(mode);
    }

    // `'_`
    #[tactic(auto, using(crate::proofs::LeafLaws::pieces))]
    fn no_name(&mut self, mode: Option<Mode>)
        ensures says { at self.new ≡ lay mode (emit (word W.tick ∷ word W.underscore ∷ [])) (at self.old) }
        ensures lent { self.new.out.ghost_name ≡ self.old.out.ghost_name }
    {
        self.say(Word::Tick, mode);
        self.say(Word::Underscore, mode);
    }

    // A lifetime by its number, looked up unless nothing is printed.
    #[tactic(auto, using(crate::proofs::LeafLaws::life_laws))]
    fn life(&mut self, lt: u64, binder: u64, mode: Option<Mode>)
        ensures says { at self.new ≡ lay mode (g.life_of (follows mode) binder lt) (at self.old) }
        ensures lent { self.new.out.ghost_name ≡ self.old.out.ghost_name }
    {
        if mode.is_none() {
            return;
        }
        if lt == 0 {
            self.no_name(mode);
            return;
        }
        if lt <= binder {
            self.say(Life(binder - lt), mode);
            return;
        }
        self.unbound(mode);
    }

    // The lifetime of a generic argument.
    #[tactic(auto, using(crate::proofs::LeafLaws::lifetime_laws))]
    pub fn lifetime(&mut self, s: &[u8], binder: u64, mode: Option<Mode>)
        requires { Going (state_of self.old.st) }
        ensures says { at self.new ≡ lay mode (g.lifetime s.now (follows mode) binder) (at self.old) }
        ensures lent { self.new.out.ghost_name ≡ self.old.out.ghost_name }
    {
        let Some((lt, next)) = integer_62(s, self.st.place) else {
            self.invalid(mode);
            return;
        };
        self.st.go(next);
        self.life(lt, binder, mode);
    }

    // The lifetime of a reference, and a blank; nothing for 0.
    #[tactic(auto, using(crate::proofs::LeafLaws::edge_laws))]
    pub fn ref_life(&mut self, lt: u64, binder: u64, mode: Option<Mode>)
        ensures says { at self.new ≡ lay mode (g.ref_life (follows mode) binder lt) (at self.old) }
        ensures lent { self.new.out.ghost_name ≡ self.old.out.ghost_name }
    {
        if lt == 0 {
            return;
        }
        self.life(lt, binder, mode);
        self.say(Letter(b' '), mode);
    }

    // A reference's sign, its lifetime and `mut`: whether what it refers to comes behind them.
    #[tactic(auto, using(crate::proofs::LeafLaws::reference_laws))]
    pub fn reference(&mut self, s: &[u8], is_mut: bool, binder: u64, mode: Option<Mode>) -> bool
        ensures says { given result self.new ≡ lays false mode (g.reference s.now is_mut (follows mode) binder) (at self.old) }
        ensures lent { self.new.out.ghost_name ≡ self.old.out.ghost_name }
    {
        self.say(Word::Ref, mode);
        self.ref_rest(s, is_mut, binder, mode)
    }

    #[tactic(auto, using(crate::proofs::LeafLaws::reference_laws))]
    fn ref_rest(&mut self, s: &[u8], is_mut: bool, binder: u64, mode: Option<Mode>) -> bool
        ensures says { given result self.new ≡ lays false mode (g.ref_rest s.now is_mut (follows mode) binder) (at self.old) }
        ensures lent { self.new.out.ghost_name ≡ self.old.out.ghost_name }
    {
        if self.st.stopped() {
            self.say(Word::Ask, mode);
            return false;
        }
        let Some((lt, behind)) = crate::read::lifetime(s, self.st.place) else {
            self.invalid(mode);
            return false;
        };
        self.st.go(behind);
        self.ref_life(lt, binder, mode);
        self.word_if(is_mut, Word::Mut, mode);
        !self.st.is_full()
    }

    // The lifetime of a trait object; nothing for 0.
    #[tactic(auto, using(crate::proofs::LeafLaws::edge_laws))]
    fn end_life(&mut self, lt: u64, binder: u64, mode: Option<Mode>)
        ensures says { at self.new ≡ lay mode (g.end_life (follows mode) binder lt) (at self.old) }
        ensures lent { self.new.out.ghost_name ≡ self.old.out.ghost_name }
    {
        if lt == 0 {
            return;
        }
        self.say(Word::Plus, mode);
        self.life(lt, binder, mode);
    }

    // The end of a trait object: an `L` and a lifetime; without it, and with an error set, the marker (once more).
    #[tactic(auto, using(crate::proofs::LeafLaws::bound_laws))]
    pub fn bound(&mut self, s: &[u8], binder: u64, mode: Option<Mode>)
        ensures says { at self.new ≡ lay mode (g.bound s.now (follows mode) binder) (at self.old) }
        ensures lent { self.new.out.ghost_name ≡ self.old.out.ghost_name }
    {
        if self.st.stopped() {
            self.invalid(mode);
            return;
        }
        let place = self.st.place;
        let behind = eat(s, place, b'L');
        if behind == place {
            self.invalid(mode);
            return;
        }
        self.st.go(behind);
        self.bound_life(s, binder, mode);
    }

    #[tactic(auto, using(crate::proofs::LeafLaws::bound_life_laws))]
    fn bound_life(&mut self, s: &[u8], binder: u64, mode: Option<Mode>)
        requires { Going (state_of self.old.st) }
        ensures says { at self.new ≡ lay mode (g.bound_life s.now (follows mode) binder) (at self.old) }
        ensures lent { self.new.out.ghost_name ≡ self.old.out.ghost_name }
    {
        let Some((lt, next)) = integer_62(s, self.st.place) else {
            self.invalid(mode);
            return;
        };
        self.st.go(next);
        self.end_life(lt, binder, mode);
    }

    // The i-th lifetime of a binder.
    #[tactic(auto, using(crate::proofs::LeafLaws::one_life_laws))]
    fn one_life(&mut self, i: u64, count: u64, mode: Option<Mode>)
        ensures says { at self.new ≡ lay mode (emit (g.one_life count i)) (at self.old) }
        ensures lent { self.new.out.ghost_name ≡ self.old.out.ghost_name }
    {
        let named = held(count, i);
        if i == 0 {
            self.say(Life(named), mode);
            return;
        }
        self.say(Word::CommaBlank, mode);
        self.say(Life(named), mode);
    }

    // `for<'a, 'b> `: n lifetimes more than the binder count. It stops where the buffer is full.
    #[tactic(auto, using(crate::proofs::LeafLaws::binder_laws))]
    pub fn binder(&mut self, n: u64, count: u64, mode: Option<Mode>)
        ensures says { at self.new ≡ lay mode (emit (g.binder count n)) (at self.old) }
        ensures lent { self.new.out.ghost_name ≡ self.old.out.ghost_name }
    {
        if mode.is_none() {
            return;
        }
        if n == 0 {
            return;
        }
        self.say(Word::For, mode);
        for i in 0..n {
            if self.st.is_full() {
                return;
            }
            self.one_life(i, count, mode);
        }
        self.say(Word::ForEnd, mode);
    }

    // `extern "` and what stands there.
    #[tactic(auto, using(crate::proofs::LeafLaws::pieces))]
    fn extern_abi<T: Text>(&mut self, abi: T, mode: Option<Mode>)
        ensures says { at self.new ≡ lay mode (emit (word W.extern ∷ T.piece abi ∷ word W.extern-end ∷ [])) (at self.old) }
        ensures lent { self.new.out.ghost_name ≡ self.old.out.ghost_name }
    {
        self.say(Word::Extern, mode);
        self.say(abi, mode);
        self.say(Word::ExternEnd, mode);
    }

    // The ABI of a function pointer, where it has one.
    #[tactic(auto, using(crate::proofs::LeafLaws::abi_laws))]
    fn abi(&mut self, s: &[u8], abi: Option<Abi>, mode: Option<Mode>)
        requires { AbiWithin s.now abi }
        ensures says { at self.new ≡ lay mode (emit (g.maybe_abi s.now abi)) (at self.old) }
        ensures lent { self.new.out.ghost_name ≡ self.old.out.ghost_name }
    {
        match abi {
            Some(Abi::C) => self.extern_abi(Word::C, mode),
            Some(Abi::Named(a, b)) => self.extern_abi(AbiName(&s[a..b]), mode),
            None => {}
        }
    }

    // What stands before the parameters of a function pointer.
    #[tactic(auto, using(crate::proofs::LeafLaws::abi_laws))]
    fn head(&mut self, s: &[u8], head: Head, mode: Option<Mode>)
        requires { AbiWithin s.now head.abi }
        ensures says { at self.new ≡ lay mode (emit (g.head_pieces s.now head)) (at self.old) }
        ensures lent { self.new.out.ghost_name ≡ self.old.out.ghost_name }
    {
        self.word_if(head.is_unsafe, Word::Unsafe, mode);
        self.abi(s, head.abi, mode);
        self.say(Word::Fn, mode);
    }

    // The same, read: whether the parameters come behind it.
    #[tactic(auto, using(crate::proofs::LeafLaws::signature_laws))]
    pub fn signature(&mut self, s: &[u8], mode: Option<Mode>) -> bool
        ensures says { given result self.new ≡ lays false mode (g.sig_head s.now) (at self.old) }
        ensures lent { self.new.out.ghost_name ≡ self.old.out.ghost_name }
    {
        if self.st.stopped() {
            self.say(Word::Ask, mode);
            return false;
        }
        let Some((head, behind)) = crate::read::function(s, self.st.place) else {
            self.invalid(mode);
            return false;
        };
        self.st.go(behind);
        self.head(s, head, mode);
        !self.st.is_full()
    }

    // An unsigned integer, with its type.
    #[tactic(auto, using(crate::proofs::LeafLaws::uint_laws))]
    pub fn uint(&mut self, s: &[u8], tag: u8, mode: Option<Mode>)
        ensures says { at self.new ≡ lay mode (g.uint s.now tag) (at self.old) }
        ensures lent { self.new.out.ghost_name ≡ self.old.out.ghost_name }
    {
        if self.st.stopped() {
            self.say(Word::Ask, mode);
            return;
        }
        let place = self.st.place;
        let Some((hex, next)) = hex_value(s, place) else {
            self.invalid(mode);
            return;
        };
        self.st.go(next);
        match hex {
            Hex::Small(v) => self.small(v, tag, mode),
            Hex::Big(e) => self.large(s, place, e, tag, mode),
        }
    }

    #[tactic(auto, using(crate::proofs::LeafLaws::integer_piece_laws))]
    fn small(&mut self, v: u64, tag: u8, mode: Option<Mode>)
        ensures says { at self.new ≡ lay mode (emit (g.small_pieces tag v)) (at self.old) }
        ensures lent { self.new.out.ghost_name ≡ self.old.out.ghost_name }
    {
        self.say(Decimal(v), mode);
        self.kind(tag, mode);
    }

    // An integer that does not fit 64 bits: its nibbles as they are.
    #[tactic(auto, using(crate::proofs::LeafLaws::integer_piece_laws))]
    fn large(&mut self, s: &[u8], a: usize, e: usize, tag: u8, mode: Option<Mode>)
        requires { (a ≤ e) × (e ≤ length s.now) }
        ensures says { at self.new ≡ lay mode (emit (g.large_pieces s.now tag a e)) (at self.old) }
        ensures lent { self.new.out.ghost_name ≡ self.old.out.ghost_name }
    {
        self.say(Word::Hex, mode);
        self.say(Run(&s[a..e]), mode);
        self.kind(tag, mode);
    }

    // A signed integer, with its type.
    #[tactic(auto, using(crate::proofs::LeafLaws::int_laws))]
    pub fn int(&mut self, s: &[u8], tag: u8, mode: Option<Mode>)
        requires { Going (state_of self.old.st) }
        ensures says { at self.new ≡ lay mode (g.int s.now tag) (at self.old) }
        ensures lent { self.new.out.ghost_name ≡ self.old.out.ghost_name }
    {
        let place = self.st.place;
        let behind = eat(s, place, b'n');
        if behind == place {
            self.uint(s, tag, mode);
            return;
        }
        self.st.go(behind);
        self.say(Word::Minus, mode);
        self.uint(s, tag, mode);
    }

    // An integer, by the letter of its type.
    #[tactic(auto, using(crate::proofs::LeafLaws::integer_laws))]
    pub fn integer(&mut self, s: &[u8], mode: Option<Mode>)
        requires { Going (state_of self.old.st) }
        ensures says { at self.new ≡ lay mode (part.integer_at s.now) (at self.old) }
        ensures lent { self.new.out.ghost_name ≡ self.old.out.ghost_name }
    {
        let t = look(s, self.st.place);
        match signed(t.byte) {
            Some(true) => {
                self.st.go(t.behind);
                self.int(s, t.byte, mode);
            }
            Some(false) => {
                self.st.go(t.behind);
                self.uint(s, t.byte, mode);
            }
            None => self.invalid(mode),
        }
    }

    #[tactic(auto, using(crate::proofs::LeafLaws::literal_laws))]
    pub fn boolean(&mut self, s: &[u8], mode: Option<Mode>)
        requires { Going (state_of self.old.st) }
        ensures says { at self.new ≡ lay mode (g.boolean s.now) (at self.old) }
        ensures lent { self.new.out.ghost_name ≡ self.old.out.ghost_name }
    {
        let Some((is, next)) = crate::read::boolean(s, self.st.place) else {
            self.invalid(mode);
            return;
        };
        self.st.go(next);
        self.say(choose(is, Word::True, Word::False), mode);
    }

    #[tactic(auto, using(crate::proofs::LeafLaws::literal_laws))]
    pub fn character(&mut self, s: &[u8], mode: Option<Mode>)
        requires { Going (state_of self.old.st) }
        ensures says { at self.new ≡ lay mode (g.character s.now) (at self.old) }
        ensures lent { self.new.out.ghost_name ≡ self.old.out.ghost_name }
    {
        let Some((v, next)) = crate::read::character(s, self.st.place) else {
            self.invalid(mode);
            return;
        };
        self.st.go(next);
        self.say(Quoted(v as u32), mode);
    }

    // A string's characters in quotes.
    #[tactic(auto, using(crate::proofs::LeafLaws::literal_laws))]
    pub fn literal(&mut self, s: &[u8], mode: Option<Mode>)
        ensures says { at self.new ≡ lay mode (g.literal s.now) (at self.old) }
        ensures lent { self.new.out.ghost_name ≡ self.old.out.ghost_name }
    {
        if self.st.stopped() {
            self.say(Word::Ask, mode);
            return;
        }
        let place = self.st.place;
        let Some((e, next)) = crate::read::string(s, place) else {
            self.invalid(mode);
            return;
        };
        self.st.go(next);
        self.say(
            text::Literal {
                nibbles: &s[place..e],
            },
            mode,
        );
    }

    // A string that no reference stands before.
    #[tactic(auto, using(crate::proofs::LeafLaws::unsized_laws))]
    pub fn unsized_literal(&mut self, s: &[u8], mode: Option<Mode>)
        ensures says { at self.new ≡ lay mode (g.unsized_literal s.now) (at self.old) }
        ensures lent { self.new.out.ghost_name ≡ self.old.out.ghost_name }
    {
        self.say(Word::Star, mode);
        self.literal(s, mode);
    }
}

// The sum, held at the largest number.
pub fn held(a: u64, b: u64) -> u64
    ensures { result ≡ g.held (a + b) }
{
    a.saturating_add(b)
}

// Whether an integer's type is signed, by its letter.
fn signed(letter: u8) -> Option<bool>
    ensures { result ≡ letters.signed_by letter }
{
    match letter {
        b'h' | b't' | b'm' | b'y' | b'o' | b'j' => Some(false),
        b'a' | b's' | b'l' | b'x' | b'n' | b'i' => Some(true),
        _ => None,
    }
}
