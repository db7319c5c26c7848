// The cycle: paths, generic arguments, types, trait objects, patterns and constants contain one another. Levels left fall from call to
// call. A function with no `requires` goes by the state that it finds; one that asks for a state with no error and room is called only
// where that has been looked at.
// Names are two or three letters; a comment says what each is.
// Nine of them are kept out of line: what is inlined into `bar` or `ls` is paid for at every level, in stack and in time.
// `value`, `with`, `sized` and `tag` say what stands there, as the definitions of each have it. Functions that look alike differ in what
// they call: a closure for that would take the cycle through a call that nothing names, and document 01 wants a named function for each.
ghost use Rattle.std.specs.Prelude.{◌≡◌, false, length};
ghost use Rattle.parser.specs.Digits.{if-then};
ghost use Rattle.printer.specs.Lay.{Going, state_of, at, given, lay, lays, follows};
ghost use Rattle.printer.specs.Model as g;
ghost use Rattle.printer.specs.Numbers.{at_numbers, mode_by};
ghost use Rattle.printer.specs.Parts as part;

use crate::kinds::{Item, Kind, choose};
use crate::leaf;
use crate::numbers::{from_numbers, mode_of, to_numbers};
use crate::read::look;
use crate::state::Printer;
use crate::text::Basic;
use parser::bytes::{eat, namespace};
use parser::number::{backref, opt_integer_62};
use pieces::mode::Mode;
use pieces::words::Word;

// A path, over a state and a mode that are given by number (numbers.rt).
pub fn path(
    s: &[u8],
    out: &mut [u8],
    st: &mut [usize; 4],
    value: bool,
    left: usize,
    binder: u64,
    mode: u8,
)
    ensures { at_numbers out.new st.new ≡ lay (mode_by mode) ((g.level s.now left).path value (follows (mode_by mode)) binder) (at_numbers out.old st.old) }
{
    let mut p = Printer {
        out,
        st: from_numbers(st),
    };
    p.path(s, value, left, binder, mode_of(mode));
    *st = to_numbers(p.st);
}

impl Printer<'_> {
    // A path: counts a level, then goes by its tag.
    #[tactic(auto, using(crate::proofs::CycleLaws::path_rules))]
    #[cycle(syntax)]
    pub fn path(&mut self, s: &[u8], value: bool, left: usize, binder: u64, mode: Option<Mode>)
        ensures says { at self.new ≡ lay mode ((g.level s.now left).path value (follows mode) binder) (at self.old) }
        ensures lent { self.new.out.ghost_name ≡ self.old.out.ghost_name }
    {
        if self.st.stopped() {
            self.say(Word::Ask, mode);
            return;
        }
        if left == 0 {
            self.too_deep(mode);
            return;
        }
        self.pt(s, value, left - 1, binder, mode);
    }

    // A path by its tag, with the level counted.
    #[tactic(auto, using(crate::proofs::CycleLaws::pt_rules))]
    #[cycle(syntax)]
    fn pt(&mut self, s: &[u8], value: bool, left: usize, binder: u64, mode: Option<Mode>)
        requires { Going (state_of self.old.st) }
        ensures says { at self.new ≡ lay mode (g.by_tag s.now tt (g.path_tags s.now (g.level s.now left) value (follows mode) binder) g.unknown) (at self.old) }
        ensures lent { self.new.out.ghost_name ≡ self.old.out.ghost_name }
    {
        let t = look(s, self.st.place);
        let b = t.byte;
        match b {
            b'C' => {
                self.st.go(t.behind);
                self.krate(s, mode);
            }
            b'N' => {
                self.st.go(t.behind);
                self.nst(s, value, left, binder, mode);
            }
            b'M' | b'X' => {
                self.st.go(t.behind);
                self.imp(s, b == b'X', left, binder, mode);
            }
            b'Y' => {
                self.st.go(t.behind);
                self.slf(s, true, left, binder, mode);
            }
            b'I' => {
                self.st.go(t.behind);
                self.gns(s, value, left, binder, mode);
            }
            b'B' => {
                self.st.go(t.behind);
                self.bk(
                    s,
                    choose(value, Kind::Value, Kind::Path),
                    left,
                    binder,
                    mode,
                );
            }
            _ => self.invalid(mode),
        }
    }

    // A path in a namespace.
    #[tactic(auto, using(crate::proofs::CycleLaws::nst_rules))]
    #[cycle(syntax)]
    fn nst(&mut self, s: &[u8], value: bool, left: usize, binder: u64, mode: Option<Mode>)
        requires { Going (state_of self.old.st) }
        ensures says { at self.new ≡ lay mode (g.nest s.now (g.level s.now left) value (follows mode) binder) (at self.old) }
        ensures lent { self.new.out.ghost_name ≡ self.old.out.ghost_name }
    {
        let Some((ns, behind)) = namespace(s, self.st.place) else {
            self.invalid(mode);
            return;
        };
        self.st.go(behind);
        self.path(s, value, left, binder, mode);
        self.on_error(Word::Colons, mode);
        self.nested(s, ns, mode);
    }

    // An `impl`: its own path is read and not printed.
    #[tactic(auto, using(crate::proofs::CycleLaws::imp_rules))]
    #[cycle(syntax)]
    fn imp(&mut self, s: &[u8], with: bool, left: usize, binder: u64, mode: Option<Mode>)
        requires { Going (state_of self.old.st) }
        ensures says { at self.new ≡ lay mode (g.imp s.now (g.level s.now left) with (follows mode) binder) (at self.old) }
        ensures lent { self.new.out.ghost_name ≡ self.old.out.ghost_name }
    {
        let Some((_, behind)) = opt_integer_62(s, self.st.place, b's') else {
            self.invalid(mode);
            return;
        };
        self.st.go(behind);
        self.path(s, false, left, binder, None);
        self.slf(s, with, left, binder, mode);
    }

    // `<type>` or `<type as trait>`
    #[tactic(auto, using(crate::proofs::CycleLaws::slf_rules), unfolding(crate::specs::Model::qself))]
    #[cycle(syntax)]
    fn slf(&mut self, s: &[u8], with: bool, left: usize, binder: u64, mode: Option<Mode>)
        ensures says { at self.new ≡ lay mode (g.qself s.now (g.level s.now left) with (follows mode) binder) (at self.old) }
        ensures lent { self.new.out.ghost_name ≡ self.old.out.ghost_name }
    {
        self.say(Word::Less, mode);
        self.ty(s, left, binder, mode);
        self.trt(s, with, left, binder, mode);
        self.say(Word::More, mode);
    }

    // ` as trait`, where there is one.
    #[tactic(auto, using(crate::proofs::CycleLaws::trt_rules), unfolding(crate::specs::Model::trt))]
    #[cycle(syntax)]
    fn trt(&mut self, s: &[u8], with: bool, left: usize, binder: u64, mode: Option<Mode>)
        ensures says { at self.new ≡ lay mode (g.trt s.now (g.level s.now left) with (follows mode) binder) (at self.old) }
        ensures lent { self.new.out.ghost_name ≡ self.old.out.ghost_name }
    {
        if with {
            self.say(Word::As, mode);
            self.path(s, false, left, binder, mode);
        }
    }

    // A path with generic arguments.
    #[tactic(auto, using(crate::proofs::CycleLaws::gns_rules))]
    #[cycle(syntax)]
    fn gns(&mut self, s: &[u8], value: bool, left: usize, binder: u64, mode: Option<Mode>)
        ensures says { at self.new ≡ lay mode (g.generic s.now (g.level s.now left) value (follows mode) binder) (at self.old) }
        ensures lent { self.new.out.ghost_name ≡ self.old.out.ghost_name }
    {
        self.path(s, value, left, binder, mode);
        self.say(choose(value, Word::ValueLess, Word::Less), mode);
        self.ls(s, Item::Arg, left, binder, mode);
        self.say(Word::More, mode);
    }

    // A generic argument.
    #[tactic(auto, using(crate::proofs::CycleLaws::arg_rules))]
    #[cycle(syntax)]
    fn arg(&mut self, s: &[u8], left: usize, binder: u64, mode: Option<Mode>)
        ensures says { at self.new ≡ lay mode (g.arg s.now (g.level s.now left) (follows mode) binder) (at self.old) }
        ensures lent { self.new.out.ghost_name ≡ self.old.out.ghost_name }
    {
        if self.st.stopped() {
            self.say(Word::Ask, mode);
            return;
        }
        let t = look(s, self.st.place);
        let b = t.byte;
        match b {
            b'L' => {
                self.st.go(t.behind);
                self.lifetime(s, binder, mode);
            }
            b'K' => {
                self.st.go(t.behind);
                self.con(s, false, left, binder, mode);
            }
            _ => self.ty(s, left, binder, mode),
        }
    }

    // A back reference, behind its `B`.
    #[tactic(auto, using(crate::proofs::CycleLaws::bk_rules))]
    #[cycle(syntax)]
    #[inline(never)]
    fn bk(&mut self, s: &[u8], kind: Kind, left: usize, binder: u64, mode: Option<Mode>)
        requires { Going (state_of self.old.st) }
        ensures says { at self.new ≡ lay mode (g.back s.now (g.level s.now left) kind (follows mode) binder) (at self.old) }
        ensures lent { self.new.out.ghost_name ≡ self.old.out.ghost_name }
    {
        let Some((v, behind)) = backref(s, self.st.place) else {
            self.invalid(mode);
            return;
        };
        self.st.go(behind);
        self.aim(s, v, kind, left, binder, mode);
    }

    // What it leads to: counts one more level, and an error there is damage. Nothing is followed where nothing is printed.
    #[tactic(auto, using(crate::proofs::CycleLaws::aim_rules))]
    #[cycle(syntax)]
    fn aim(&mut self, s: &[u8], v: usize, kind: Kind, left: usize, binder: u64, mode: Option<Mode>)
        requires { Going (state_of self.old.st) }
        ensures says { at self.new ≡ lay mode ((g.level s.now left).aim kind (follows mode) binder v) (at self.old) }
        ensures lent { self.new.out.ghost_name ≡ self.old.out.ghost_name }
    {
        if left == 0 {
            self.too_deep(mode);
            return;
        }
        if mode.is_none() {
            return;
        }
        let place = self.st.place;
        self.st.go(v);
        self.see(s, kind, left - 1, binder, mode);
        self.st.back_to(place);
    }

    // A target, by its kind.
    #[tactic(auto, using(crate::proofs::CycleLaws::see_rules))]
    #[cycle(syntax)]
    fn see(&mut self, s: &[u8], kind: Kind, left: usize, binder: u64, mode: Option<Mode>)
        ensures says { at self.new ≡ lay mode (g.says s.now (g.level s.now left) kind (follows mode) binder) (at self.old) }
        ensures lent { self.new.out.ghost_name ≡ self.old.out.ghost_name }
    {
        match kind {
            Kind::Path => self.path(s, false, left, binder, mode),
            Kind::Value => self.path(s, true, left, binder, mode),
            Kind::Ty => self.ty(s, left, binder, mode),
            Kind::Const => self.con(s, false, left, binder, mode),
            Kind::Expr => self.con(s, true, left, binder, mode),
        }
    }

    // A type, with an optional `w` before it. Without one nothing is stored, since the next read would wait for that.
    #[tactic(auto, using(crate::proofs::CycleLaws::ty_rules))]
    #[cycle(syntax)]
    fn ty(&mut self, s: &[u8], left: usize, binder: u64, mode: Option<Mode>)
        ensures says { at self.new ≡ lay mode (g.type s.now (g.level s.now left) (follows mode) binder) (at self.old) }
        ensures lent { self.new.out.ghost_name ≡ self.old.out.ghost_name }
    {
        if self.st.stopped() {
            self.say(Word::Ask, mode);
            return;
        }
        let place = self.st.place;
        let behind = eat(s, place, b'w');
        if behind != place {
            self.st.go(behind);
            self.say(Word::Splat, mode);
        }
        self.bar(s, left, binder, mode);
    }

    // A type: a basic one counts no level, any other one.
    #[tactic(auto, using(crate::proofs::CycleLaws::bar_rules))]
    #[cycle(syntax)]
    fn bar(&mut self, s: &[u8], left: usize, binder: u64, mode: Option<Mode>)
        ensures says { at self.new ≡ lay mode ((g.level s.now left).bare (follows mode) binder) (at self.old) }
        ensures lent { self.new.out.ghost_name ≡ self.old.out.ghost_name }
    {
        if self.st.stopped() {
            self.say(Word::Ask, mode);
            return;
        }
        let t = look(s, self.st.place);
        let letter = t.byte;
        let basic = pieces::basic::is_basic(letter);
        if basic {
            self.st.go(t.behind);
            self.say(Basic(letter), mode);
            return;
        }
        if left == 0 {
            self.no_level(s, mode);
            return;
        }
        self.tys(s, left - 1, binder, mode);
    }

    // A type that is no basic one by its tag, with the level counted.
    #[tactic(auto, using(crate::proofs::CycleLaws::tys_rules))]
    #[cycle(syntax)]
    fn tys(&mut self, s: &[u8], left: usize, binder: u64, mode: Option<Mode>)
        requires { Going (state_of self.old.st) }
        ensures says { at self.new ≡ lay mode (part.typed s.now (g.level s.now left) (follows mode) binder) (at self.old) }
        ensures lent { self.new.out.ghost_name ≡ self.old.out.ghost_name }
    {
        let t = look(s, self.st.place);
        let b = t.byte;
        match b {
            b'R' => {
                self.st.go(t.behind);
                self.bor(s, false, left, binder, mode);
            }
            b'Q' => {
                self.st.go(t.behind);
                self.bor(s, true, left, binder, mode);
            }
            b'P' => {
                self.st.go(t.behind);
                self.ptr(s, Word::PtrConst, left, binder, mode);
            }
            b'O' => {
                self.st.go(t.behind);
                self.ptr(s, Word::PtrMut, left, binder, mode);
            }
            b'A' => {
                self.st.go(t.behind);
                self.arr(s, true, left, binder, mode);
            }
            b'S' => {
                self.st.go(t.behind);
                self.arr(s, false, left, binder, mode);
            }
            b'T' => {
                self.st.go(t.behind);
                self.tup(s, Item::Ty, left, binder, mode);
            }
            b'F' => {
                self.st.go(t.behind);
                self.fnp(s, left, binder, mode);
            }
            b'D' => {
                self.st.go(t.behind);
                self.obj(s, left, binder, mode);
            }
            b'B' => {
                self.st.go(t.behind);
                self.bk(s, Kind::Ty, left, binder, mode);
            }
            b'W' => {
                self.st.go(t.behind);
                self.sub(s, left, binder, mode);
            }
            _ => self.nam(s, left, binder, mode),
        }
    }

    // A type by its path, if a byte is there.
    #[tactic(auto, using(crate::proofs::CycleLaws::nam_rules))]
    #[cycle(syntax)]
    fn nam(&mut self, s: &[u8], left: usize, binder: u64, mode: Option<Mode>)
        requires { Going (state_of self.old.st) }
        ensures says { at self.new ≡ lay mode (part.named s.now (g.level s.now left) (follows mode) binder) (at self.old) }
        ensures lent { self.new.out.ghost_name ≡ self.old.out.ghost_name }
    {
        if self.st.place < s.len() {
            self.path(s, false, left, binder, mode);
            return;
        }
        self.invalid(mode);
    }

    // A reference: `&'a mut type`.
    #[tactic(auto, using(crate::proofs::CycleLaws::bor_rules))]
    #[cycle(syntax)]
    #[inline(never)]
    fn bor(&mut self, s: &[u8], is_mut: bool, left: usize, binder: u64, mode: Option<Mode>)
        ensures says { at self.new ≡ lay mode (g.refer s.now (g.level s.now left) is_mut (follows mode) binder) (at self.old) }
        ensures lent { self.new.out.ghost_name ≡ self.old.out.ghost_name }
    {
        let more = self.reference(s, is_mut, binder, mode);
        if more {
            self.ty(s, left, binder, mode);
        }
    }

    // A word and a type: a pointer, or the result of a function pointer.
    #[tactic(auto, using(crate::proofs::CycleLaws::ptr_rules), unfolding(crate::specs::Model::pointer))]
    #[cycle(syntax)]
    #[inline(never)]
    fn ptr(&mut self, s: &[u8], k: Word, left: usize, binder: u64, mode: Option<Mode>)
        ensures says { at self.new ≡ lay mode (g.pointer s.now (g.level s.now left) k (follows mode) binder) (at self.old) }
        ensures lent { self.new.out.ghost_name ≡ self.old.out.ghost_name }
    {
        self.say(k, mode);
        self.ty(s, left, binder, mode);
    }

    // `[type; length]` or `[type]`
    #[tactic(auto, using(crate::proofs::CycleLaws::arr_rules), unfolding(crate::specs::Model::array))]
    #[cycle(syntax)]
    #[inline(never)]
    fn arr(&mut self, s: &[u8], sized: bool, left: usize, binder: u64, mode: Option<Mode>)
        ensures says { at self.new ≡ lay mode (g.array s.now (g.level s.now left) sized (follows mode) binder) (at self.old) }
        ensures lent { self.new.out.ghost_name ≡ self.old.out.ghost_name }
    {
        self.say(Word::Bracket, mode);
        self.ty(s, left, binder, mode);
        self.sz(s, sized, left, binder, mode);
        self.say(Word::BracketEnd, mode);
    }

    // An array's length.
    #[tactic(auto, using(crate::proofs::CycleLaws::sz_rules), unfolding(crate::specs::Model::size))]
    #[cycle(syntax)]
    fn sz(&mut self, s: &[u8], sized: bool, left: usize, binder: u64, mode: Option<Mode>)
        ensures says { at self.new ≡ lay mode (g.size s.now (g.level s.now left) sized (follows mode) binder) (at self.old) }
        ensures lent { self.new.out.ghost_name ≡ self.old.out.ghost_name }
    {
        if sized {
            self.say(Word::Semicolon, mode);
            self.con(s, true, left, binder, mode);
        }
    }

    // A tuple of types or of constants: one alone keeps its comma.
    #[tactic(auto, using(crate::proofs::CycleLaws::tup_rules), unfolding(crate::specs::Model::tuple))]
    #[cycle(syntax)]
    #[inline(never)]
    fn tup(&mut self, s: &[u8], item: Item, left: usize, binder: u64, mode: Option<Mode>)
        ensures says { at self.new ≡ lay mode (g.tuple s.now (g.level s.now left) item (follows mode) binder) (at self.old) }
        ensures lent { self.new.out.ghost_name ≡ self.old.out.ghost_name }
    {
        self.say(Word::Paren, mode);
        let count = self.ls(s, item, left, binder, mode);
        self.comma(count, mode);
        self.say(Word::ParenEnd, mode);
    }

    // A function pointer: its binder counts for what follows.
    #[tactic(auto, using(crate::proofs::CycleLaws::fnp_rules))]
    #[cycle(syntax)]
    #[inline(never)]
    fn fnp(&mut self, s: &[u8], left: usize, binder: u64, mode: Option<Mode>)
        requires { Going (state_of self.old.st) }
        ensures says { at self.new ≡ lay mode (g.function s.now (g.level s.now left) (follows mode) binder) (at self.old) }
        ensures lent { self.new.out.ghost_name ≡ self.old.out.ghost_name }
    {
        let Some((n, behind)) = opt_integer_62(s, self.st.place, b'G') else {
            self.invalid(mode);
            return;
        };
        self.st.go(behind);
        self.binder(n, binder, mode);
        let more = self.signature(s, mode);
        if more {
            self.par(s, left, leaf::held(binder, n), mode);
        }
    }

    // The parameters of a function pointer, and its result.
    #[tactic(auto, using(crate::proofs::CycleLaws::par_rules), unfolding(crate::specs::Model::parameters))]
    #[cycle(syntax)]
    fn par(&mut self, s: &[u8], left: usize, binder: u64, mode: Option<Mode>)
        ensures says { at self.new ≡ lay mode (g.parameters s.now (g.level s.now left) (follows mode) binder) (at self.old) }
        ensures lent { self.new.out.ghost_name ≡ self.old.out.ghost_name }
    {
        self.ls(s, Item::Ty, left, binder, mode);
        self.say(Word::ParenEnd, mode);
        self.ret(s, left, binder, mode);
    }

    // The result of a function pointer: nothing for `u`.
    #[tactic(auto, using(crate::proofs::CycleLaws::ret_rules))]
    #[cycle(syntax)]
    fn ret(&mut self, s: &[u8], left: usize, binder: u64, mode: Option<Mode>)
        ensures says { at self.new ≡ lay mode (g.result s.now (g.level s.now left) (follows mode) binder) (at self.old) }
        ensures lent { self.new.out.ghost_name ≡ self.old.out.ghost_name }
    {
        if self.st.stopped() {
            self.ptr(s, Word::Arrow, left, binder, mode);
            return;
        }
        let place = self.st.place;
        let behind = eat(s, place, b'u');
        if behind != place {
            self.st.go(behind);
            return;
        }
        self.ptr(s, Word::Arrow, left, binder, mode);
    }

    // A trait object.
    #[tactic(auto, using(crate::proofs::CycleLaws::obj_rules), unfolding(crate::specs::Model::object))]
    #[cycle(syntax)]
    #[inline(never)]
    fn obj(&mut self, s: &[u8], left: usize, binder: u64, mode: Option<Mode>)
        ensures says { at self.new ≡ lay mode (g.object s.now (g.level s.now left) (follows mode) binder) (at self.old) }
        ensures lent { self.new.out.ghost_name ≡ self.old.out.ghost_name }
    {
        self.say(Word::Dyn, mode);
        self.trs(s, left, binder, mode);
        self.bound(s, binder, mode);
    }

    // Its traits: their binder does not count behind them.
    #[tactic(auto, using(crate::proofs::CycleLaws::trs_rules))]
    #[cycle(syntax)]
    fn trs(&mut self, s: &[u8], left: usize, binder: u64, mode: Option<Mode>)
        ensures says { at self.new ≡ lay mode (g.traits s.now (g.level s.now left) (follows mode) binder) (at self.old) }
        ensures lent { self.new.out.ghost_name ≡ self.old.out.ghost_name }
    {
        if self.st.stopped() {
            self.say(Word::Ask, mode);
            return;
        }
        let Some((n, behind)) = opt_integer_62(s, self.st.place, b'G') else {
            self.invalid(mode);
            return;
        };
        self.st.go(behind);
        self.binder(n, binder, mode);
        self.ls(s, Item::Trait, left, leaf::held(binder, n), mode);
    }

    // `type is pattern`
    #[tactic(auto, using(crate::proofs::CycleLaws::sub_rules), unfolding(crate::specs::Model::patterned))]
    #[cycle(syntax)]
    #[inline(never)]
    fn sub(&mut self, s: &[u8], left: usize, binder: u64, mode: Option<Mode>)
        ensures says { at self.new ≡ lay mode (g.patterned s.now (g.level s.now left) (follows mode) binder) (at self.old) }
        ensures lent { self.new.out.ghost_name ≡ self.old.out.ghost_name }
    {
        self.ty(s, left, binder, mode);
        self.say(Word::Is, mode);
        self.pat(s, left, binder, mode);
    }

    // A path whose generics may be left open for what is bound behind it: whether they are.
    #[tactic(auto, using(crate::proofs::CycleLaws::op_rules))]
    #[cycle(syntax)]
    fn op(&mut self, s: &[u8], left: usize, binder: u64, mode: Option<Mode>) -> bool
        requires { Going (state_of self.old.st) }
        ensures says { given result self.new ≡ lays false mode (g.open_path s.now (g.level s.now left) (follows mode) binder) (at self.old) }
        ensures lent { self.new.out.ghost_name ≡ self.old.out.ghost_name }
    {
        let t = look(s, self.st.place);
        let b = t.byte;
        match b {
            b'B' => {
                self.st.go(t.behind);
                self.ob(s, left, binder, mode)
            }
            b'I' => {
                self.st.go(t.behind);
                self.og(s, left, binder, mode)
            }
            _ => {
                self.path(s, false, left, binder, mode);
                false
            }
        }
    }

    // An open path with generics: they stay open.
    #[tactic(auto, using(crate::proofs::CycleLaws::og_rules))]
    #[cycle(syntax)]
    fn og(&mut self, s: &[u8], left: usize, binder: u64, mode: Option<Mode>) -> bool
        ensures says { given result self.new ≡ lays false mode (g.open_generic s.now (g.level s.now left) (follows mode) binder) (at self.old) }
        ensures lent { self.new.out.ghost_name ≡ self.old.out.ghost_name }
    {
        self.path(s, false, left, binder, mode);
        self.say(Word::Less, mode);
        self.ls(s, Item::Arg, left, binder, mode);
        !self.st.is_full()
    }

    // An open path behind its `B`.
    #[tactic(auto, using(crate::proofs::CycleLaws::ob_rules))]
    #[cycle(syntax)]
    fn ob(&mut self, s: &[u8], left: usize, binder: u64, mode: Option<Mode>) -> bool
        requires { Going (state_of self.old.st) }
        ensures says { given result self.new ≡ lays false mode (g.open_back s.now (g.level s.now left) (follows mode) binder) (at self.old) }
        ensures lent { self.new.out.ghost_name ≡ self.old.out.ghost_name }
    {
        let Some((v, behind)) = backref(s, self.st.place) else {
            self.invalid(mode);
            return false;
        };
        self.st.go(behind);
        self.oa(s, v, left, binder, mode)
    }

    // What it leads to, with the level counted.
    #[tactic(auto, using(crate::proofs::CycleLaws::oa_rules))]
    #[cycle(syntax)]
    fn oa(&mut self, s: &[u8], v: usize, left: usize, binder: u64, mode: Option<Mode>) -> bool
        requires { Going (state_of self.old.st) }
        ensures says { given result self.new ≡ lays false mode ((g.level s.now left).open_at (follows mode) binder v) (at self.old) }
        ensures lent { self.new.out.ghost_name ≡ self.old.out.ghost_name }
    {
        if left == 0 {
            self.too_deep(mode);
            return false;
        }
        if mode.is_none() {
            return false;
        }
        let place = self.st.place;
        self.st.go(v);
        let is_open = self.op(s, left - 1, binder, mode);
        self.st.back_to(place);
        is_open
    }

    // A trait of a trait object, with what is bound to its associated types.
    #[tactic(auto, using(crate::proofs::CycleLaws::dt_rules), unfolding(crate::specs::Model::dyn_trait))]
    #[cycle(syntax)]
    #[inline(never)]
    fn dt(&mut self, s: &[u8], left: usize, binder: u64, mode: Option<Mode>)
        ensures says { at self.new ≡ lay mode (g.dyn_trait s.now (g.level s.now left) (follows mode) binder) (at self.old) }
        ensures lent { self.new.out.ghost_name ≡ self.old.out.ghost_name }
    {
        if self.st.stopped() {
            self.say(Word::Ask, mode);
            return;
        }
        let is_open = self.op(s, left, binder, mode);
        self.bs(s, is_open, left, binder, mode);
    }

    // The bindings, and the end of the generics where they are open. There are no more than the symbol has bytes. A `for` over the turns would
    // have the tests of the loop once more behind it.
    #[tactic(auto, using(crate::proofs::CycleLaws::bs_rules))]
    #[cycle(syntax)]
    fn bs(&mut self, s: &[u8], is_open: bool, left: usize, binder: u64, mode: Option<Mode>)
        ensures says { at self.new ≡ lay mode (g.bindings s.now (g.level s.now left) (length s.now) is_open (follows mode) binder) (at self.old) }
        ensures lent { self.new.out.ghost_name ≡ self.old.out.ghost_name }
    {
        let mut opened = is_open;
        let mut turns = s.len();
        loop {
            if self.st.stopped() {
                self.word_if(opened, Word::More, mode);
                return;
            }
            if turns == 0 {
                self.st.invalid();
                return;
            }
            let at = self.st.place;
            let behind = eat(s, at, b'p');
            if behind == at {
                self.word_if(opened, Word::More, mode);
                return;
            }
            self.st.go(behind);
            let named = self.bd(s, opened, left, binder, mode);
            if !named {
                return;
            }
            opened = true;
            turns -= 1;
        }
    }

    // One binding behind its `p`: whether its name was read.
    #[tactic(auto, using(crate::proofs::CycleLaws::bd_rules))]
    #[cycle(syntax)]
    fn bd(&mut self, s: &[u8], opened: bool, left: usize, binder: u64, mode: Option<Mode>) -> bool
        ensures says { given result self.new ≡ lays false mode (g.binding s.now (g.level s.now left) opened (follows mode) binder) (at self.old) }
        ensures lent { self.new.out.ghost_name ≡ self.old.out.ghost_name }
    {
        self.say(choose(opened, Word::CommaBlank, Word::Less), mode);
        self.bn(s, left, binder, mode)
    }

    // Its name, and what is bound to it.
    #[tactic(auto, using(crate::proofs::CycleLaws::bn_rules))]
    #[cycle(syntax)]
    fn bn(&mut self, s: &[u8], left: usize, binder: u64, mode: Option<Mode>) -> bool
        ensures says { given result self.new ≡ lays false mode (g.bound_name s.now (g.level s.now left) (follows mode) binder) (at self.old) }
        ensures lent { self.new.out.ghost_name ≡ self.old.out.ghost_name }
    {
        if self.st.stopped() {
            self.say(Word::Ask, mode);
            return false;
        }
        let Some(name) = parser::names::ident(s, self.st.place) else {
            self.invalid(mode);
            return false;
        };
        self.st.go(name.end);
        self.name_and(s, name, Word::Equals, mode);
        self.bt(s, left, binder, mode);
        !self.st.is_full()
    }

    // What is bound: a constant or a type.
    #[tactic(auto, using(crate::proofs::CycleLaws::bt_rules))]
    #[cycle(syntax)]
    fn bt(&mut self, s: &[u8], left: usize, binder: u64, mode: Option<Mode>)
        ensures says { at self.new ≡ lay mode (g.bound_to s.now (g.level s.now left) (follows mode) binder) (at self.old) }
        ensures lent { self.new.out.ghost_name ≡ self.old.out.ghost_name }
    {
        if self.st.stopped() {
            self.say(Word::Ask, mode);
            return;
        }
        let place = self.st.place;
        let behind = eat(s, place, b'K');
        if behind != place {
            self.st.go(behind);
            self.con(s, false, left, binder, mode);
            return;
        }
        self.ty(s, left, binder, mode);
    }

    // A pattern.
    #[tactic(auto, using(crate::proofs::CycleLaws::pat_rules))]
    #[cycle(syntax)]
    fn pat(&mut self, s: &[u8], left: usize, binder: u64, mode: Option<Mode>)
        ensures says { at self.new ≡ lay mode (g.pat s.now (g.level s.now left) (follows mode) binder) (at self.old) }
        ensures lent { self.new.out.ghost_name ≡ self.old.out.ghost_name }
    {
        if self.st.stopped() {
            self.say(Word::Ask, mode);
            return;
        }
        let t = look(s, self.st.place);
        let b = t.byte;
        match b {
            b'R' => {
                self.st.go(t.behind);
                self.rng(s, left, binder, mode);
            }
            b'O' => {
                self.st.go(t.behind);
                self.ors(s, left, binder, mode);
            }
            b'N' => {
                self.st.go(t.behind);
                self.say(Word::Null, mode);
            }
            _ => self.invalid(mode),
        }
    }

    // A range of constants.
    #[tactic(auto, using(crate::proofs::CycleLaws::rng_rules), unfolding(crate::specs::Model::range))]
    #[cycle(syntax)]
    fn rng(&mut self, s: &[u8], left: usize, binder: u64, mode: Option<Mode>)
        ensures says { at self.new ≡ lay mode (g.range s.now (g.level s.now left) (follows mode) binder) (at self.old) }
        ensures lent { self.new.out.ghost_name ≡ self.old.out.ghost_name }
    {
        self.con(s, false, left, binder, mode);
        self.say(Word::Range, mode);
        self.con(s, false, left, binder, mode);
    }

    // Patterns of which one is met: counts a level.
    #[tactic(auto, using(crate::proofs::CycleLaws::ors_rules))]
    #[cycle(syntax)]
    fn ors(&mut self, s: &[u8], left: usize, binder: u64, mode: Option<Mode>)
        requires { Going (state_of self.old.st) }
        ensures says { at self.new ≡ lay mode ((g.level s.now left).ors (follows mode) binder) (at self.old) }
        ensures lent { self.new.out.ghost_name ≡ self.old.out.ghost_name }
    {
        if left == 0 {
            self.too_deep(mode);
            return;
        }
        self.pat(s, left - 1, binder, mode);
        self.alt(s, left - 1, binder, mode);
    }

    // The patterns behind the first: an error ends them with the marker, once more. No `for`, as in `bs`.
    #[tactic(auto, using(crate::proofs::CycleLaws::alt_rules))]
    #[cycle(syntax)]
    fn alt(&mut self, s: &[u8], left: usize, binder: u64, mode: Option<Mode>)
        ensures says { at self.new ≡ lay mode (g.alternatives s.now (g.level s.now left) (length s.now) (follows mode) binder) (at self.old) }
        ensures lent { self.new.out.ghost_name ≡ self.old.out.ghost_name }
    {
        let mut turns = s.len();
        loop {
            if self.st.stopped() {
                self.invalid(mode);
                return;
            }
            if turns == 0 {
                self.st.invalid();
                return;
            }
            let at = self.st.place;
            let behind = eat(s, at, b'E');
            if behind != at {
                self.st.go(behind);
                return;
            }
            self.say(Word::Or, mode);
            self.pat(s, left, binder, mode);
            turns -= 1;
        }
    }

    // A constant: counts a level behind its tag.
    #[tactic(auto, using(crate::proofs::CycleLaws::con_rules))]
    #[cycle(syntax)]
    fn con(&mut self, s: &[u8], value: bool, left: usize, binder: u64, mode: Option<Mode>)
        ensures says { at self.new ≡ lay mode ((g.level s.now left).con value (follows mode) binder) (at self.old) }
        ensures lent { self.new.out.ghost_name ≡ self.old.out.ghost_name }
    {
        if self.st.stopped() {
            self.say(Word::Ask, mode);
            return;
        }
        if left == 0 {
            self.no_level(s, mode);
            return;
        }
        self.ct(s, value, left - 1, binder, mode);
    }

    // A constant by its tag, with the level counted.
    #[tactic(auto, using(crate::proofs::CycleLaws::ct_rules))]
    #[cycle(syntax)]
    fn ct(&mut self, s: &[u8], value: bool, left: usize, binder: u64, mode: Option<Mode>)
        requires { Going (state_of self.old.st) }
        ensures says { at self.new ≡ lay mode (g.by_tag s.now tt (g.const_tags s.now (g.level s.now left) value (follows mode) binder) (g.integer s.now)) (at self.old) }
        ensures lent { self.new.out.ghost_name ≡ self.old.out.ghost_name }
    {
        let t = look(s, self.st.place);
        let b = t.byte;
        match b {
            b'A' | b'Q' | b'R' | b'T' | b'e' => {
                self.st.go(t.behind);
                self.lit(s, b, value, left, binder, mode);
            }
            b'p' => {
                self.st.go(t.behind);
                self.say(Word::Underscore, mode);
            }
            b'b' => {
                self.st.go(t.behind);
                self.boolean(s, mode);
            }
            b'c' => {
                self.st.go(t.behind);
                self.character(s, mode);
            }
            b'V' => {
                self.st.go(t.behind);
                self.adt(s, value, left, binder, mode);
            }
            b'B' => {
                self.st.go(t.behind);
                self.bk(
                    s,
                    choose(value, Kind::Expr, Kind::Const),
                    left,
                    binder,
                    mode,
                );
            }
            _ => self.integer(s, mode),
        }
    }

    // A constant that stands in braces outside a value; but a reference to a string is the string.
    #[tactic(auto, using(crate::proofs::CycleLaws::lit_rules))]
    #[cycle(syntax)]
    fn lit(&mut self, s: &[u8], b: u8, value: bool, left: usize, binder: u64, mode: Option<Mode>)
        requires { Going (state_of self.old.st) }
        ensures says { at self.new ≡ lay mode (part.lit_by s.now (g.level s.now left) b value (follows mode) binder) (at self.old) }
        ensures lent { self.new.out.ghost_name ≡ self.old.out.ghost_name }
    {
        let place = self.st.place;
        let behind = crate::read::string_mark(s, place, b);
        if behind != place {
            self.st.go(behind);
            self.literal(s, mode);
            return;
        }
        self.brc(s, b, value, left, binder, mode);
    }

    // In braces, outside a value.
    #[tactic(auto, using(crate::proofs::CycleLaws::brc_rules), unfolding(crate::specs::Model::braced_by))]
    #[cycle(syntax)]
    fn brc(&mut self, s: &[u8], tag: u8, value: bool, left: usize, binder: u64, mode: Option<Mode>)
        ensures says { at self.new ≡ lay mode (g.braced_by s.now (g.level s.now left) tag value (follows mode) binder) (at self.old) }
        ensures lent { self.new.out.ghost_name ≡ self.old.out.ghost_name }
    {
        self.word_if(!value, Word::Brace, mode);
        self.bod(s, tag, left, binder, mode);
        self.word_if(!value, Word::Close, mode);
    }

    // What stands in the braces.
    #[tactic(auto, using(crate::proofs::CycleLaws::bod_rules))]
    #[cycle(syntax)]
    fn bod(&mut self, s: &[u8], tag: u8, left: usize, binder: u64, mode: Option<Mode>)
        ensures says { at self.new ≡ lay mode (g.body_by s.now (g.level s.now left) tag (follows mode) binder) (at self.old) }
        ensures lent { self.new.out.ghost_name ≡ self.old.out.ghost_name }
    {
        match tag {
            b'e' => self.unsized_literal(s, mode),
            b'A' => self.seq(
                s,
                Word::Bracket,
                Item::Expr,
                Word::BracketEnd,
                left,
                binder,
                mode,
            ),
            b'T' => self.tup(s, Item::Expr, left, binder, mode),
            _ => self.rk(s, tag == b'Q', left, binder, mode),
        }
    }

    // A reference to a constant.
    #[tactic(auto, using(crate::proofs::CycleLaws::rk_rules), unfolding(crate::specs::Model::refer_to))]
    #[cycle(syntax)]
    fn rk(&mut self, s: &[u8], is_mut: bool, left: usize, binder: u64, mode: Option<Mode>)
        ensures says { at self.new ≡ lay mode (g.refer_to s.now (g.level s.now left) is_mut (follows mode) binder) (at self.old) }
        ensures lent { self.new.out.ghost_name ≡ self.old.out.ghost_name }
    {
        self.say(Word::Ref, mode);
        self.word_if(is_mut, Word::Mut, mode);
        self.con(s, true, left, binder, mode);
    }

    // A list from a word to a word.
    #[tactic(auto, using(crate::proofs::CycleLaws::seq_rules), unfolding(crate::specs::Model::between))]
    #[cycle(syntax)]
    fn seq(
        &mut self,
        s: &[u8],
        from: Word,
        item: Item,
        to: Word,
        left: usize,
        binder: u64,
        mode: Option<Mode>,
    )
        ensures says { at self.new ≡ lay mode (g.between s.now (g.level s.now left) from item to (follows mode) binder) (at self.old) }
        ensures lent { self.new.out.ghost_name ≡ self.old.out.ghost_name }
    {
        self.say(from, mode);
        self.ls(s, item, left, binder, mode);
        self.say(to, mode);
    }

    // A value of a struct or an enum: its path, and its fields. Where those are not read, no brace closes it.
    #[tactic(auto, using(crate::proofs::CycleLaws::adt_rules), unfolding(crate::specs::Model::adt))]
    #[cycle(syntax)]
    fn adt(&mut self, s: &[u8], value: bool, left: usize, binder: u64, mode: Option<Mode>)
        ensures says { at self.new ≡ lay mode (g.adt s.now (g.level s.now left) value (follows mode) binder) (at self.old) }
        ensures lent { self.new.out.ghost_name ≡ self.old.out.ghost_name }
    {
        self.word_if(!value, Word::Brace, mode);
        self.path(s, true, left, binder, mode);
        self.var(s, value, left, binder, mode);
    }

    // The fields of a struct or an enum, by their form.
    #[tactic(auto, using(crate::proofs::CycleLaws::var_rules))]
    #[cycle(syntax)]
    fn var(&mut self, s: &[u8], value: bool, left: usize, binder: u64, mode: Option<Mode>)
        ensures says { at self.new ≡ lay mode (g.variant s.now (g.level s.now left) value (follows mode) binder) (at self.old) }
        ensures lent { self.new.out.ghost_name ≡ self.old.out.ghost_name }
    {
        if self.st.stopped() {
            self.say(Word::Ask, mode);
            return;
        }
        let t = look(s, self.st.place);
        let b = t.byte;
        match b {
            b'U' => {
                self.st.go(t.behind);
                self.word_if(!value, Word::Close, mode);
            }
            b'T' => {
                self.st.go(t.behind);
                self.fl(
                    s,
                    Word::Paren,
                    Item::Expr,
                    Word::ParenEnd,
                    value,
                    left,
                    binder,
                    mode,
                );
            }
            b'S' => {
                self.st.go(t.behind);
                self.fl(
                    s,
                    Word::Fields,
                    Item::Field,
                    Word::FieldsEnd,
                    value,
                    left,
                    binder,
                    mode,
                );
            }
            _ => self.invalid(mode),
        }
    }

    // Fields from a word to a word, and the brace behind them. Not by way of `seq`, whose frame would stand at every level.
    #[tactic(auto, using(crate::proofs::CycleLaws::fl_rules), unfolding(crate::specs::Model::between, crate::specs::Model::fields))]
    #[cycle(syntax)]
    fn fl(
        &mut self,
        s: &[u8],
        from: Word,
        item: Item,
        to: Word,
        value: bool,
        left: usize,
        binder: u64,
        mode: Option<Mode>,
    )
        ensures says { at self.new ≡ lay mode (g.fields s.now (g.level s.now left) from item to value (follows mode) binder) (at self.old) }
        ensures lent { self.new.out.ghost_name ≡ self.old.out.ghost_name }
    {
        self.say(from, mode);
        self.ls(s, item, left, binder, mode);
        self.say(to, mode);
        self.word_if(!value, Word::Close, mode);
    }

    // A field of a struct: its name and its value.
    #[tactic(auto, using(crate::proofs::CycleLaws::fld_rules))]
    #[cycle(syntax)]
    fn fld(&mut self, s: &[u8], left: usize, binder: u64, mode: Option<Mode>)
        ensures says { at self.new ≡ lay mode (g.field s.now (g.level s.now left) (follows mode) binder) (at self.old) }
        ensures lent { self.new.out.ghost_name ≡ self.old.out.ghost_name }
    {
        if self.st.stopped() {
            self.say(Word::Ask, mode);
            return;
        }
        let Some((_, name)) = crate::read::numbered(s, self.st.place) else {
            self.invalid(mode);
            return;
        };
        self.st.go(name.end);
        self.name_and(s, name, Word::Field, mode);
        self.con(s, true, left, binder, mode);
    }

    // A list, up to the `E` that ends it: how many elements it has. No list has more elements than the symbol has bytes. No `for`, as in `bs`.
    #[tactic(auto, using(crate::proofs::CycleLaws::ls_rules))]
    #[cycle(syntax)]
    fn ls(&mut self, s: &[u8], item: Item, left: usize, binder: u64, mode: Option<Mode>) -> usize
        ensures says { given result self.new ≡ lays 0 mode (g.list s.now (g.level s.now left) item (follows mode) binder) (at self.old) }
        ensures lent { self.new.out.ghost_name ≡ self.old.out.ghost_name }
    {
        let mut i = 0;
        let mut turns = s.len();
        loop {
            if self.st.is_full() {
                return 0;
            }
            if self.st.stopped() {
                return i;
            }
            if turns == 0 {
                self.st.invalid();
                return i;
            }
            let at = self.st.place;
            let behind = eat(s, at, b'E');
            if behind != at {
                self.st.go(behind);
                return i;
            }
            self.separator(i, separator(item), mode);
            self.one(s, item, left, binder, mode);
            i += 1;
            turns -= 1;
        }
    }

    // An element of a list.
    #[tactic(auto, using(crate::proofs::CycleLaws::one_rules))]
    #[cycle(syntax)]
    fn one(&mut self, s: &[u8], item: Item, left: usize, binder: u64, mode: Option<Mode>)
        ensures says { at self.new ≡ lay mode (g.element s.now (g.level s.now left) item (follows mode) binder) (at self.old) }
        ensures lent { self.new.out.ghost_name ≡ self.old.out.ghost_name }
    {
        match item {
            Item::Ty => self.ty(s, left, binder, mode),
            Item::Arg => self.arg(s, left, binder, mode),
            Item::Expr => self.con(s, true, left, binder, mode),
            Item::Field => self.fld(s, left, binder, mode),
            Item::Trait => self.dt(s, left, binder, mode),
        }
    }
}

#[tactic(auto, unfolding(crate::specs::Model::sep_of))]
fn separator(item: Item) -> Word
    ensures { result ≡ g.sep_of item }
{
    match item {
        Item::Trait => Word::Plus,
        Item::Ty => Word::CommaBlank,
        Item::Arg => Word::CommaBlank,
        Item::Expr => Word::CommaBlank,
        Item::Field => Word::CommaBlank,
    }
}
