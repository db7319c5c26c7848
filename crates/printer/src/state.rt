// The printer: the buffer that is lent to it, and its state. The symbol goes beside it, and so do levels left, binder count and mode: as
// fields each would be a promise more for every method to say that it stays, and a struct of the four would be made anew at every level,
// binder and skipped path, and no contract would be shorter by it.
// `lent` stands in the contract of every method that prints: it is the language's own form for a struct that holds a `&mut`, and no
// invariant can say of a call that its buffer is the one from before.
// `Going`, a state with no error and room, is asked where a test has shown it: a type for such a printer would be made and taken apart at
// each test, and the printer goes on as what it was.
ghost use Rattle.std.specs.Prelude.{◌≡◌, false, ◌+◌, ◌<◌, ◌^◌};
ghost use Rattle.printer.specs.Lay.{state_of, full_state, moved_to, failed_at, code_of, advanced_by, sum_of, settled_by, hurt_at, back_to, fresh, filled, halts};

use pieces::put::{NoRoom, Put};

// Whether the printer goes on; or the error that it has met; or that the buffer is full: such a state says nothing else. An error of
// another number, 4 at least, comes with a state that is given by number (numbers.rt): no method sets it where it was not
// (proofs/ErrorLaws.antt).
#[derive(Clone, Copy, Debug, PartialEq, Eq)]
pub enum Status {
    Going,
    Invalid,
    RecursedTooDeep,
    Full,
    Other(usize),
}

// The place in the symbol; the status; whether a target was damaged; how many bytes are written.
#[derive(Clone, Copy, Debug, PartialEq, Eq)]
pub struct State {
    pub place: usize,
    pub status: Status,
    pub damaged: bool,
    pub written: usize,
}

#[derive(Drop)]
pub struct Printer<'a> {
    pub out: &'a mut [u8],
    pub st: State,
}

impl<'a> Printer<'a> {
    // With nothing written.
    pub fn new(out: &'a mut [u8], place: usize) -> Printer<'a>
        ensures buffer { result.out.now ≡ out.old }
        ensures state { state_of result.st ≡ fresh place }
        ensures lent { result.out.ghost_name ≡ out.entry.ghost_name }
    {
        let st = State {
            place,
            status: Status::Going,
            damaged: false,
            written: 0,
        };
        Printer { out, st }
    }
}

impl State {
    pub fn is_full(&self) -> bool
        ensures { result ≡ filled self.now.status }
    {
        matches!(self.status, Status::Full)
    }

    // Whether an error is set or the buffer is full.
    pub fn stopped(&self) -> bool
        ensures { result ≡ halts self.now.status }
    {
        !matches!(self.status, Status::Going)
    }

    // Another place.
    pub fn go(&mut self, place: usize)
        ensures { state_of self.new ≡ moved_to place (state_of self.old) }
    {
        self.place = place;
    }

    // Invalid, where there is room. One method for both errors would take the error, and be as long where it is called.
    pub fn invalid(&mut self)
        requires { (state_of self.old).full ≡ false }
        ensures { state_of self.new ≡ failed_at 1 (state_of self.old) }
    {
        self.status = Status::Invalid;
    }

    // RecursedTooDeep, where there is room.
    pub fn too_deep(&mut self)
        requires { (state_of self.old).full ≡ false }
        ensures { state_of self.new ≡ failed_at 2 (state_of self.old) }
    {
        self.status = Status::RecursedTooDeep;
    }

    // After a piece: as many bytes more are written, or the buffer is full.
    #[tactic(auto, using(crate::proofs::StateLaws::settle_laws))]
    pub fn settle(&mut self, p: Put)
        requires { sum_of p (state_of self.old) < 2 ^ 64 }
        ensures { state_of self.new ≡ settled_by p (state_of self.old) }
    {
        match p {
            Ok(n) => self.written += n,
            Err(NoRoom) => {
                *self = State {
                    place: 0,
                    status: Status::Full,
                    damaged: false,
                    written: 0,
                };
            }
        }
    }

    // Behind a target, at another place: an error is damage. Unless the buffer is full.
    pub fn back_to(&mut self, place: usize)
        ensures { state_of self.new ≡ back_to place (state_of self.old) }
    {
        if self.is_full() {
            return;
        }
        self.place = place;
        if self.stopped() {
            self.status = Status::Going;
            self.damaged = true;
        }
    }
}
