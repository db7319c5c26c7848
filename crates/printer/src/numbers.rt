// The printer's state and mode by number, for a caller that holds them in four numbers and a byte.
//   st[0]: the place in the symbol
//   st[1]: 0; or the error, 1 Invalid, 2 RecursedTooDeep, or another; or 3 where the buffer is full
//   st[2]: 0 where no target was damaged
//   st[3]: how many bytes are written
ghost use Rattle.std.specs.Prelude.{◌≡◌, eqb};
ghost use Rattle.parser.specs.Digits.{if-then};
ghost use Rattle.printer.specs.Lay.{state_of, code_of, filled};
ghost use Rattle.printer.specs.Numbers.{numbered, mode_by};

use crate::state::{State, Status};
use pieces::mode::Mode;

#[tactic(auto, using(crate::proofs::NumberLaws::status_laws))]
fn status_of(error: usize) -> Status
    ensures error { code_of result ≡ if-then (eqb error 3) 0 error }
    ensures full { filled result ≡ eqb error 3 }
{
    match error {
        0 => Status::Going,
        1 => Status::Invalid,
        2 => Status::RecursedTooDeep,
        3 => Status::Full,
        n => Status::Other(n),
    }
}

#[tactic(auto, using(crate::proofs::NumberLaws::error_laws))]
fn error_of(status: Status) -> usize
    ensures error { if-then (eqb result 3) 0 result ≡ code_of status }
    ensures full { eqb result 3 ≡ filled status }
{
    match status {
        Status::Going => 0,
        Status::Invalid => 1,
        Status::RecursedTooDeep => 2,
        Status::Full => 3,
        Status::Other(n) => n.max(4),
    }
}

// Each state of four numbers is one of the printer's.
pub fn from_numbers(st: &[usize; 4]) -> State
    ensures { state_of result ≡ numbered st.now }
{
    State {
        place: st[0],
        status: status_of(st[1]),
        damaged: st[2] != 0,
        written: st[3],
    }
}

// And the other way round.
pub fn to_numbers(state: State) -> [usize; 4]
    ensures { numbered result ≡ state_of state }
{
    [
        state.place,
        error_of(state.status),
        usize::from(state.damaged),
        state.written,
    ]
}

// 0 prints nothing, 1 is plain, any other number short.
pub fn mode_of(mode: u8) -> Option<Mode>
    ensures { result ≡ mode_by mode }
{
    match mode {
        0 => None,
        1 => Some(Mode::Plain),
        _ => Some(Mode::Short),
    }
}
