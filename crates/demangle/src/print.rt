// A symbol's name, laid into a lent buffer.
ghost use Rattle.std.specs.Prelude.{◌≡◌};
ghost use Rattle.demangle.specs.Rows.{answer, shown, row_of};

use crate::judge::{LEVELS, judge};
use crate::refusal::Refusal;
pub use pieces::mode::Mode;
use printer::state::{Printer, Status};

// What was laid: how long it is, and whether it is whole, or else damaged. A length and no slice: the caller's buffer is its own again.
#[derive(Clone, Copy, Debug, PartialEq, Eq)]
pub struct Printed {
    pub length: usize,
    pub whole: bool,
}

// The first path's text.
#[tactic(auto, using(crate::proofs::RowLaws::text_laws))]
fn text(s: &[u8], mode: Mode, out: &mut [u8]) -> Result<Printed, Refusal>
    ensures { answer result out.new ≡ shown mode s.now out.old }
{
    let mut p = Printer::new(out, 0);
    p.path(s, true, LEVELS, 0, Some(mode));
    let length = p.st.written;
    match p.st.status {
        Status::Full => Err(Refusal::NoRoom),
        Status::Going => Ok(Printed {
            length,
            whole: !p.st.damaged,
        }),
        _ => Ok(Printed {
            length,
            whole: false,
        }),
    }
}

#[tactic(auto, using(crate::proofs::RowLaws::print_laws))]
pub fn print(symbol: &[u8], mode: Mode, out: &mut [u8]) -> Result<Printed, Refusal>
    ensures { answer result out.new ≡ row_of mode symbol.now out.old }
{
    let (k, _) = judge(symbol)?;
    text(&symbol[k..], mode, out)
}
