// The program's arguments.
ghost use Rattle.std.specs.Prelude.{◌≤◌, length, IfSome};

use demangle::print::Mode;
use lines::output::Output;
use std::env::FillError;
use std::io;
use std::io::Write;
use std::rt::Env;

// What the arguments ask for: names, in a mode, or the usage. (An Option would hide that its None is a wish, too.)
#[derive(Clone, Copy, Debug, Drop, PartialEq, Eq)]
pub enum Wish {
    Names(Mode),
    Help,
}

// An argument, by its number, put into a buffer; none behind the last. One that is longer than the buffer comes as an empty one.
fn argument<'a>(rt: &impl Env, i: usize, text: &'a mut [u8]) -> Option<&'a [u8]>
    ensures { IfSome result (λ s. length s.now ≤ length text.old) }
{
    match rt.arg(i, text) {
        Ok(n) => Some(&text[..n]),
        Err(FillError::TooLong) => Some(b""),
        Err(FillError::NotPresent) => None,
    }
}

// The arguments in turn, to the first that decides; the number of one that is unknown is the error. By their numbers, since the iterator
// `env::args` takes memory.
pub fn asked(rt: &impl Env) -> Result<Wish, usize> {
    let mut text = [0u8; 4096];
    let mut mode = Mode::Plain;
    for i in 1..usize::MAX {
        match argument(rt, i, &mut text) {
            Some(b"--short") => mode = Mode::Short,
            Some(b"--help") => return Ok(Wish::Help),
            Some(_) => return Err(i),
            None => break,
        }
    }
    Ok(Wish::Names(mode))
}

// Names an argument that is unknown, where errors are told.
pub fn unknown(rt: &impl Env, to: &mut impl Write, i: usize) -> io::Result<()> {
    let mut text = [0u8; 4096];
    let word = argument(rt, i, &mut text).unwrap_or(b"");
    let mut out = Output::new(to);
    out.write_all(b"desk: unknown option: ")?;
    crate::column::text(word, "(an empty word, or a very long one)", &mut out)?;
    out.write_all(b"\ndesk: --help shows the use\n")?;
    out.flush()
}
