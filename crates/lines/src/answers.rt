// Reads lines and has each answered.
use crate::input::Line;
use crate::output::Output;
use std::io;
use std::io::{Read, Write};

// Why not all of the input was answered.
#[derive(Drop)]
pub enum Failure {
    Read(io::Error),
    Write(io::Error),
}

// When answers are written: what was read is answered before more is waited for, so that whoever types a line sees its answer; or only
// where the buffer is full and at the end, so that a caller may write many lines before it reads.
#[derive(Clone, Copy, Debug, PartialEq, Eq)]
pub enum Sends {
    EachRead,
    WhenFull,
}

// Has each line answered: a last one with no line end, too, unless nothing stands there or the input cannot be read to its end, since half
// a line asks something else.
pub fn answer_lines<
    R: Read,
    W: Write,
    const N: usize,
    F: FnMut(Result<&[u8], &[u8]>, &mut Output<W>) -> io::Result<()>,
>(
    input: &mut R,
    line: &mut Line<N>,
    out: &mut Output<W>,
    sends: Sends,
    mut answer: F,
) -> Result<(), Failure>
    requires { F.IsAlwaysCallable answer }
{
    let mut chunk = [0u8; 65536];
    // A proved loop ends, and nothing says that the input does: no run uses up the turns.
    for _ in 0..u64::MAX {
        let n = input.read(&mut chunk).map_err(Failure::Read)?;
        if n == 0 {
            break;
        }
        for b in &chunk[..n] {
            if *b == b'\n' {
                answer(line.text(), out).map_err(Failure::Write)?;
                line.clear();
            } else {
                line.push(*b);
            }
        }
        if sends == Sends::EachRead {
            out.flush().map_err(Failure::Write)?;
        }
    }
    if !line.is_empty() {
        answer(line.text(), out).map_err(Failure::Write)?;
    }
    out.flush().map_err(Failure::Write)
}
