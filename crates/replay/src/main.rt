// Reads lines `MODE ROOM HEX` and writes for each `CHECK SUFFIX PRINT LENGTH STATE KEPT TEXT`: what the check and the print of that
// symbol answer, in that mode and with that room. The Rust beside it (compare/) writes the same lines from the original.
#![tactic(auto)]

mod answer;
mod field;

use lines::answers::{Sends, answer_lines};
use lines::input::{Line, Readable};
use lines::output::Output;

fn main(rt: HostRuntime) {
    let mut line = Line::<262144>::new();
    let mut bytes = [0u8; 131072];
    let mut room = [0u8; 65536];
    let mut out = Output::new(rt.stdout());
    // Where the output cannot be written, there is nobody to tell.
    let _ = answer_lines(
        &mut Readable(rt.stdin()),
        &mut line,
        &mut out,
        Sends::WhenFull,
        |line, out| answer::line(line, &mut bytes, &mut room, out),
    );
}
