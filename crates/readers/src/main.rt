// Reads lines `PLACE HEX` and writes for each what every reader answers at that place of those bytes: fifteen fields, `!` for
// Invalid. The Rust beside it (compare/) writes the same lines from the original's own readers.
#![tactic(auto)]

mod answer;
mod field;

use lines::answers::{Sends, answer_lines};
use lines::input::{Line, Readable};
use lines::output::Output;

fn main(rt: HostRuntime) {
    let mut line = Line::<16384>::new();
    let mut room = [0u8; 8192];
    let mut out = Output::new(rt.stdout());
    // Where the output cannot be written, there is nobody to tell.
    let _ = answer_lines(
        &mut Readable(rt.stdin()),
        &mut line,
        &mut out,
        Sends::WhenFull,
        |line, out| answer::line(line, &mut room, out),
    );
}
