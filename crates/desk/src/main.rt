// The fault desk's reader: a symbol a line on standard input, and a line for each: the answer, the name, the suffix, the symbol. No
// column is ever blank (help.rt says how each is written). What goes wrong is told on standard error. The exit code is 0 in any case: the
// script `desk` makes one of what is told.
#![tactic(auto)]

mod answer;
mod chars;
mod column;
mod failure;
mod help;
mod options;

use demangle::print::Mode;
use lines::answers::{Failure, Sends, answer_lines};
use lines::input::Line;
use lines::output::Output;
use options::Wish;
use std::io;
use std::io::Write;

fn names(rt: &(impl Input + Print), mode: Mode) -> Result<(), Failure> {
    let mut line = Line::<131072>::new();
    let mut room = [0u8; 65536];
    let mut out = Output::new(io::writer(rt));
    answer_lines(
        &mut rt.reader(),
        &mut line,
        &mut out,
        Sends::EachRead,
        |line, out| answer::line(line, mode, &mut room, out),
    )
}

fn usage(rt: &impl Print) -> Result<(), Failure> {
    io::writer(rt).write_all(help::TEXT).map_err(Failure::Write)
}

fn main(rt: HostRuntime) {
    let done = match options::asked(&rt) {
        Ok(Wish::Names(mode)) => names(&rt, mode),
        Ok(Wish::Help) => usage(&rt),
        Err(i) => {
            // Where even that cannot be told, there is nobody to tell.
            let _ = options::unknown(&rt, &mut rt.stderr(), i);
            Ok(())
        }
    };
    if let Err(failure) = done {
        failure::tell(&rt, failure);
    }
}
