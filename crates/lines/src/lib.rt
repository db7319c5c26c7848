// What the line programs share: a line collected byte by byte, its fields, output gathered before it is written, and the loop that reads
// lines and has each answered.
#![tactic(auto)]

pub mod answers;
pub mod input;
pub mod output;
