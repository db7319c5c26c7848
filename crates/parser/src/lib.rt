// Readers of a symbol's bytes: the Rust's `Parser` (port order 1 and 2). Each takes the symbol and a place, any place, and
// answers what stands there with the next place, or `None`, which is Invalid. Nothing here prints, counts levels or follows.
// Symbol and place stay two parameters, and no struct that reads on: each promise is of a symbol and any place, as the grammar's definitions
// are (docs/PROMISES.md, "parser"), and document 01 has a reading answer a value with the next place.
#![tactic(auto)]

pub mod bytes;
pub mod names;
pub mod number;
pub mod scalar;
