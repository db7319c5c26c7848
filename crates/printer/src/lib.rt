// The printer: the Rust's `Printer` (port order 6). The state that is lent to it, the leaves that read and print, and the cycle.
#![tactic(auto)]

pub mod cycle;
pub mod kinds;
pub mod leaf;
pub mod numbers;
pub mod read;
pub mod state;
pub mod text;
