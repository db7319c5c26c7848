// The desk: what customers call (port order 7). `check` says whether a symbol is accepted, `suffix` hands back what is left of it,
// `print` lays its name into a lent buffer. Each takes any bytes.
#![tactic(auto)]

pub mod check;
pub mod judge;
pub mod print;
pub mod refusal;
