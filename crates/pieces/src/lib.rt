// The pieces of a printed text, each laid at the front of a lent buffer (port order 5).
// Most writers are proved by answers, a search of their laws at each goal, and not by `using`: what they promise, `Wrote`, is a record, which
// the tactic behind `using` takes apart (tried: it closes none of them). For the same search `as` stays in three functions where it only
// widens: with `From`, which is a call, it finds no proof (tried).
#![tactic(auto)]

pub mod basic;
pub mod mode;
pub mod names;
pub mod numbers;
pub mod put;
pub mod quoted;
pub mod words;
