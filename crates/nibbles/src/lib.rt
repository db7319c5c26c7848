// Hex nibbles, as a symbol's constants have them: the Rust's `HexNibbles` (port order 4). Their value, and the text that they spell.
#![tactic(auto)]

pub mod text;
pub mod uint;
