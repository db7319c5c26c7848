// RFC 3492's parameters (section 5), and the limits.
pub const BASE: u64 = 36;

pub const T_MIN: u64 = 1;

pub const T_MAX: u64 = 26;

pub const SKEW: u64 = 38;

pub const DAMP: u64 = 700;

pub const INITIAL_BIAS: u64 = 72;

pub const INITIAL_N: u64 = 128;

// So many characters at most (document 01).
pub const MOST: usize = 128;

// A delta as large as this is never a character's, and is not read on: so nothing wraps.
pub const LIMIT: u64 = 0x1_0000_0000;
