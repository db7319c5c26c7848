// Why a symbol has no answer, and document 01's numbers for it.
ghost use Rattle.std.specs.Prelude.{◌≡◌, Some};
ghost use Rattle.demangle.specs.Rows.{refusal_number, refusal_name};

use std::fmt;

// The first three refuse the symbol; with the last the name is longer than the buffer.
#[derive(Clone, Copy, Debug, PartialEq, Eq)]
pub enum Refusal {
    Invalid,
    RecursedTooDeep,
    TooLong,
    NoRoom,
}

impl Refusal {
    // 1 to 4: 0 says that nothing was refused.
    #[tactic(auto, unfolding(crate::specs::Rows::refusal_number))]
    pub fn number(self) -> u32
        ensures { result ≡ refusal_number self }
    {
        match self {
            Refusal::Invalid => 1,
            Refusal::RecursedTooDeep => 2,
            Refusal::TooLong => 3,
            Refusal::NoRoom => 4,
        }
    }

    pub fn name(self) -> &'static str
        ensures { result.now ≡ refusal_name self }
    {
        match self {
            Refusal::Invalid => "Invalid",
            Refusal::RecursedTooDeep => "RecursedTooDeep",
            Refusal::TooLong => "TooLong",
            Refusal::NoRoom => "NoRoom",
        }
    }
}

impl fmt::Display for Refusal {
    ghost output = { λ r. Some (refusal_name r) };

    fn fmt<W: fmt::Write>(&self, f: &mut fmt::Formatter<W>) -> fmt::Result {
        f.write_str(self.name())
    }
}
