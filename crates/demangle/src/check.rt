// Whether a symbol is accepted, and what is left of it.
ghost use Rattle.std.specs.Prelude.{◌≡◌, ◌≢◌, Err};
ghost use Rattle.demangle.specs.Rows.{check_number, number_of, suffix_from};
ghost use Rattle.demangle.specs.Part.{TailOf};

use crate::judge::judge;
use crate::refusal::Refusal;

#[tactic(auto, using(crate::proofs::RowLaws::check_laws))]
pub fn check(symbol: &[u8]) -> Result<(), Refusal>
    ensures number { check_number result ≡ number_of symbol.now }
    ensures room { result ≢ Err Refusal.NoRoom }
{
    judge(symbol)?;
    Ok(())
}

// Where the suffix starts: behind what was read, or with a refusal at the symbol's end.
#[tactic(auto, using(crate::proofs::RowLaws::start_laws))]
pub fn start(symbol: &[u8]) -> usize
    ensures { result ≡ suffix_from symbol.now }
{
    match judge(symbol) {
        Ok((k, place)) => k + place,
        Err(_) => symbol.len(),
    }
}

// The suffix: a part of the caller's own bytes.
#[tactic(auto, using(crate::proofs::RowLaws::suffix_laws))]
pub fn suffix(symbol: &[u8]) -> &[u8]
    ensures { TailOf symbol.entry (suffix_from symbol.now) result }
{
    let from = start(symbol);
    &symbol[from..]
}
