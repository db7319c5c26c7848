// The desk for programs in C and Rust, by numbers: `exports_c` makes the archive of these functions, `include/vault.h` declares them.
// Each takes any bytes, any mode and any buffers, empty ones too.
#![tactic(auto)]

ghost use Rattle.std.specs.Prelude.{◌≡◌, Err, [], ◌∷◌};
ghost use Rattle.printer.specs.Over.{over};
ghost use Rattle.demangle.specs.Rows.{answer, number_of, suffix_from, row_of};
ghost use Rattle.exports.specs.Report.{mode_by, state_by, reported, given};

use demangle::check::{check, start};
use demangle::print::{Mode, print};
use demangle::refusal::Refusal;

// Document 01's number of the check's answer.
#[tactic(auto, using(crate::proofs::ReportLaws::check_laws))]
pub fn vault_check(symbol: &[u8]) -> u32
    ensures { result ≡ number_of symbol.now }
{
    match check(symbol) {
        Ok(()) => 0,
        Err(refusal) => refusal.number(),
    }
}

// The place where the suffix starts: it goes on to the symbol's end.
pub fn vault_suffix(symbol: &[u8]) -> usize
    ensures { result ≡ suffix_from symbol.now }
{
    start(symbol)
}

// 0 is plain, any other number short.
#[tactic(auto, using(crate::proofs::ReportLaws::mode_laws))]
fn mode_of(mode: u32) -> Mode
    ensures { result ≡ mode_by mode }
{
    if mode == 0 { Mode::Plain } else { Mode::Short }
}

// 1 is whole, 2 damaged.
#[tactic(auto, using(crate::proofs::ReportLaws::state_laws))]
fn state_of(whole: bool) -> u64
    ensures { result ≡ state_by whole }
{
    if whole { 1 } else { 2 }
}

// Where the name is longer than the buffer, the buffer's own length; else 0.
#[tactic(auto, using(crate::proofs::ReportLaws::length_laws))]
fn length_of(refusal: Refusal, buffer: &[u8]) -> usize
    ensures { result ≡ (answer (Err refusal) buffer.now).length }
{
    match refusal {
        Refusal::NoRoom => buffer.len(),
        _ => 0,
    }
}

// A number of the report, where it has room: C may lend fewer than two, and so no array of two and no copy of it.
#[tactic(auto, using(crate::proofs::ReportLaws::put_laws))]
fn put(report: &mut [u64], i: usize, v: u64)
    ensures { report.new ≡ over report.old i (v ∷ []) }
{
    if i < report.len() {
        report[i] = v;
    }
}

// The length and the state.
#[tactic(auto, using(crate::proofs::ReportLaws::tell_laws))]
fn tell(report: &mut [u64], length: u64, state: u64)
    ensures { report.new ≡ over report.old 0 (length ∷ state ∷ []) }
{
    put(report, 0, length);
    put(report, 1, state);
}

// Document 01's number of the print's answer. The name is laid into the buffer; the report gets its length and its state: 0 unknown,
// 1 whole, 2 damaged.
#[tactic(auto, using(crate::proofs::ReportLaws::print_laws))]
pub fn vault_print(symbol: &[u8], mode: u32, buffer: &mut [u8], report: &mut [u64]) -> u32
    ensures { reported result buffer.new report.new ≡ given report.old (row_of (mode_by mode) symbol.now buffer.old) }
{
    match print(symbol, mode_of(mode), buffer) {
        Ok(name) => {
            tell(report, name.length as u64, state_of(name.whole));
            0
        }
        Err(refusal) => {
            tell(report, length_of(refusal, buffer) as u64, 0);
            refusal.number()
        }
    }
}
