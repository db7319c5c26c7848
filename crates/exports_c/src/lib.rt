// The archive for programs in C and Rust, which `include/vault.h` declares: each function is that of `exports`, under the same name and
// with the same promise.
#![tactic(auto)]

ghost use Rattle.std.specs.Prelude.{◌≡◌};
ghost use Rattle.demangle.specs.Rows.{number_of, suffix_from, row_of};
ghost use Rattle.exports.specs.Report.{mode_by, reported, given};

// The number of the check's answer.
#[unsafe(no_mangle)]
pub extern "C" fn vault_check(symbol: &[u8]) -> u32
    ensures { result ≡ number_of symbol.now }
{
    exports::vault_check(symbol)
}

// The place where the suffix starts: it goes on to the symbol's end.
#[unsafe(no_mangle)]
pub extern "C" fn vault_suffix(symbol: &[u8]) -> usize
    ensures { result ≡ suffix_from symbol.now }
{
    exports::vault_suffix(symbol)
}

// The number of the print's answer. The name is laid into the buffer; the report gets its length and its state: 0 unknown,
// 1 whole, 2 damaged.
#[unsafe(no_mangle)]
pub extern "C" fn vault_print(
    symbol: &[u8],
    mode: u32,
    buffer: &mut [u8],
    report: &mut [u64],
) -> u32
    ensures { reported result buffer.new report.new ≡ given report.old (row_of (mode_by mode) symbol.now buffer.old) }
{
    exports::vault_print(symbol, mode, buffer, report)
}
