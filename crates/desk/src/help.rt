// What `--help` writes. The script `desk` shows it from here where nothing is built yet: all that stands between quotes, which it does
// not contain.
pub const TEXT: &[u8] = b"usage: desk [--short] < SYMBOLS
       desk --help

Reads Rust v0 symbols, one a line, and writes a line for each, with a tab
between two columns: ANSWER, NAME, SUFFIX, SYMBOL. No column is blank.
--short leaves crates' hashes and the types of integers out of the names.

ANSWER
  whole            accepted; NAME is the whole name
  damaged          accepted, but a part is broken: NAME is not whole
  NoRoom           accepted, but the name has more than 65536 bytes
  Invalid          refused: not a v0 symbol
  RecursedTooDeep  refused: nested more than 500 levels deep
  TooLong          refused: more than 4096 bytes

NAME    the name; (no name) where none is shown: every refusal, NoRoom;
        (empty name) where an accepted symbol's name has no bytes
SUFFIX  what stands behind the symbol's paths, as .llvm.1; or (no suffix)
SYMBOL  the line as it was read; or (empty line). A line of more than
        131072 bytes is TooLong, and its start is shown, behind the words
        (first 64 bytes of a longer line)

Only desk's own words, those above, start with a parenthesis. Else
  \\\\    is a backslash
  \\xNN  is the byte of that hex number: control bytes, a ( at the start,
        a blank at the start or the end, bytes from 80 up; but in a name
        characters from U+0080 up that can be seen stay, in UTF-8

A carriage return at a line's end belongs to the line end: it is dropped.
The last line needs no line end. Empty input gives empty output.

Exit code: 0, with refusals too; 1 where the input cannot be read or the
output cannot be written; 2 for an unknown option. The script sets it.
";
