// Bytes laid at the front of a lent buffer. Each writer is lent the free rest and answers how much of it it took: document 01's form, and so
// no struct of a buffer and a count.
ghost use Rattle.std.specs.Prelude.{◌≡◌, [], ◌∷◌, ◌++◌};
ghost use Rattle.pieces.specs.Laid.{Wrote};
ghost use Rattle.pieces.specs.Packed.{bytes_of};
ghost use Rattle.pieces.specs.Names.{dashed, abi_text};

// The buffer was too short for a text; it is full of the text's first bytes.
#[derive(Clone, Copy, Debug, PartialEq, Eq)]
pub struct NoRoom;

// What a writer answers: how many bytes it wrote.
pub type Put = Result<usize, NoRoom>;

// A run of bytes. Byte by byte, since the library's copy needs memcpy, which the archive for C is to do without.
pub fn put_run(out: &mut [u8], run: &[u8]) -> Put
    ensures { Wrote run.now out.old out.new result }
{
    for (i, b) in run.iter().enumerate() {
        if i >= out.len() {
            return Err(NoRoom);
        }
        out[i] = *b;
    }
    Ok(run.len())
}

// One byte.
pub fn put_byte(out: &mut [u8], b: u8) -> Put
    ensures { Wrote (b ∷ []) out.old out.new result }
{
    if out.len() == 0 {
        return Err(NoRoom);
    }
    out[0] = b;
    Ok(1)
}

// The bytes of a run with one more behind them. This and the others that write two parts differ in the writers that they call: one function
// over two closures would hand each the rest of the buffer by a call more, and be no shorter where it is used.
pub(crate) fn put_run_end(out: &mut [u8], run: &[u8], end: u8) -> Put
    ensures { Wrote (run.now ++ (end ∷ [])) out.old out.new result }
{
    let a = put_run(out, run)?;
    let k = put_byte(&mut out[a..], end)?;
    Ok(a + k)
}

// The bytes of a number of base 256, the lowest first, without those at the top that are 0: a short text that needs no memory.
// Each byte by its place, `v >> (8 * i)`, would need no `left`, but LLVM makes vectors of that loop, which triples the time of a word.
pub(crate) fn put_packed(out: &mut [u8], v: u64) -> Put
    ensures { Wrote (bytes_of v) out.old out.new result }
{
    let mut left = v;
    for i in 0..8 {
        if left == 0 {
            return Ok(i);
        }
        if i >= out.len() {
            return Err(NoRoom);
        }
        out[i] = (left % 256) as u8;
        left /= 256;
    }
    Ok(8)
}

// The bytes of an ABI's name, with `-` for `_`.
pub fn put_abi(out: &mut [u8], run: &[u8]) -> Put
    ensures { Wrote (abi_text run.now) out.old out.new result }
{
    for (i, b) in run.iter().enumerate() {
        if i >= out.len() {
            return Err(NoRoom);
        }
        out[i] = dashed(*b);
    }
    Ok(run.len())
}

#[tactic(auto, using(crate::proofs::WritingLaws::dash_laws))]
fn dashed(b: u8) -> u8
    ensures { result ≡ dashed b }
{
    if b == b'_' { b'-' } else { b }
}
