// Unicode scalar values: what `char::from_u32` takes.
ghost use Rattle.std.specs.Prelude.{◌≡◌};
ghost use Rattle.parser.specs.Scalar.{is_scalar};

#[tactic(auto, using(crate::proofs::ScalarLaws::scalar_laws))]
pub fn is_scalar(v: u64) -> bool
    ensures { result ≡ is_scalar v }
{
    matches!(v, 0..=0xd7ff | 0xe000..=0x10_ffff)
}
