// The kinds of part that are handed on as a value.
ghost use Rattle.std.specs.Prelude.{◌≡◌};
ghost use Rattle.parser.specs.Digits.{if-then};

// Both are matched and hold no function: document 01 has a named function for each use of the Rust's closures.
// What a back reference may lead to. A path in a value has `::` before its generics, a constant in a value no braces.
#[derive(Clone, Copy, Debug, PartialEq, Eq)]
pub enum Kind {
    Path,
    Value,
    Ty,
    Const,
    Expr,
}

// What stands in a list.
#[derive(Clone, Copy, Debug, PartialEq, Eq)]
pub enum Item {
    Ty,
    Arg,
    Expr,
    Field,
    Trait,
}

// One of two values, by a test.
#[tactic(auto, using(crate::proofs::CycleLaws::choose_laws))]
pub fn choose<T: Copy>(test: bool, yes: T, no: T) -> T
    ensures { result ≡ if-then test yes no }
{
    if test { yes } else { no }
}
