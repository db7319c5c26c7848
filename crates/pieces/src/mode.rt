// How much of a name is shown: all of it, or all but the numbers of crates and the types of integers.
#[derive(Clone, Copy, Debug, PartialEq, Eq)]
pub enum Mode {
    Plain,
    Short,
}
