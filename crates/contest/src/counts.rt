// How many contests below each side has won.
#[derive(Clone, Copy, PartialEq, Eq, Debug, Default)]
pub struct Counts {
    pub a: u16,
    pub b: u16,
}
