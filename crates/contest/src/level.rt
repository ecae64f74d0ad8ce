use crate::side::Side;

// What a layer shows of itself: how many contests below it each side has won, one by one as they are shown, and who has won by that.
#[derive(Clone, Copy, PartialEq, Eq, Debug)]
pub struct Level {
    pub a: u16,
    pub b: u16,
    pub winner: Option<Side>,
}
