use contest::side::Side;

// A level that was won: its depth, the two counts and the winner.
#[derive(Clone, Copy)]
pub struct Closing {
    pub depth: u16,
    pub a: u16,
    pub b: u16,
    pub winner: Side,
}
