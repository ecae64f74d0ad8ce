// Records of one kind, kept in places that the caller lends.
#![tactic(auto)]

ghost use Rattle.std.specs.Prelude.{◌≤◌, length};

pub mod fault;
pub mod lending;
pub mod records;

// The refusal of a record: the roll has no free place.
#[derive(Clone, Copy, PartialEq, Eq, Debug)]
pub struct Full;

// The first `count` places hold the records, in the order in which they came; the others are spare.
// The places are lent, since nothing here may allocate. There is no model: it would hide the reference, and a lender whose roll has ended
// would not learn what its places hold.
#[derive(Drop)]
pub struct Roll<'a, T> {
    places: &'a mut [T],
    count: usize,
    ghost within: { count ≤ length places.now },
    ghost few: { count ≤ 30000 },
}
