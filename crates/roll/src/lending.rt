ghost use Rattle.std.specs.Prelude.{◌≡◌, [], ◌++◌};
ghost use Rattle.roll.specs.Rolls.{pushed, used, room, answer};

use crate::{Full, Roll};

// Keeps one record in lent places by a roll that ends here: the lender then has the records of the roll, and after them its spare places.
pub fn keep_one<T: Copy>(places: &mut [T], item: T) -> Result<(), Full>
    ensures answer { result ≡ answer (room [] places.old) }
    ensures places { places.new ≡ pushed [] item (room [] places.old) ++ used places.old (room [] places.old) }
{
    let mut roll = Roll::new(places);
    roll.push(item)
}
