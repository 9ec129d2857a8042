// "11 own side ends the call": what goes out on its legs, of a call of either direction.
// Stays: the codes of a record are numbers, as the C interface has them.
#![tactic(auto)]

ghost use Rattle.std.specs.Prelude.{◌≡◌};
ghost use Rattle.call.specs.Act.{ended};

use call::{Call, Effect};

// "11 sends RELEASE COMPLETE, .. the record is free and its request ended"; in Invoked on leg 2 too
pub fn ended(c: Call) -> Effect
    ensures { result ≡ ended c }
{
    let free = blank::free_call();
    let first = message::bare(b'X', 1);
    if c.cdr == 1 {
        let second = message::bare(b'X', 2);
        message::sending(free, message::two(first, second))
    } else {
        message::sending(free, message::one(first))
    }
}
