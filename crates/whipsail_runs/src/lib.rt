// What a host links for many events at once. A crate of its own, so a compiled module of its own: the compiler puts a
// decision into the loop where that is its one caller in the module.
#![tactic(auto)]

ghost use Rattle.std.specs.Prelude.{◌≡◌, ℕ};
ghost use Rattle.runs.specs.Run.{run_board};

use board::Board;
use runs::Ran;

// All whole records of 24 bytes, one after the other, on any board.
#[unsafe(no_mangle)]
pub extern "C" fn whipsail_run(b: Board, events: &[u8]) -> Ran
    ensures { result ≡ run_board b events.now }
{
    runs::run(b, events)
}
