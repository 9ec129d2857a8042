// Many events, played in place: the table is tested once, then its driver plays one after the other.
#![tactic(auto)]

ghost use Rattle.std.specs.Prelude.{◌≡◌, true};
ghost use Rattle.board.specs.Board.{sound_board};
ghost use Rattle.runs.specs.Run.{run_board};

use board::Board;
use driver::Driver;

// What a run leaves; `cut` is the byte count of a cut last record.
#[repr(C)]
#[derive(Clone, Copy)]
pub struct Ran {
    pub done: u64,
    pub refused: u64,
    pub cut: usize,
    pub board: Board,
}

// The whole records, where the table was tested.
fn run_tested(b: Board, events: &[u8]) -> Ran
    requires { sound_board b ≡ true }
    ensures { result ≡ run_board b events.now }
{
    let mut driver = Driver::on(b);
    let mut done: u64 = 0;
    let mut refused: u64 = 0;
    for k in 0..events.len() / 24 {
        let e = wire::event_at(events, k * 24);
        match driver.play(e) {
            Ok(_) => done += 1,
            Err(_) => refused += 1,
        }
    }
    Ran {
        done: done,
        refused: refused,
        cut: events.len() % 24,
        board: driver.board(),
    }
}

// All whole records of a list of events, on any board.
pub fn run(b: Board, events: &[u8]) -> Ran
    ensures { result ≡ run_board b events.now }
{
    if board::sound_board(b) {
        run_tested(b, events)
    } else {
        let n = events.len() / 24;
        Ran {
            done: 0,
            refused: n as u64,
            cut: events.len() % 24,
            board: b,
        }
    }
}
