// The panel: a piece of the input played into a piece of the printout.
#![tactic(auto)]

ghost use Rattle.std.specs.Prelude.{◌≡◌, true, ◌+◌, ◌/◌, ◌^◌, ◌<◌, length};
ghost use Rattle.board.specs.Board.{sound_board};
ghost use Rattle.panel.specs.Play.{Plays};

use board::Board;
use driver::Driver;

#[repr(C)]
#[derive(Clone, Copy)]
pub struct Played {
    pub board: Board,
    pub position: u64,
    pub used: usize,
    pub written: usize,
}

// Plays the records of a piece that are whole, as far as there is room for their lines.
pub fn play(b: Board, position: u64, bytes: &[u8], out: &mut [u8]) -> Played
    requires { (sound_board b ≡ true) × (position + length bytes.now / 24 < 2 ^ 64) }
    ensures { Plays b position bytes.now out.old out.new result }
{
    let n = (bytes.len() / 24).min(out.len() / 96);
    let mut driver = Driver::on(b);
    let mut at: usize = 0;
    for k in 0..n {
        let e = wire::event_at(bytes, k * 24);
        let answer = driver
            .play(e)
            .unwrap_or_else(|r| fresh::empty_answer(r.number()));
        at = printout::write_line(out, at, position + k as u64, answer);
    }
    Played {
        board: driver.board(),
        position: position + n as u64,
        used: n * 24,
        written: at,
    }
}
