// How a run holds its table: 64 records by value, of which the first `len` are the table. The one that a panel starts with, its test, and
// where an event acts on it, by what the run keeps beside it.
#![tactic(auto)]

ghost use Rattle.std.specs.Prelude.{◌≡◌, true};
ghost use Rattle.std.specs.Int.Count.{count_trailing_zeros};
ghost use Rattle.ground.specs.Lists.{first, all};
ghost use Rattle.expiry.specs.Expiry.{at_least, under};
ghost use Rattle.sight.specs.Sight.{place_of};
ghost use Rattle.board.specs.Board.{start_board, sound_board, within};

use call::Call;
use event::Event;
use station::Station;

// Stays: a length beside 64 places, since C hands it in by value and there is no heap.
#[repr(C)]
#[derive(Clone, Copy)]
pub struct Board {
    pub station: Station,
    pub len: usize,
    pub calls: [Call; 64],
}

// What a panel starts with: 64 free records and a fresh station of limit 15 with both marks.
pub fn start() -> Board
    ensures { result ≡ start_board }
{
    Board {
        station: fresh::fresh(15, 1, 1).station,
        len: 64,
        calls: [blank::free_call(); 64],
    }
}

// Table and station are sound: the test behind number 1.
pub fn sound_board(b: Board) -> bool
    ensures { result ≡ sound_board b }
{
    bounds::in_bounds(b.len, b.station)
        && table::sound_table(b.calls, b.len, b.station.last, b.station.remote.pending)
}

// Where an event acts; the column of due times is looked at for a clock event only.
pub fn place_on(e: Event, free: u64, soon: u64, dues: &[u64; 64]) -> usize
    requires { all (at_least soon) dues.now ≡ true }
    ensures { result ≡ place_of e (count_trailing_zeros 64 free) (first (under e.time) dues.now) }
{
    if e.kind == 10 {
        return expiry::due_at(dues, soon, e.time);
    }
    sight::place_of(e, bits::lowest(free), 64)
}

// The place, or 0 where the table has no such record: what is read there is not looked at.
pub fn within(place: usize, len: usize) -> usize
    ensures { result ≡ within place len }
{
    if place < len { place } else { 0 }
}
