// A board whose events are shown, a line each.
ghost use Rattle.std.specs.Prelude.{◌≡◌, ◌+◌, ◌^◌, ◌<◌, ◌≤◌, length};

use board::Board;
use event::Event;

// The board and the position of its next line.
#[derive(Clone, Copy)]
pub struct Show {
    pub board: Board,
    pub position: u32,
}

// The board after an event, and how many bytes its line has.
#[derive(Clone, Copy)]
struct Lined {
    board: Board,
    written: usize,
}

// What could not be written is missed where the output is compared.
pub fn say(rt: HostRuntime, label: &[u8]) {
    let _ = rt.write_all(label);
}

// 64 free records and a fresh station of limit 15.
pub fn fresh() -> Show {
    Show {
        board: board::start(),
        position: 0,
    }
}

// The event's record, big-endian.
fn bytes_of(e: Event) -> [u8; 24] {
    let mut bytes = [0; 24];
    bytes[..8].copy_from_slice(&[
        e.kind, e.call, e.leg, e.message, e.reason, e.option, e.counter, e.flag,
    ]);
    bytes[8..10].copy_from_slice(&e.identifier.to_be_bytes());
    bytes[10..12].copy_from_slice(&e.first.to_be_bytes());
    bytes[12..14].copy_from_slice(&e.second.to_be_bytes());
    bytes[14..16].copy_from_slice(&e.third.to_be_bytes());
    bytes[16..].copy_from_slice(&e.time.to_be_bytes());
    bytes
}

// The board after one event, whose line is written to the buffer's start. The printing run takes sound boards only, so that any
// other is refused here, as the page has it: 1, and nothing changes.
fn one_line(board: Board, position: u64, e: Event, line: &mut [u8]) -> Lined
    requires { (position + 1 < 2 ^ 64) × (length line.old ≡ 96) }
    ensures { result.written ≤ 96 }
{
    if board::sound_board(board) {
        let played = panel::play(board, position, &bytes_of(e), line);
        return Lined {
            board: played.board,
            written: played.written,
        };
    }
    let written = printout::write_line(line, 0, position, fresh::empty_answer(1));
    Lined { board, written }
}

// One event and its line.
pub fn on(rt: HostRuntime, s: Show, e: Event) -> Show {
    let mut line = [0u8; 96];
    let x = one_line(s.board, s.position as u64, e, &mut line);
    say(rt, &line[..x.written]);
    Show {
        board: x.board,
        position: s.position.wrapping_add(1),
    }
}

// One event without its line.
pub fn quietly(s: Show, e: Event) -> Show {
    let mut line = [0u8; 96];
    let x = one_line(s.board, 0, e, &mut line);
    Show {
        board: x.board,
        ..s
    }
}
