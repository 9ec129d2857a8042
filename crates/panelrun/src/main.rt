// The panel printout: reads event records from standard input and prints a line each.
#![tactic(auto)]

ghost use Rattle.std.specs.Prelude.{◌≡◌, true, ◌+◌, ◌^◌, ◌<◌, IfSome};
ghost use Rattle.board.specs.Board.{sound_board};
ghost use Rattle.panelrun.specs.Between.{Between};

use board::Board;
use std::io;
use std::io::Read;

// What goes from turn to turn. The bytes held are those of a record that the next piece completes.
// Stays: a count of bytes held beside a buffer of fixed length, since memory is fixed here too.
#[derive(Clone, Copy)]
pub struct Run {
    board: Board,
    position: u64,
    held: usize,
}

// A line on standard error: what failed, and the system's words for it. The number that the library puts behind them stays away,
// but where there is no memory for a copy.
// Stays: `rehearse` has the same function, since no library crate has a heap, from which the system's words come.
fn tell(rt: HostRuntime, what: &str, error: io::Error) {
    let _ = match format!(in rt.alloc(); "{error}") {
        Ok(text) => match text.split_once(" (os error ") {
            Some((words, _)) => eprintln!(rt; "{what}: {words}"),
            None => eprintln!(rt; "{what}: {text}"),
        },
        Err(_) => eprintln!(rt; "{what}: {error}"),
    };
}

// Whether the lines were written; that they were not is told.
fn print(rt: HostRuntime, lines: &[u8]) -> bool {
    match rt.write_all(lines) {
        Ok(()) => true,
        Err(error) => {
            tell(rt, "panelrun: writing standard output", error);
            false
        }
    }
}

// The line of a cut last record.
fn print_cut(rt: HostRuntime, count: usize) {
    let mut line = [0u8; 32];
    let n = printout::write_cut(&mut line, 0, count);
    print(rt, &line[..n]);
}

// Reads a piece, plays it and writes its lines; nothing where no turn follows, at the end of the input or after a failure.
fn turn(
    rt: HostRuntime,
    run: Run,
    input: &mut [u8; 65536],
    output: &mut [u8; 262144],
) -> Option<Run>
    requires { (sound_board run.board ≡ true) × (run.position + 2730 < 2 ^ 64) × (run.held < 24) }
    ensures { IfSome result (Between run.position) }
{
    let end = match rt.stdin().read(&mut input[run.held..]) {
        Ok(0) => {
            if run.held > 0 {
                print_cut(rt, run.held);
            }
            return None;
        }
        Ok(count) => run.held + count,
        Err(error) => {
            tell(rt, "panelrun: reading standard input", error);
            return None;
        }
    };
    let played = panel::play(run.board, run.position, &input[..end], output);
    if !print(rt, &output[..played.written]) {
        return None;
    }
    let held = end - played.used;
    ground::carry(input, played.used, held);
    Some(Run {
        board: played.board,
        position: played.position,
        held,
    })
}

#[tactic(auto, using(board::proofs::Kept::start_sound))]
fn main(rt: HostRuntime) {
    let mut run = Run {
        board: board::start(),
        position: 0,
        held: 0,
    };
    let mut input = [0; 65536];
    // Room for the lines of a whole piece of input: 96 bytes for each of 2,730 records.
    let mut output = [0; 262144];
    // A proved loop ends, and nothing says that the input does: more turns than any run takes.
    for _ in 0..4503599627370496u64 {
        let Some(next) = turn(rt, run, &mut input, &mut output) else {
            return;
        };
        run = next;
    }
}
