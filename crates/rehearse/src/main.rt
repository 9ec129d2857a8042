// Who will ring tonight: reads a plan as text from standard input and prints what its rehearsal says. Text that is no plan is told
// on standard error, with its line's number; a program has no exit status to tell it by.
#![tactic(auto)]

use plantext::Reading;
use std::io;
use std::io::Read;

// A line on standard error: what failed, and the system's words for it. The number that the library puts behind them stays away,
// but where there is no memory for a copy.
// Stays: `panelrun` has the same function, since no library crate has a heap, from which the system's words come.
fn tell(rt: HostRuntime, what: &str, error: io::Error) {
    let _ = match format!(in rt.alloc(); "{error}") {
        Ok(text) => match text.split_once(" (os error ") {
            Some((words, _)) => eprintln!(rt; "{what}: {words}"),
            None => eprintln!(rt; "{what}: {text}"),
        },
        Err(_) => eprintln!(rt; "{what}: {error}"),
    };
}

fn print_rehearsal(rt: HostRuntime, plan: &[u16], start: u16) {
    let mut lines = [0u8; 4096];
    let n = planlines::write_rehearsal(&mut lines, 0, plan, start);
    if let Err(error) = rt.write_all(&lines[..n]) {
        tell(rt, "rehearse: writing standard output", error);
    }
}

fn tell_fault(rt: HostRuntime, line: usize) {
    let mut text = [0u8; 64];
    let n = planlines::write_fault(&mut text, 0, line);
    let _ = rt.stderr().write_all(&text[..n]);
}

// At the end of the text.
fn conclude(rt: HostRuntime, r: Reading, plan: &mut [u16]) {
    let whole = planreading::finish(r, plan);
    if let Some(line) = whole.fault {
        tell_fault(rt, line);
        return;
    }
    let n = planends::numbers_lent(whole, plan.len());
    print_rehearsal(rt, &plan[..n], whole.start);
}

fn main(rt: HostRuntime) {
    let mut reading = planends::begin();
    // Room for 257 panels: with the last of them a plan is too long.
    let mut plan = [0; 1028];
    let mut input = [0; 65536];
    // A proved loop ends, and nothing says that the text does: more turns than any text takes.
    for _ in 0..4503599627370496u64 {
        match rt.stdin().read(&mut input) {
            Ok(0) => return conclude(rt, reading, &mut plan),
            Ok(count) => reading = planreading::read_piece(reading, &mut plan, &input[..count]),
            Err(error) => return tell(rt, "rehearse: reading standard input", error),
        }
    }
}
