// Document 02, Seven: stations of the host's, with marks, kept destinations and pending requests.
use crate::events::{clock, remote_invoke};
use crate::show::{Show, fresh, on, say};
use board::Board;

// Without the marks an activation and a check get an error; with each its own gets a result.
pub fn marks(rt: HostRuntime) {
    say(rt, b"# marks not set\n");
    let mut s = fresh();
    s.board.station.remote.enabled = 0;
    s.board.station.remote.allowed = 0;
    let s = on(rt, s, remote_invoke(20, 1, 207, 0, 1));
    let s = on(rt, s, remote_invoke(22, 1, 0, 8, 2));
    let mut s = on(rt, s, remote_invoke(23, 0, 0, 9, 3));
    s.board.station.remote.enabled = 1;
    let s = on(rt, s, remote_invoke(20, 1, 207, 10, 4));
    let s = on(rt, s, remote_invoke(22, 1, 0, 11, 5));
    let mut s = on(rt, s, remote_invoke(23, 0, 0, 12, 6));
    s.board.station.remote.enabled = 0;
    s.board.station.remote.allowed = 1;
    let s = on(rt, s, remote_invoke(20, 2, 208, 13, 7));
    let s = on(rt, s, remote_invoke(23, 0, 0, 14, 8));
    on(rt, s, remote_invoke(21, 1, 0, 15, 9));
}

// A board whose station has an activation pending since 10 with identifier 7, at the last time 10.
fn waiting() -> Board {
    let mut b = board::start();
    b.station.last = 10;
    b.station.remote.pending.activation.wait = 1;
    b.station.remote.pending.activation.identifier = 7;
    b.station.remote.pending.activation.start = 10;
    b
}

fn ticked(rt: HostRuntime, board: Board, position: u32, time: u64) {
    on(rt, Show { board, position }, clock(time));
}

// T2 exactly, and what makes a station unsound.
pub fn pending_ones(rt: HostRuntime) {
    say(rt, b"# pending\n");
    ticked(rt, waiting(), 0, 30009);
    ticked(rt, waiting(), 1, 30010);
    let mut b = waiting();
    b.station.remote.pending.check.wait = 1;
    b.station.remote.pending.check.identifier = 7;
    b.station.remote.pending.check.start = 10;
    ticked(rt, b, 2, 20000);
    let mut b = waiting();
    b.station.remote.pending.activation.identifier = 0;
    ticked(rt, b, 3, 20000);
    let mut b = waiting();
    b.station.remote.pending.activation.start = 11;
    ticked(rt, b, 4, 20000);
    let mut b = waiting();
    b.station.remote.pending.activation.wait = 0;
    ticked(rt, b, 5, 20000);
    let mut b = waiting();
    b.station.remote.pending.interrogation.wait = 2;
    ticked(rt, b, 6, 20000);
    let mut b = waiting();
    b.station.remote.allowed = 2;
    ticked(rt, b, 7, 20000);
}

// A call's open request and a pending one share an identifier.
pub fn shared(rt: HostRuntime) {
    say(rt, b"# shared by a call\n");
    let mut b = waiting();
    b.calls[0].direction = 2;
    b.calls[0].basic = 1;
    b.calls[0].own = 102;
    b.calls[0].cds = 1;
    b.calls[0].reason = 1;
    b.calls[0].identifier = 8;
    b.calls[0].start = 10;
    ticked(rt, b, 0, 40000);
    b.calls[0].identifier = 7;
    ticked(rt, b, 1, 40000);
}
