// Many records in use.
use crate::events::{divert, end, open_incoming, reject};
use crate::show::{Show, fresh, on, quietly, say};
use event::Event;

// So many events without their lines, each made of its place.
fn all_quietly<F: Fn(u8) -> Event>(s: Show, calls: u8, event: F) -> Show
    requires { F.IsAlwaysCallable event }
{
    let mut t = s;
    for call in 0..calls {
        t = quietly(t, event(call));
    }
    t
}

// So many incoming calls, opened at time 1.
fn opened(s: Show, calls: u8) -> Show {
    all_quietly(s, calls, |_| open_incoming(102, 1))
}

// A request of each of the first calls, at time 1.
fn requested(s: Show, calls: u8) -> Show {
    all_quietly(s, calls, |call| divert(call, 1))
}

// "64 records all used, open is 8; one call ended, open takes its record"
pub fn all_used(rt: HostRuntime) {
    say(rt, b"# 64 records all used\n");
    let s = opened(fresh(), 64);
    let s = on(rt, s, open_incoming(102, 2));
    let s = on(rt, s, end(17, 3));
    let s = on(rt, s, open_incoming(102, 4));
    on(rt, s, open_incoming(102, 5));
}

// Identifiers 65516 to 65535 and 1 to 20 are open. The next one is set among them: it goes past all of them; after one request
// has ended, its identifier is the first that is free, and the one after it goes past the rest again.
pub fn wrapped(rt: HostRuntime) {
    say(rt, b"# the wrap, 40 requests\n");
    let mut s = opened(fresh(), 44);
    s.board.station.next = 65516;
    let mut s = requested(s, 40);
    s.board.station.next = 65520;
    let s = on(rt, s, divert(40, 2));
    let s = on(rt, s, divert(41, 3));
    let mut s = on(rt, s, reject(10, 65526, 4));
    s.board.station.next = 65516;
    let s = on(rt, s, divert(42, 5));
    on(rt, s, divert(43, 6));
}
