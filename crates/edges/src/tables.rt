// Tables and stations of the host's, sound or not.
use crate::events::{
    answer, clock, divert, end, open_diverted, open_incoming, open_outgoing, reroute,
};
use crate::show::{Show, fresh, on, say};
use call::Call;
use notice::{Dli1, History};
use waits::Waits;

// "table empty, over 64 records"; the table's end is the board's length.
pub fn lengths(rt: HostRuntime) {
    say(rt, b"# lengths 0, 65, 64, 1\n");
    let mut s = fresh();
    s.board.len = 0;
    let mut s = on(rt, s, clock(1));
    s.board.len = 65;
    let mut s = on(rt, s, clock(1));
    s.board.len = 64;
    let mut s = on(rt, s, clock(1));
    s.board.len = 1;
    let s = on(rt, s, open_incoming(102, 2));
    let s = on(rt, s, open_incoming(102, 3));
    on(rt, s, end(1, 4));
}

// "limit outside 1 to 15"; the counters of kinds 3 and 12 are not held to the limit, that of a divert is.
pub fn limits(rt: HostRuntime) {
    say(rt, b"# limits 0, 16, 1\n");
    let mut s = fresh();
    s.board.station.limit = 0;
    let mut s = on(rt, s, clock(1));
    s.board.station.limit = 16;
    let mut s = on(rt, s, clock(1));
    s.board.station.limit = 1;
    let s = on(rt, s, open_diverted(102, 15, 2));
    let s = on(rt, s, divert(0, 3));
    let s = on(rt, s, open_incoming(102, 4));
    let s = on(rt, s, divert(1, 5));
    let s = on(rt, s, open_outgoing(101, 6));
    on(rt, s, reroute(2, 15, 7));
}

// Document 02, Four: the short form has limit 5, so that a divert sends counter 5 at most.
pub fn short_form(rt: HostRuntime) {
    say(rt, b"# the short form\n");
    let mut s = fresh();
    let short = fresh::fresh_short();
    s.board.station.limit = short.limit;
    let s = on(rt, s, open_diverted(102, 4, 1));
    let s = on(rt, s, divert(0, 2));
    let s = on(rt, s, open_diverted(102, 5, 3));
    on(rt, s, divert(1, 4));
}

// Document 02, Three: a next identifier 0 and an open request with 0 are 1, whatever the event is; with next 1 the station is sound.
pub fn zeros(rt: HostRuntime) {
    say(rt, b"# identifier 0, kept\n");
    let mut s = fresh();
    s.board.station.next = 0;
    let s = on(rt, s, clock(1));
    let mut s = on(rt, s, open_incoming(102, 1));
    s.board.station.next = 1;
    let s = on(rt, s, clock(1));
    let s = on(rt, s, open_incoming(102, 2));
    on(rt, s, divert(0, 3));
    let c = Call {
        identifier: 0,
        ..asked()
    };
    ticked(rt, c, 5);
}

fn fresh_code(rt: HostRuntime, limit: u8, mark: u8) {
    let made = fresh::fresh(limit, mark, mark);
    let code = made.code;
    let _ = println!(rt; "{code}");
}

// "3: .. a fresh station's limit outside 1 to 15 (no station is made)"; so is a mark above 1
pub fn fresh_codes(rt: HostRuntime) {
    say(rt, b"# fresh: 0, 1, 15, 16; with marks 0, 2\n");
    fresh_code(rt, 0, 1);
    fresh_code(rt, 1, 1);
    fresh_code(rt, 15, 1);
    fresh_code(rt, 16, 1);
    fresh_code(rt, 15, 0);
    fresh_code(rt, 15, 2);
}

// The board with a record of the host's in its first place, at the last time 10.
fn with(c: Call, position: u32) -> Show {
    let mut board = board::start();
    board.station.last = 10;
    board.calls[0] = c;
    Show { board, position }
}

fn ticked(rt: HostRuntime, c: Call, position: u32) {
    on(rt, with(c, position), clock(20000));
}

// Each record on a board of its own; their lines are numbered from 0.
fn all_ticked(rt: HostRuntime, records: &[Call]) {
    for (position, c) in (0..).zip(records) {
        ticked(rt, *c, position);
    }
}

fn outgoing() -> Call {
    Call {
        direction: 1,
        basic: 1,
        party: 101,
        ..blank::free_call()
    }
}

fn diverted() -> Call {
    let c = outgoing();
    Call {
        cdo: 1,
        history: History {
            seen: 1,
            nominated: 207,
            ..c.history
        },
        ..c
    }
}

fn incoming() -> Call {
    Call {
        direction: 2,
        basic: 1,
        own: 102,
        ..blank::free_call()
    }
}

fn asked() -> Call {
    Call {
        cds: 1,
        reason: 1,
        identifier: 7,
        start: 10,
        ..incoming()
    }
}

// A call with so many that wait behind the first.
fn counting(c: Call, count: u8) -> Call {
    Call {
        waiting: Waits { count, ..c.waiting },
        ..c
    }
}

// Each of these records makes its table not sound.
pub fn damaged_outgoing(rt: HostRuntime) {
    say(rt, b"# damaged, outgoing\n");
    let c = outgoing();
    let d = diverted();
    let party_alone = Call {
        party: 101,
        ..blank::free_call()
    };
    let direction = Call { direction: 3, ..c };
    let party = Call { party: 0, ..c };
    let basic = Call { basic: 4, ..c };
    let own = Call { own: 102, ..c };
    // nothing waits outside Invoked
    let waits = counting(c, 1);
    let over = Call { basic: 3, ..d };
    let shown = History {
        shown: 2,
        ..d.history
    };
    let mark = Call {
        history: shown,
        ..d
    };
    all_ticked(
        rt,
        &[party_alone, direction, party, basic, own, waits, over, mark],
    );
}

// In Invoked, with two that wait.
fn invoked() -> Call {
    Call {
        basic: 2,
        cdr: 1,
        waiting: with_second(queue::waits_for(waiting(3, 2, 301)), waiting(1, 0, 302)),
        ..outgoing()
    }
}

fn waiting(reason: u8, option: u8, number: u16) -> Dli1 {
    Dli1 {
        reason,
        option,
        number,
    }
}

fn with_second(w: Waits, d: Dli1) -> Waits {
    let mut v = Waits { count: 1, ..w };
    v.later[0] = d;
    v
}

// What waits in Invoked is sound, and each of these is not: a later one is cfnr, a place not used is not 0, more than 15 wait.
pub fn waiting_ones(rt: HostRuntime) {
    say(rt, b"# waiting\n");
    let c = invoked();
    let cfnr_later = Call {
        waiting: with_second(c.waiting, waiting(3, 2, 302)),
        ..c
    };
    all_ticked(rt, &[c, cfnr_later, counting(c, 0), counting(c, 15)]);
}

pub fn damaged_incoming(rt: HostRuntime) {
    say(rt, b"# damaged, incoming\n");
    let c = incoming();
    let a = asked();
    let diverting = Call {
        diverting: 103,
        ..c
    };
    let cdf = Call { cdf: 1, ..c };
    let identifier = Call { identifier: 7, ..c };
    let granted = Call { granted: 1, ..a };
    let reason = Call { reason: 3, ..a };
    // T1 is held against the last time, not the event's
    let start = Call { start: 11, ..a };
    all_ticked(rt, &[diverting, cdf, identifier, granted, reason, start]);
    // no two requests share an identifier
    let mut s = with(a, 6);
    s.board.calls[63] = a;
    on(rt, s, clock(20000));
}

// Each of these is sound: any mix of marks after a DLI1, a request that is due, CDF done outside Active with a plain CONNECT, a
// stored counter above the limit.
pub fn sound(rt: HostRuntime) {
    say(rt, b"# sound\n");
    let c = incoming();
    let d = diverted();
    let marks = History {
        strictest: 2,
        forbidden: 1,
        shown: 1,
        ..d.history
    };
    let marked = Call {
        history: marks,
        ..d
    };
    all_ticked(rt, &[outgoing(), marked, asked()]);
    let done = Call {
        basic: 2,
        cdf: 2,
        counter: 1,
        ..c
    };
    on(rt, with(done, 3), answer(0, 11));
    let above = Call {
        cdf: 1,
        counter: 15,
        ..c
    };
    let mut s = with(above, 4);
    s.board.station.limit = 3;
    on(rt, s, divert(0, 11));
}
