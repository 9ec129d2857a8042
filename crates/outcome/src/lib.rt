// What goes out of a done event beside the record: the station after it, and its answer.
// Stays: kinds are numbers, and an answer has a number for none, as the C interface has them.
#![tactic(auto)]

ghost use Rattle.std.specs.Prelude.{◌≡◌};
ghost use Rattle.station.specs.Step.{answer_of, far_answer};
ghost use Rattle.outcome.specs.Outcome.{station_on, station_far};

use call::Effect;
use event::Event;
use remote::{Moved, Remote};
use station::{Answer, Station};

// The station after an event that is done on a record: "the one after it is next", "A done event makes its time the last time."
pub fn station_on(s: Station, e: Event, identifier: u16) -> Station
    ensures { result ≡ station_on s e identifier }
{
    let next = match e.kind {
        6 | 16..=19 => identifier::next_after(identifier),
        _ => s.next,
    };
    Station {
        last: e.time,
        next,
        ..s
    }
}

// The station after one that is done on what it holds, which is r then.
pub fn station_far(s: Station, e: Event, identifier: u16, r: Remote) -> Station
    ensures { result ≡ station_far s e identifier r }
{
    Station {
        remote: r,
        ..station_on(s, e, identifier)
    }
}

// What an event that is done on the record at i answers.
pub fn answer_of(i: u8, x: Effect) -> Answer
    ensures { result ≡ answer_of i x }
{
    Answer {
        code: 0,
        call: i,
        sent: x.sent,
        notice: x.notice,
        number: x.number,
        identifier: x.identifier,
        counter: x.counter,
    }
}

// What an event that is done on what the station holds answers.
pub fn far_answer(m: Moved) -> Answer
    ensures { result ≡ far_answer m }
{
    Answer {
        code: 0,
        call: 255,
        sent: message::one(m.message),
        notice: message::NO_NOTICE,
        number: 0,
        identifier: m.identifier,
        counter: 0,
    }
}
