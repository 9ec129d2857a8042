// What a station starts with, and the answer that has a number alone.
#![tactic(auto)]

ghost use Rattle.std.specs.Prelude.{◌≡◌};
ghost use Rattle.station.specs.Station.{fresh_station, fresh_of, short_form, empty_answer};

use station::{Answer, Made, Station};

// "Fresh means last time 0, next identifier 65,535."
fn fresh_station(limit: u8, enabled: u8, allowed: u8) -> Station
    ensures { result ≡ fresh_station limit enabled allowed }
{
    Station {
        last: 0,
        next: 65535,
        limit,
        remote: remote::fresh(enabled, allowed),
    }
}

pub fn fresh(limit: u8, enabled: u8, allowed: u8) -> Made
    ensures { result ≡ fresh_of limit enabled allowed }
{
    if (1 <= limit) & (limit <= 15) & (enabled <= 1) & (allowed <= 1) {
        Made {
            code: 0,
            station: fresh_station(limit, enabled, allowed),
        }
    } else {
        Made {
            code: 3,
            station: Station::default(),
        }
    }
}

// The short form of a fresh station.
pub fn fresh_short() -> Station
    ensures { result ≡ short_form }
{
    fresh_station(5, 1, 1)
}

// A number and otherwise empty.
pub fn empty_answer(code: u8) -> Answer
    ensures { result ≡ empty_answer code }
{
    Answer {
        code,
        call: 255,
        sent: blank::no_messages(),
        notice: 255,
        number: 0,
        identifier: 65536,
        counter: 0,
    }
}
