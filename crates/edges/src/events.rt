// Events by their kinds; a field that a kind doesn't use is 0.
use event::Event;

pub fn open_outgoing(party: u16, time: u64) -> Event {
    Event {
        kind: 1,
        first: party,
        time,
        ..Event::default()
    }
}

pub fn open_incoming(own: u16, time: u64) -> Event {
    Event {
        kind: 2,
        first: own,
        time,
        ..Event::default()
    }
}

pub fn open_diverted(own: u16, counter: u8, time: u64) -> Event {
    Event {
        kind: 3,
        first: own,
        reason: 1,
        counter,
        time,
        ..Event::default()
    }
}

pub fn answer(call: u8, time: u64) -> Event {
    Event {
        kind: 5,
        call,
        time,
        ..Event::default()
    }
}

// With cfu, option 0.
pub fn divert(call: u8, time: u64) -> Event {
    Event {
        kind: 6,
        call,
        reason: 1,
        second: 300,
        time,
        ..Event::default()
    }
}

pub fn reject(call: u8, identifier: u16, time: u64) -> Event {
    Event {
        kind: 8,
        call,
        identifier,
        time,
        ..Event::default()
    }
}

pub fn clock(time: u64) -> Event {
    Event {
        kind: 10,
        time,
        ..Event::default()
    }
}

pub fn end(call: u8, time: u64) -> Event {
    Event {
        kind: 11,
        call,
        time,
        ..Event::default()
    }
}

// An invoke on leg 1 with cfu, option 0, identifier 9.
pub fn reroute(call: u8, counter: u8, time: u64) -> Event {
    Event {
        kind: 12,
        call,
        leg: 1,
        reason: 1,
        counter,
        identifier: 9,
        second: 207,
        time,
        ..Event::default()
    }
}

// A received invoke of kinds 20 to 23 from panel 3.
pub fn remote_invoke(kind: u8, reason: u8, destination: u16, identifier: u16, time: u64) -> Event {
    Event {
        kind,
        reason,
        identifier,
        first: 3,
        second: destination,
        time,
        ..Event::default()
    }
}
