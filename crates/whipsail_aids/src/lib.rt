// What a host links beside the step: a fresh station, an event read from bytes and tested, who rings tonight. A crate of its own, so a
// compiled module of its own: a wrong version here does not prove the lent step again, and the step has the event's test to itself.
#![tactic(auto)]

ghost use Rattle.std.specs.Prelude.{◌≡◌};
ghost use Rattle.event.specs.WellMade.{well_made};
ghost use Rattle.station.specs.Station.{fresh_of, short_form};
ghost use Rattle.rehearsal.specs.Rehearsal.{rehearsal_of};
ghost use Rattle.whipsail_aids.specs.Read.{read_at};

use event::Event;
use rehearsal::Rehearsed;
use station::{Made, Station};

// The event at a place among bytes; `whole` is 1, or 0 where fewer than 24 bytes are left: then no event is read (all 0).
// Stays: a mark beside the event and no Option, since C reads it.
#[repr(C)]
#[derive(Clone, Copy)]
pub struct Read {
    pub whole: u8,
    pub event: Event,
}

// A station of this limit with these two marks, or the answer 3.
#[unsafe(no_mangle)]
pub extern "C" fn whipsail_fresh(limit: u8, enabled: u8, allowed: u8) -> Made
    ensures { result ≡ fresh_of limit enabled allowed }
{
    fresh::fresh(limit, enabled, allowed)
}

// The short form of a fresh station: limit 5, both marks set.
#[unsafe(no_mangle)]
pub extern "C" fn whipsail_fresh_short() -> Station
    ensures { result ≡ short_form }
{
    fresh::fresh_short()
}

// The event whose 24 bytes start at i.
#[unsafe(no_mangle)]
pub extern "C" fn whipsail_event_at(bytes: &[u8], i: usize) -> Read
    ensures { result ≡ read_at bytes.now i }
{
    match bytes.len().checked_sub(24) {
        Some(last) if i <= last => Read {
            whole: 1,
            event: wire::event_at(bytes, i),
        },
        _ => Read {
            whole: 0,
            event: Event::default(),
        },
    }
}

// Whether the event passes the test behind number 3.
#[unsafe(no_mangle)]
pub extern "C" fn whipsail_well_made(e: Event) -> bool
    ensures { result ≡ well_made e }
{
    wellmade::well_made(e)
}

// Who rings if a call is offered to this panel of the plan first: four numbers for each panel.
#[unsafe(no_mangle)]
pub extern "C" fn whipsail_rehearse(plan: &[u16], start: u16) -> Rehearsed
    ensures { result ≡ rehearsal_of plan.now start }
{
    offers::rehearse(plan, start)
}
