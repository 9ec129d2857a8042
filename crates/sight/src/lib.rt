// What a driver sees of its table, and where an event acts.
#![tactic(auto)]

ghost use Rattle.std.specs.Prelude.{◌≡◌};
ghost use Rattle.sight.specs.Sight.{place_of};

use call::Call;
use event::Event;

// What an event needs of a table: its length, the place where the event acts (from the length on where there is none), the
// identifier that a request would take, and the record at the place.
// Stays: no Option, since the definition's place is past the end where there is none, and an event may name such a one.
#[derive(Clone, Copy)]
pub struct Seen {
    pub len: usize,
    pub place: usize,
    pub identifier: u16,
    pub call: Call,
}

// Where an event acts, given the lowest free place and the lowest due one.
pub fn place_of(e: Event, free: usize, due: usize) -> usize
    ensures { result ≡ place_of e free due }
{
    match e.kind {
        1..=3 => free,
        10 => due,
        _ => e.call as usize,
    }
}
