// One event on what a driver saw of its table: refused by its number, done on what the station holds, or done on the record. No table stands here, so that
// every driver has this one decision.
#![tactic(auto)]

ghost use Rattle.std.specs.Prelude.{◌≡◌};
ghost use Rattle.turn.specs.Turn.{turn_of, turn_by};

use event::{Event, Refusal};
use sight::Seen;
use station::Station;

// On what an event is done: what the station holds, as `follow::step` says (kinds 16 to 31, and a clock event with no T1 request
// due); the record at its place, as `deed::acted` says.
#[derive(Clone, Copy, PartialEq, Eq)]
pub enum DoneOn {
    Held,
    Record,
}

// One event where the table was found sound.
pub fn turned(s: Station, e: Event, seen: Seen) -> Result<DoneOn, Refusal>
    ensures { turn_by result ≡ turn_of s e seen }
{
    if e.time < s.last {
        return Err(Refusal::Early);
    }
    if !wellmade::well_made(e) {
        return Err(Refusal::IllMade);
    }
    numbers::number_by_kind(s, e, seen)?;
    let remote = (16 <= e.kind) & (e.kind <= 31);
    let none_due = seen.len <= seen.place;
    if remote | none_due {
        return Ok(DoneOn::Held);
    }
    Ok(DoneOn::Record)
}
