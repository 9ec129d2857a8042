// The page's order of the numbers, from 4 on: 4, 10, 11, 6, 7 and 8 of an event on a call, 11, 6 and 9 of kinds 16 to 31.
#![tactic(auto)]

ghost use Rattle.std.specs.Prelude.{◌≡◌, true, ◌≤◌};
ghost use Rattle.event.specs.Refusals.{code_of};
ghost use Rattle.event.specs.WellMade.{well_made};
ghost use Rattle.numbers.specs.Numbers.{no_record, number_of};

use event::{Event, Refusal};
use sight::Seen;
use station::Station;

// "4: call past the table's end, .."; "8: kind 1 to 3: no free record"; a clock event with none due is done.
fn no_record(kind: u8) -> Result<(), Refusal>
    ensures { code_of result ≡ no_record kind }
{
    match kind {
        1..=3 => Err(Refusal::NoFreeRecord),
        10 => Ok(()),
        _ => Err(Refusal::NoSuchCall),
    }
}

// Numbers 4, 10, 11, 6, 7 and 8 of a well-made event of kinds 1 to 15; 0 is done. Tested in the page's order; 8 is given where 4 is, by the kind: an open
// has none of the others. The kind comes by itself: as a literal it lets the compiler make each arm of `number_by_kind` a test of its own, as long as
// what is left of this function for one kind is small. So the fields are tested before it.
fn number(kind: u8, s: Station, e: Event, seen: Seen) -> Result<(), Refusal>
    requires { (kind ≡ e.kind) × (kind ≤ 15) × (s.last ≤ e.time) × (well_made e ≡ true) }
    ensures { code_of result ≡ number_of s e seen }
{
    let c = seen.call;
    let beyond = seen.len <= seen.place;
    let wrong = refusal::wrong_call(kind, c, e);
    if beyond | wrong {
        return no_record(kind);
    }
    states::state_number(kind, c, e)?;
    if refusal::other_identifier(kind, c, e) {
        return Err(Refusal::OtherIdentifier);
    }
    if refusal::over_limit(kind, s, c, e) {
        return Err(Refusal::OverLimit);
    }
    Ok(())
}

// The number of a well-made event by its kind, a literal in each arm of kinds 1 to 15; those of 16 to 31 have 11, 6 and 9. A well-made event has
// no other kind: the last arm is never taken.
// Stays: an arm for each kind, and the kind beside its event: tried written into the event instead, a step takes 15 % more instructions at 8 records.
pub fn number_by_kind(s: Station, e: Event, seen: Seen) -> Result<(), Refusal>
    requires { (s.last ≤ e.time) × (well_made e ≡ true) }
    ensures { code_of result ≡ number_of s e seen }
{
    match e.kind {
        1 => number(1, s, e, seen),
        2 => number(2, s, e, seen),
        3 => number(3, s, e, seen),
        4 => number(4, s, e, seen),
        5 => number(5, s, e, seen),
        6 => number(6, s, e, seen),
        7 => number(7, s, e, seen),
        8 => number(8, s, e, seen),
        9 => number(9, s, e, seen),
        10 => number(10, s, e, seen),
        11 => number(11, s, e, seen),
        12 => number(12, s, e, seen),
        13 => number(13, s, e, seen),
        14 => number(14, s, e, seen),
        15 => number(15, s, e, seen),
        16..=31 => holding::remote_refusal(s.remote, e),
        _ => Err(Refusal::IllMade),
    }
}
