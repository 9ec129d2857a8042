// The DLI1s that wait in Invoked: one comes, one more, and all are handed over.
#![tactic(auto)]

ghost use Rattle.std.specs.Prelude.{◌≡◌, T, take};
ghost use Rattle.waits.specs.Waits.{no_waits, waits_for, dli1s, waits_with, room, last_number, after_all, behind, take_all};

use notice::{Dli1, History, Noticed};
use waits::Waits;

// None waits.
pub fn no_waits() -> Waits
    ensures { result ≡ no_waits }
{
    Waits::default()
}

// The first waits, alone.
pub fn waits_for(d: Dli1) -> Waits
    ensures { result ≡ waits_for d }
{
    Waits {
        first: d,
        ..Waits::default()
    }
}

// One more waits. That there is room is given: "a sixteenth wait .. still gets the return error".
#[tactic(auto, using(waits::proofs::Counted::room_below))]
pub fn waits_with(w: Waits, d: Dli1) -> Waits
    requires { T (room w) }
    ensures { result ≡ waits_with w d }
{
    let mut v = w;
    v.later[w.count as usize] = d;
    v.count += 1;
    v
}

// Fewer than 15 wait.
#[tactic(auto, using(waits::proofs::Counted::room_read))]
pub fn room(w: Waits) -> bool
    ensures { result ≡ room w }
{
    w.count < 14
}

// Those behind the first, in order: the first `count` places, or all where there are fewer.
#[tactic(auto, using(std::proofs::lemmas::List::take_min))]
fn behind(later: &[Dli1], count: u8) -> &[Dli1]
    ensures { result.now ≡ take count later.now }
{
    &later[..(count as usize).min(later.len())]
}

// The last waiting number, leg 2's party.
#[tactic(auto, using(crate::proofs::Walk::last_read))]
pub fn last_number(w: Waits) -> u16
    ensures { result ≡ last_number w }
{
    behind(&w.later, w.count)
        .last()
        .copied()
        .unwrap_or(w.first)
        .number
}

// Those behind the first reach the CDO, in order.
#[tactic(auto, using(crate::proofs::Walk::after_more), unfolding(waits::specs::Waits::after_all))]
fn after_later(h: History, w: Waits) -> History
    ensures { result ≡ after_all h (behind w) }
{
    let mut history = h;
    for d in behind(&w.later, w.count) {
        history = history.take_dli1(*d).history;
    }
    history
}

// "all are handed to the own CDO in order"; the notice is that of the first.
#[tactic(auto, unfolding(waits::specs::Waits::take_all))]
pub fn hand_over(h: History, w: Waits) -> Noticed
    ensures { result ≡ take_all h (dli1s w) }
{
    let noticed = h.take_dli1(w.first);
    Noticed {
        history: after_later(noticed.history, w),
        ..noticed
    }
}
