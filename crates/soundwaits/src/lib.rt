// What of the DLI1s that wait a sound record may hold. Places that are unused are tested by words.
#![tactic(auto)]

ghost use Rattle.std.specs.Prelude.{◌≡◌};
ghost use Rattle.waits.specs.Soundness.{dli1_unused, first_holds, later_holds, place_holds, later_unused, later_hold, waits_unused, waits_hold};
ghost use Rattle.soundwaits.specs.Words.{dli1_word, pair_word};

use notice::Dli1;
use waits::Waits;

// The fields side by side, as one number: the compiler reads it by one load.
// Stays: `from_le_bytes`, here and in `pair_word`, would take the numbers apart into bytes before it joins them, and is no plainer.
fn dli1_word(d: Dli1) -> u32
    ensures { result ≡ dli1_word d }
{
    (d.reason as u32) + 256 * (d.option as u32) + 65536 * (d.number as u32)
}

fn dli1_unused(d: Dli1) -> bool
    ensures { result ≡ dli1_unused d }
{
    let word = dli1_word(d);
    word == 0
}

fn first_holds(d: Dli1) -> bool
    ensures { result ≡ first_holds d }
{
    (d.reason == 3) & (d.option <= 2) & (d.number != 0)
}

fn later_holds(d: Dli1) -> bool
    ensures { result ≡ later_holds d }
{
    ((d.reason == 1) | (d.reason == 2)) & (d.option <= 2) & (d.number != 0)
}

// What the place i behind the first may hold, where n wait there.
fn place_holds(n: usize, i: usize, d: Dli1) -> bool
    ensures { result ≡ place_holds n i d }
{
    if n <= i {
        dli1_unused(d)
    } else {
        later_holds(d)
    }
}

fn later_hold(w: Waits) -> bool
    ensures { result ≡ later_hold w }
{
    let n = w.count as usize;
    let mut ok = n <= 14;
    for (i, d) in w.later.iter().enumerate() {
        ok &= place_holds(n, i, *d);
    }
    ok
}

// Two side by side as one number, read by one load: so all fields stand in one sum, and no function lies between it and the loop.
fn pair_word(a: Dli1, b: Dli1) -> u64
    ensures { result ≡ pair_word a b }
{
    (a.reason as u64)
        + 256 * (a.option as u64)
        + 65536 * (a.number as u64)
        + 4294967296 * (b.reason as u64)
        + 1099511627776 * (b.option as u64)
        + 281474976710656 * (b.number as u64)
}

fn later_unused(w: Waits) -> bool
    ensures { result ≡ later_unused w }
{
    let mut ok = w.count == 0;
    for i in 0..7 {
        let word = pair_word(w.later[2 * i], w.later[2 * i + 1]);
        ok &= word == 0;
    }
    ok
}

// "soundness the kept ones (the first cfnr, the others cfu or cfb)"; mostly the first waits alone.
pub fn waits_hold(w: Waits) -> bool
    ensures { result ≡ waits_hold w }
{
    let first = w.first;
    if !first_holds(first) {
        return false;
    }
    if w.count == 0 {
        later_unused(w)
    } else {
        later_hold(w)
    }
}

// None waits.
#[tactic(auto, unfolding(waits::specs::Soundness::waits_unused))]
pub fn waits_unused(w: Waits) -> bool
    ensures { result ≡ waits_unused w }
{
    let first = w.first;
    dli1_unused(first) & later_unused(w)
}
