// One request that waits for its answer while a timer runs; the timer's length is a number like any other.
#![tactic(auto)]

ghost use Rattle.std.specs.Prelude.{◌≡◌};
ghost use Rattle.timed.specs.Timed.{idle, asked, due, holds};

// A request that waits: `wait` is 1, with its identifier and the time at which it was asked. Without one all is 0.
// Stays: of the C interface, in the station that a host lends.
#[repr(C)]
#[derive(Clone, Copy, Default, PartialEq, Eq)]
pub struct Pending {
    pub start: u64,
    pub identifier: u16,
    pub wait: u8,
}

pub fn idle() -> Pending
    ensures { result ≡ idle }
{
    Pending::default()
}

// It is asked, and its timer starts.
pub fn asked(identifier: u16, time: u64) -> Pending
    ensures { result ≡ asked identifier time }
{
    Pending {
        start: time,
        identifier,
        wait: 1,
    }
}

// "time minus start at least" the timer's length
pub fn is_due(length: u64, time: u64, p: Pending) -> bool
    ensures { result ≡ due length time p }
{
    (p.wait == 1) & (length <= time.saturating_sub(p.start))
}

// It is sound, where the station's last time is given.
pub fn holds(last: u64, p: Pending) -> bool
    ensures { result ≡ holds last p }
{
    if p.wait == 1 {
        return (p.identifier != 0) & (p.start <= last);
    }
    p == Pending::default()
}
