// Whether a reason fits a call's basic state: what a sound record asks of its own, and numbers 10 and 11 of an event's.
// Stays: reasons and basic states are numbers, as the C interface has them.
#![tactic(auto)]

ghost use Rattle.std.specs.Prelude.{◌≡◌};
ghost use Rattle.call.specs.Record.{fits as fitsState};

use call::Call;

// "reason fits the basic state (cfu and cfb Proceeding, cfnr Received)", by branches, which are mostly foreseen: that takes fewer instructions than tests that
// are joined.
pub fn fits(reason: u8, c: Call) -> bool
    ensures { result ≡ fitsState reason c }
{
    if reason == 3 {
        return c.basic == 2;
    }
    if c.basic == 1 {
        return (reason == 1) | (reason == 2);
    }
    false
}
