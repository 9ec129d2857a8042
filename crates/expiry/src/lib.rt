// When a request of a call falls due by T1: the last time at which it isn't, and a column of such times with a bound that is at
// most each of them, so that a clock event before the bound looks at none.
#![tactic(auto)]

ghost use Rattle.std.specs.Prelude.{◌≡◌, true, position};
ghost use Rattle.ground.specs.Lists.{first, all};
ghost use Rattle.expiry.specs.Expiry.{quiet_until, at_least, under, soonest_of, refreshed_of};

use call::Call;

// T1 in milliseconds.
pub const T1: u64 = 10000;

// The last time at which a request isn't due yet; the last time there is where none is open.
pub fn quiet_until(c: Call) -> u64
    ensures { result ≡ quiet_until c }
{
    if c.cds == 1 {
        c.start.saturating_add(T1 - 1)
    } else {
        u64::MAX
    }
}

// The lowest place whose time has passed.
fn first_past(dues: &[u64; 64], time: u64) -> Option<usize>
    ensures { result ≡ position (under time) dues.now }
{
    dues.iter().position(|due| *due < time)
}

// The least of the column.
fn soonest(dues: &[u64; 64]) -> u64
    ensures { result ≡ soonest_of dues.now }
{
    let mut least = u64::MAX;
    for due in dues {
        least = least.min(*due);
    }
    least
}

// A bound that is at most each time of the column, found anew where it has passed.
pub fn refresh(soon: u64, dues: &[u64; 64], time: u64) -> u64
    ensures { result ≡ refreshed_of soon dues.now time }
{
    if soon < time { soonest(dues) } else { soon }
}

// The lowest place that is due; 64 at once where the bound hasn't passed.
// Stays: 64 for none, since that is what the contract promises the crates above.
pub fn due_at(dues: &[u64; 64], soon: u64, time: u64) -> usize
    requires { all (at_least soon) dues.now ≡ true }
    ensures { result ≡ first (under time) dues.now }
{
    if time <= soon {
        64
    } else {
        first_past(dues, time).unwrap_or(64)
    }
}
