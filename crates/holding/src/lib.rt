// What a station holds for kinds 16 to 31, read and tested: the request of a sort, the numbers that an event is refused with by it, and
// when all of it is sound.
#![tactic(auto)]

ghost use Rattle.std.specs.Prelude.{◌≡◌};
ghost use Rattle.event.specs.Refusals.{code_of};
ghost use Rattle.remote.specs.Held.{pending_of, pendings_hold, remote_holds};
ghost use Rattle.remote.specs.Rules.{its, remote_refusal};
ghost use Rattle.holding.specs.Numbers.{number_of};
ghost use Rattle.holding.specs.Idle.{four_idle, four_blank};

use event::{Event, Refusal};
use remote::{Pendings, Remote};
use timed::Pending;

// The request of a sort.
// Stays: each byte may be handed in, and the definitions go by the number; an enum of the sorts would ask more.
pub fn pending_of(sort: u8, p: Pendings) -> Pending
    ensures { result ≡ pending_of sort p }
{
    match sort {
        0 => p.activation,
        1 => p.deactivation,
        2 => p.interrogation,
        _ => p.check,
    }
}

fn its(r: Remote, e: Event) -> Pending
    ensures { result ≡ its r e }
{
    pending_of(e.kind % 4, r.pending)
}

// By the request of the event's sort: "16 to 19 with one of the same sort pending is 9"; an answer to none, and one of another.
fn refusal_of(p: Pending, kind: u8, identifier: u16) -> Result<(), Refusal>
    ensures { code_of result ≡ number_of p kind identifier }
{
    match kind {
        24..=31 if p.wait != 1 => Err(Refusal::NotTaken),
        24..=31 if identifier != p.identifier => Err(Refusal::OtherIdentifier),
        16..=19 if p.wait == 1 => Err(Refusal::PendingAlready),
        _ => Ok(()),
    }
}

// An event of kinds 16 to 31 by itself: refused with 11, 6 or 9, or not.
#[tactic(auto, unfolding(remote::specs::Rules::remote_refusal))]
pub fn remote_refusal(r: Remote, e: Event) -> Result<(), Refusal>
    ensures { code_of result ≡ remote_refusal r e }
{
    refusal_of(its(r, e), e.kind, e.identifier)
}

// None of the four waits, which is one test of their codes.
pub fn four_idle(p: Pendings) -> bool
    ensures { result ≡ four_idle p }
{
    (p.activation.wait == 0)
        & (p.deactivation.wait == 0)
        & (p.interrogation.wait == 0)
        & (p.check.wait == 0)
}

// The other fields of all four are 0.
// Stays: field by field, since those of one width side by side are one test.
fn four_blank(p: Pendings) -> bool
    ensures { result ≡ four_blank p }
{
    (p.activation.start == 0)
        & (p.deactivation.start == 0)
        & (p.interrogation.start == 0)
        & (p.check.start == 0)
        & (p.activation.identifier == 0)
        & (p.deactivation.identifier == 0)
        & (p.interrogation.identifier == 0)
        & (p.check.identifier == 0)
}

// All four are sound; mostly none waits.
fn pendings_hold(last: u64, p: Pendings) -> bool
    ensures { result ≡ pendings_hold last p }
{
    if four_idle(p) {
        return four_blank(p);
    }
    timed::holds(last, p.activation)
        & timed::holds(last, p.deactivation)
        & timed::holds(last, p.interrogation)
        & timed::holds(last, p.check)
}

// What is held here is sound, but for shared identifiers.
#[tactic(auto, unfolding(remote::specs::Held::remote_holds))]
pub fn remote_holds(last: u64, r: Remote) -> bool
    ensures { result ≡ remote_holds last r }
{
    pendings_hold(last, r.pending) & (r.enabled <= 1) & (r.allowed <= 1)
}
