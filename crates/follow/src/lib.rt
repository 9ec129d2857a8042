// One event of kinds 16 to 31 on what a station holds for them, and the clock's turn there: a request of our user's is kept and sent,
// and ends by its answer or with its timer.
#![tactic(auto)]

ghost use Rattle.std.specs.Prelude.{◌≡◌};
ghost use Rattle.remote.specs.Kinds.{letter_of};
ghost use Rattle.remote.specs.Held.{with_pending};
ghost use Rattle.remote.specs.Rules.{put, invoke_of, asking, over, act_remote, unmoved, expired, lapse, taken, step};
ghost use Rattle.follow.specs.Due.{due_sort};

use call::Message;
use event::Event;
use remote::{Moved, Pendings, Remote};
use timed::Pending;

// Stays: sorts by number, here and below, as holding::pending_of takes them.
fn letter_of(sort: u8) -> u8
    ensures { result ≡ letter_of sort }
{
    match sort {
        0 => b'a',
        1 => b'd',
        2 => b'i',
        _ => b'c',
    }
}

fn with_pending(sort: u8, new: Pending, p: Pendings) -> Pendings
    ensures { result ≡ with_pending sort new p }
{
    match sort {
        0 => Pendings {
            activation: new,
            ..p
        },
        1 => Pendings {
            deactivation: new,
            ..p
        },
        2 => Pendings {
            interrogation: new,
            ..p
        },
        _ => Pendings { check: new, ..p },
    }
}

fn put(sort: u8, p: Pending, r: Remote) -> Remote
    ensures { result ≡ put sort p r }
{
    Remote {
        pending: with_pending(sort, p, r.pending),
        ..r
    }
}

fn invoke_of(e: Event, identifier: u16) -> Message
    ensures { result ≡ invoke_of e identifier }
{
    Message {
        letter: letter_of(e.kind % 4),
        reason: e.reason,
        identifier,
        destination: e.second,
        number: e.first,
        ..Message::default()
    }
}

fn asking(r: Remote, e: Event, identifier: u16) -> Moved
    ensures { result ≡ asking r e identifier }
{
    Moved {
        remote: put(e.kind % 4, timed::asked(identifier, e.time), r),
        message: invoke_of(e, identifier),
        identifier: u32::from(identifier),
    }
}

fn over(r: Remote, sort: u8, identifier: u32) -> Moved
    ensures { result ≡ over r sort identifier }
{
    Moved {
        remote: put(sort, timed::idle(), r),
        message: blank::no_message(),
        identifier,
    }
}

// An event of kinds 16 to 31 that is taken; the identifier is the one that a request would draw.
#[tactic(auto, unfolding(remote::specs::Rules::act_remote))]
fn act_remote(r: Remote, e: Event, identifier: u16) -> Moved
    ensures { result ≡ act_remote r e identifier }
{
    match e.kind {
        16..=19 => asking(r, e, identifier),
        20..=23 => consent::received(r, e),
        kind => over(r, kind % 4, 65536),
    }
}

fn unmoved(r: Remote) -> Moved
    ensures { result ≡ unmoved r }
{
    Moved {
        remote: r,
        message: blank::no_message(),
        identifier: 65536,
    }
}

// The sort of the first request that is due.
#[tactic(auto, unfolding(ground::specs::Lists::first))]
fn first_due(time: u64, p: Pendings) -> Option<u8>
    ensures { result ≡ due_sort time p }
{
    if timed::is_due(30000, time, p.activation) {
        Some(0)
    } else if timed::is_due(15000, time, p.deactivation) {
        Some(1)
    } else if timed::is_due(15000, time, p.interrogation) {
        Some(2)
    } else if timed::is_due(15000, time, p.check) {
        Some(3)
    } else {
        None
    }
}

// The request of a sort, with its identifier for the answer, is over.
fn expired(r: Remote, sort: u8) -> Moved
    ensures { result ≡ expired r sort }
{
    let p = holding::pending_of(sort, r.pending);
    over(r, sort, u32::from(p.identifier))
}

// A clock event, where no T1 request is due.
#[tactic(auto, unfolding(remote::specs::Rules::lapse))]
fn lapse(time: u64, r: Remote) -> Moved
    ensures { result ≡ lapse time r }
{
    match first_due(time, r.pending) {
        Some(sort) => expired(r, sort),
        None => unmoved(r),
    }
}

// An event of kinds 16 to 31 whose fields and the state take it.
fn taken(r: Remote, e: Event) -> bool
    ensures { result ≡ taken r e }
{
    matches!(e.kind, 16..=31) & farfields::remote_fields(e) & holding::remote_refusal(r, e).is_ok()
}

// One event here; the clock's, where no T1 request is due.
#[tactic(auto, unfolding(remote::specs::Rules::step))]
pub fn step(r: Remote, e: Event, identifier: u16) -> Moved
    ensures { result ≡ step r e identifier }
{
    if e.kind == 10 {
        lapse(e.time, r)
    } else if taken(r, e) {
        act_remote(r, e, identifier)
    } else {
        unmoved(r)
    }
}
