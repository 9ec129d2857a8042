// What a decision is made of: what goes out, and which record changes; one for an event that is refused, done on no record, done on one.
#![tactic(auto)]

ghost use Rattle.std.specs.Prelude.{◌≡◌, ◌<◌};
ghost use Rattle.change.specs.Change.{unchanged_as, moved_as, changed_as};

use call::{Call, Effect};
use remote::{Moved, Pendings, Remote};
use station::{Answer, Station};
use timed::Pending;

// What goes out beside the table.
#[repr(C)]
#[derive(Clone, Copy)]
pub struct Reply {
    pub answer: Answer,
    pub station: Station,
}

// What goes out, and the record that changes with its place, if one does.
#[derive(Clone, Copy)]
pub struct Decision {
    pub change: Option<(usize, Call)>,
    pub reply: Reply,
}

// The two parts of a decision.
pub fn change_of(d: Decision) -> Option<(usize, Call)>
    ensures { result ≡ d.change }
{
    d.change
}

// A request, field by field.
// Stays: as a whole it is moved with the five bytes behind its last field, which the compiler then carries through every arm.
fn request_by_fields(p: Pending) -> Pending
    ensures { result ≡ p }
{
    Pending {
        start: p.start,
        identifier: p.identifier,
        wait: p.wait,
    }
}

// The same for all that a station holds.
// Stays: for the same reason.
fn station_by_fields(s: Station) -> Station
    ensures { result ≡ s }
{
    let held = s.remote;
    Station {
        last: s.last,
        next: s.next,
        limit: s.limit,
        remote: Remote {
            pending: Pendings {
                activation: request_by_fields(held.pending.activation),
                deactivation: request_by_fields(held.pending.deactivation),
                interrogation: request_by_fields(held.pending.interrogation),
                check: request_by_fields(held.pending.check),
            },
            kept: held.kept,
            enabled: held.enabled,
            allowed: held.allowed,
        },
    }
}

pub fn reply_of(d: Decision) -> Reply
    ensures { result ≡ d.reply }
{
    Reply {
        answer: d.reply.answer,
        station: station_by_fields(d.reply.station),
    }
}

// Refused: no record changes.
pub fn unchanged(code: u8, s: Station) -> Decision
    ensures { result ≡ unchanged_as code s }
{
    Decision {
        change: None,
        reply: Reply {
            answer: fresh::empty_answer(code),
            station: s,
        },
    }
}

// Done on no record.
pub fn moved(m: Moved, s: Station) -> Decision
    ensures { result ≡ moved_as m s }
{
    Decision {
        reply: Reply {
            answer: outcome::far_answer(m),
            station: s,
        },
        ..unchanged(0, s)
    }
}

// The record at i changes.
pub fn changed(i: usize, x: Effect, s: Station) -> Decision
    requires { i < 64 }
    ensures { result ≡ changed_as i x s }
{
    Decision {
        change: Some((i, x.call)),
        reply: Reply {
            answer: outcome::answer_of(i as u8, x),
            station: s,
        },
    }
}
