// "Rules for incoming calls": the request of a divert, from the invoke to its end.
// Stays: the codes of a record are numbers, as the C interface has them.
#![tactic(auto)]

ghost use Rattle.std.specs.Prelude.{◌≡◌, ◌<◌};
ghost use Rattle.call.specs.Messages.{silent};
ghost use Rattle.call.specs.Incoming.{idle, original_sent, invoke_of, asking, diverted, grant, expired};

use call::{Call, Effect, Message};
use event::Event;

// "8: Idle, not granted": a request or grant with all that belongs to it is gone.
pub fn idle(c: Call) -> Call
    ensures { result ≡ idle c }
{
    Call {
        cds: 0,
        granted: 0,
        identifier: 0,
        reason: 0,
        start: 0,
        ..c
    }
}

// "0 if the sent counter is 1, else the stored original, or the diverting number if that is 0 (ours)"
fn original_sent(c: Call) -> u16
    ensures { result ≡ original_sent c }
{
    if c.counter == 0 {
        0
    } else if c.original == 0 {
        c.diverting
    } else {
        c.original
    }
}

// "Sends the callRerouting invoke .." A sound record's counter is 15 at most.
fn invoke_of(c: Call, e: Event, identifier: u16) -> Message
    requires { c.counter < 255 }
    ensures { result ≡ invoke_of c e identifier }
{
    Message {
        reason: e.reason,
        option: e.option,
        counter: c.counter + 1,
        identifier,
        destination: e.second,
        diverting: c.own,
        original: original_sent(c),
        ..message::bare(b'I', 1)
    }
}

// "Enters Requested, starts T1."
fn asking(c: Call, e: Event, identifier: u16) -> Call
    ensures { result ≡ asking c e identifier }
{
    Call {
        cds: 1,
        reason: e.reason,
        identifier,
        start: e.time,
        ..c
    }
}

// "6: .."
pub fn diverted(c: Call, e: Event, identifier: u16) -> Effect
    requires { c.counter < 255 }
    ensures { result ≡ diverted c e identifier }
{
    let invoke = invoke_of(c, e, identifier);
    Effect {
        identifier: identifier as u32,
        counter: invoke.counter,
        ..message::sending(asking(c, e, identifier), message::one(invoke))
    }
}

// "7: Idle, granted."
fn grant(c: Call) -> Call
    ensures { result ≡ grant c }
{
    Call {
        cds: 0,
        granted: 1,
        identifier: 0,
        start: 0,
        ..c
    }
}

pub fn granted(c: Call) -> Effect
    ensures { result ≡ silent (grant c) }
{
    message::silent(grant(c))
}

pub fn rejected(c: Call) -> Effect
    ensures { result ≡ silent (idle c) }
{
    message::silent(idle(c))
}

// "ends as by a reject and the answer names call and identifier"
pub fn expired(c: Call) -> Effect
    ensures { result ≡ expired c }
{
    Effect {
        identifier: c.identifier as u32,
        ..message::silent(idle(c))
    }
}
