// "Rules for incoming calls": a call that is opened, alerted, answered; a divert is in `requests`.
// Stays: the codes of a record are numbers, as the C interface has them.
#![tactic(auto)]

ghost use Rattle.std.specs.Prelude.{◌≡◌};
ghost use Rattle.call.specs.Record.{Active, CdfDone};
ghost use Rattle.call.specs.Fields.{basic_is, cdf_is};
ghost use Rattle.call.specs.Messages.{connect_on, connect_with_dli3, one, sending};
ghost use Rattle.call.specs.Incoming.{opened_incoming, alerted, idle, own_if_allowed, answered};

use call::{Call, Effect, Message};
use event::Event;

// "2 open incoming", "3 open incoming with divertingLegInformation2 (DLI2)"
pub fn opened_incoming(e: Event) -> Call
    ensures { result ≡ opened_incoming e }
{
    Call {
        direction: 2,
        basic: 1,
        cdf: if e.kind == 3 { 1 } else { 0 },
        counter: e.counter,
        own: e.first,
        diverting: e.second,
        original: e.third,
        ..blank::free_call()
    }
}

// "4: Proceeding becomes Received, ALERTING."
pub fn alerted(c: Call) -> Effect
    ensures { result ≡ alerted c }
{
    let alerting = message::bare(b'A', 1);
    message::sending(Call { basic: 2, ..c }, message::one(alerting))
}

// "the own number only if allowed"
fn own_if_allowed(c: Call, e: Event) -> u16
    ensures { result ≡ own_if_allowed c e }
{
    if e.flag == 1 { c.own } else { 0 }
}

// "D CONNECT with DLI3"
fn connect_with_dli3(leg: u8, flag: u8, number: u16) -> Message
    ensures { result ≡ connect_with_dli3 leg flag number }
{
    Message {
        flag,
        number,
        ..message::bare(b'D', leg)
    }
}

// "in Wait it carries DLI3 with the flag .., and CDF is done"
fn answered_in_wait(c: Call, e: Event) -> Effect
    ensures { result ≡ sending (cdf_is CdfDone (basic_is Active (idle c))) (one (connect_with_dli3 1 e.flag (own_if_allowed c e))) }
{
    let connect = connect_with_dli3(1, e.flag, own_if_allowed(c, e));
    let d = Call {
        basic: 3,
        cdf: 2,
        ..requests::idle(c)
    };
    message::sending(d, message::one(connect))
}

fn answered_plainly(c: Call) -> Effect
    ensures { result ≡ sending (basic_is Active (idle c)) (one (connect_on 1)) }
{
    let connect = message::bare(b'C', 1);
    let d = Call {
        basic: 3,
        ..requests::idle(c)
    };
    message::sending(d, message::one(connect))
}

// "5: Proceeding or Received becomes Active, CONNECT"
pub fn answered(c: Call, e: Event) -> Effect
    ensures { result ≡ answered c e }
{
    if c.cdf == 1 {
        answered_in_wait(c, e)
    } else {
        answered_plainly(c)
    }
}
