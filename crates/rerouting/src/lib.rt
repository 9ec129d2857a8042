// "12: callRerouting invoke received": it is turned down, the call is redirected, forwarded, or forwarded on.
// Stays: the codes of a record and reasons are numbers, as the C interface has them.
#![tactic(auto)]

ghost use Rattle.std.specs.Prelude.{◌≡◌, T};
ghost use Rattle.waits.specs.Waits.{room};
ghost use Rattle.call.specs.Messages.{echo_on, release_on, result_on, two, three};
ghost use Rattle.call.specs.Outgoing.{setup_on, goes_on, turns_down, turned_down, redirected, forwarded, forwarded_on, rerouted};

use call::{Call, Effect, Message, Sent};
use event::Event;

// "R result", "E error"
fn echo_on(letter: u8, leg: u8, identifier: u16) -> Message
    ensures { result ≡ echo_on letter leg identifier }
{
    Message {
        identifier,
        ..message::bare(letter, leg)
    }
}

// "SETUP with DLI2 to the destination"
fn setup_on(leg: u8, diverting: u16, e: Event) -> Message
    ensures { result ≡ setup_on leg diverting e }
{
    Message {
        reason: e.reason,
        counter: e.counter,
        destination: e.second,
        diverting,
        original: e.third,
        ..message::bare(b'S', leg)
    }
}

// cfu or cfb on leg 2, and fewer than 15 wait.
fn goes_on(c: Call, e: Event) -> bool
    ensures { result ≡ goes_on c e }
{
    (e.leg == 2) & ((e.reason == 1) | (e.reason == 2)) & queue::room(c.waiting)
}

// "CDR Invoked, Active, or cfnr outside Delivered", but for what goes on in Invoked
fn turns_down(c: Call, e: Event) -> bool
    ensures { result ≡ turns_down c e }
{
    ((c.cdr == 1) & !goes_on(c, e)) | (c.basic == 3) | ((e.reason == 3) & (c.basic != 2))
}

// "return error on that leg, the record stays (ours)"
fn turned_down(c: Call, e: Event) -> Effect
    ensures { result ≡ turned_down c e }
{
    let error = echo_on(b'E', e.leg, e.identifier);
    Effect {
        identifier: e.identifier as u32,
        ..message::sending(c, message::one(error))
    }
}

fn three(a: Message, b: Message, c: Message) -> Sent
    ensures { result ≡ three a b c }
{
    Sent {
        first: a,
        second: b,
        third: c,
    }
}

// "return result and RELEASE COMPLETE" on a leg, "SETUP with DLI2 to the destination", which is that leg then
fn set_up_anew(leg: u8, diverting: u16, e: Event) -> Sent
    ensures { result ≡ three (result_on leg e.identifier) (release_on leg) (setup_on leg diverting e) }
{
    let result = echo_on(b'R', leg, e.identifier);
    let release = message::bare(b'X', leg);
    three(result, release, setup_on(leg, diverting, e))
}

// "Else cfu or cfb: .. SETUP with DLI2 to the destination, now leg 1, Proceeding; DLI1 (reason, option, destination) to the own CDO."
fn redirected(c: Call, e: Event) -> Effect
    ensures { result ≡ redirected c e }
{
    let noticed = c.history.take_dli1(outgoing::dli1_of(e));
    let d = Call {
        basic: 1,
        party: e.second,
        ..outgoing::to_cdo(noticed, c)
    };
    Effect {
        notice: noticed.notice,
        identifier: e.identifier as u32,
        counter: e.counter,
        ..message::sending(d, set_up_anew(1, c.party, e))
    }
}

// "Else cfnr: return result on leg 1, SETUP with DLI2 on leg 2"
fn forwarded_sent(c: Call, e: Event) -> Sent
    ensures { result ≡ two (result_on 1 e.identifier) (setup_on 2 c.party e) }
{
    let result = echo_on(b'R', 1, e.identifier);
    let setup = setup_on(2, c.party, e);
    message::two(result, setup)
}

// "Else cfnr: .. Invoked."
fn forwarded(c: Call, e: Event) -> Effect
    ensures { result ≡ forwarded c e }
{
    let d = Call {
        cdr: 1,
        waiting: queue::waits_for(outgoing::dli1_of(e)),
        ..c
    };
    Effect {
        identifier: e.identifier as u32,
        counter: e.counter,
        ..message::sending(d, forwarded_sent(c, e))
    }
}

// "result and RELEASE COMPLETE on leg 2, SETUP with DLI2 .. to the new destination, now leg 2"; "Each waiting DLI1 is kept": one more waits.
fn forwarded_on(c: Call, e: Event) -> Effect
    requires { T (room c.waiting) }
    ensures { result ≡ forwarded_on c e }
{
    let party = queue::last_number(c.waiting);
    let d = Call {
        waiting: queue::waits_with(c.waiting, outgoing::dli1_of(e)),
        ..c
    };
    Effect {
        identifier: e.identifier as u32,
        counter: e.counter,
        ..message::sending(d, set_up_anew(2, party, e))
    }
}

// "12: .."
pub fn rerouted(c: Call, e: Event) -> Effect
    ensures { result ≡ rerouted c e }
{
    if turns_down(c, e) {
        turned_down(c, e)
    } else if c.cdr == 1 {
        forwarded_on(c, e)
    } else if e.reason == 3 {
        forwarded(c, e)
    } else {
        redirected(c, e)
    }
}
