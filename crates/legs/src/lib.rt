// "14: .." what a message on a leg of an outgoing call does.
// Stays: the codes of a record, messages and legs are numbers, as the C interface has them.
#![tactic(auto)]

ghost use Rattle.std.specs.Prelude.{◌≡◌, ◌&&◌, not};
ghost use Rattle.ground.specs.Choice.{when◌then◌else◌};
ghost use Rattle.event.specs.Kinds.{connect, release_complete, on_leg2};
ghost use Rattle.call.specs.Record.{invoked, free_call, forwarded_party};
ghost use Rattle.call.specs.Fields.{party_is};
ghost use Rattle.call.specs.Messages.{leg_failed_on, release_on, one, nothing, sending, silent};
ghost use Rattle.call.specs.Outgoing.{hand_over, cdr_idle, to_cdo, with_dli3, number_for, after_message, taken_over, on_first_leg, leg2_remains, messaged};

use call::{Call, Effect, Sent};
use event::Event;
use notice::Noticed;

// What waits in Invoked reaches the CDO.
fn hand_over(c: Call) -> Noticed
    ensures { result ≡ hand_over c }
{
    queue::hand_over(c.history, c.waiting)
}

// "CDR Idle": nothing waits any more.
fn cdr_idle(c: Call) -> Call
    ensures { result ≡ cdr_idle c }
{
    Call {
        cdr: 0,
        waiting: queue::no_waits(),
        ..c
    }
}

// "leg 2 becomes leg 1, CDR Idle, DLI1 to the CDO", which has taken what waits.
fn moved_over(noticed: Noticed, c: Call) -> Call
    ensures { result ≡ cdr_idle (party_is (forwarded_party c) (to_cdo noticed c)) }
{
    cdr_idle(Call {
        party: queue::last_number(c.waiting),
        ..outgoing::to_cdo(noticed, c)
    })
}

// "In CDO Idle a DLI3 inside ALERTING or CONNECT is passed over."
fn with_dli3(c: Call, e: Event) -> Call
    ensures { result ≡ with_dli3 c e }
{
    if c.cdo != 1 {
        return c;
    }
    Call {
        history: c.history.take_dli3(e.flag, e.second).history,
        ..c
    }
}

// The number that the caller is shown.
fn number_for(c: Call, e: Event) -> u16
    ensures { result ≡ number_for c e }
{
    if c.cdo == 1 {
        c.history.number_shown(e.flag, e.second)
    } else {
        0
    }
}

// "ALERTING gives Delivered, CONNECT Active and, after its DLI3, CDO Idle."
fn after_message(e: Event, c: Call) -> Call
    ensures { result ≡ after_message e c }
{
    match e.message {
        2 => Call { basic: 2, ..c },
        3 => Call {
            basic: 3,
            cdo: 0,
            ..c
        },
        _ => c,
    }
}

// "when leg 2 alerts, connects, or is left alone by a release of leg 1"
fn leg2_goes_on(c: Call, e: Event) -> bool
    ensures { result ≡ (when release_complete e then not (on_leg2 e) && invoked c else on_leg2 e) }
{
    let second = e.leg == 2;
    if e.message == 4 {
        !second & (c.cdr == 1)
    } else {
        second
    }
}

// "In Invoked, ALERTING or CONNECT on leg 2: RELEASE COMPLETE on leg 1, leg 2 becomes leg 1, CDR Idle, DLI1 to the CDO, then a DLI3."
// "RELEASE on leg 1: leg 2 becomes leg 1, Proceeding, CDR Idle, DLI1 to the CDO (ours)." What waits is handed over here alone: the compiler
// puts that in where it is called once.
fn taken_over(c: Call, e: Event) -> Effect
    ensures { result ≡ (when release_complete e then leg2_remains c else taken_over c e) }
{
    let noticed = hand_over(c);
    let moved = moved_over(noticed, c);
    if e.message == 4 {
        return Effect {
            notice: noticed.notice,
            ..message::silent(Call { basic: 1, ..moved })
        };
    }
    let heard = with_dli3(moved, e);
    let release = message::bare(b'X', 1);
    Effect {
        notice: noticed.notice,
        number: number_for(moved, e),
        ..message::sending(after_message(e, heard), message::one(release))
    }
}

// "CONNECT on leg 1: .. CDR Idle."
fn after_connect(c: Call, e: Event) -> Call
    ensures { result ≡ (when connect e then cdr_idle c else c) }
{
    if e.message == 3 { cdr_idle(c) } else { c }
}

// In Invoked "CONNECT on leg 1: RELEASE COMPLETE on leg 2"
fn first_leg_sent(c: Call, e: Event) -> Sent
    ensures { result ≡ (when connect e && invoked c then one (release_on 2) else nothing) }
{
    if (e.message == 3) & (c.cdr == 1) {
        message::one(message::bare(b'X', 2))
    } else {
        blank::no_messages()
    }
}

// FACILITY, ALERTING or CONNECT on leg 1.
fn on_first_leg(c: Call, e: Event) -> Effect
    ensures { result ≡ on_first_leg c e }
{
    let heard = with_dli3(after_connect(c, e), e);
    Effect {
        number: number_for(c, e),
        ..message::sending(after_message(e, heard), first_leg_sent(c, e))
    }
}

// "RELEASE on leg 2: cfnrDivertedLegFailed on leg 1, CDR Idle."
fn leg_failed(c: Call) -> Effect
    ensures { result ≡ sending (cdr_idle c) (one (leg_failed_on 1)) }
{
    let failed = message::bare(b'F', 1);
    message::sending(cdr_idle(c), message::one(failed))
}

// "RELEASE on leg 1 in CDR Idle frees the record."
fn released(c: Call, e: Event) -> Effect
    ensures { result ≡ (when on_leg2 e then sending (cdr_idle c) (one (leg_failed_on 1)) else silent free_call) }
{
    if e.leg == 2 {
        leg_failed(c)
    } else {
        message::freed()
    }
}

// "14: .."
pub fn messaged(c: Call, e: Event) -> Effect
    ensures { result ≡ messaged c e }
{
    if leg2_goes_on(c, e) {
        taken_over(c, e)
    } else if e.message == 4 {
        released(c, e)
    } else {
        on_first_leg(c, e)
    }
}
