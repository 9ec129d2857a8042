// What another panel's invoke gets of us, kinds 20 to 23: a result where we agree, with what is kept after it, else a return error.
#![tactic(auto)]

ghost use Rattle.std.specs.Prelude.{◌≡◌};
ghost use Rattle.remote.specs.Held.{kept_for, with_kept};
ghost use Rattle.remote.specs.Rules.{echo_of, stands, accepts, kept_after, told, agreed, declined, received};

use call::Message;
use event::Event;
use remote::{Kept, Moved, Remote};

// The destination kept for a type.
fn kept_for(reason: u8, k: Kept) -> u16
    ensures { result ≡ kept_for reason k }
{
    match reason {
        1 => k.cfu,
        2 => k.cfb,
        _ => k.cfnr,
    }
}

fn with_kept(reason: u8, number: u16, k: Kept) -> Kept
    ensures { result ≡ with_kept reason number k }
{
    match reason {
        1 => Kept { cfu: number, ..k },
        2 => Kept { cfb: number, ..k },
        _ => Kept { cfnr: number, ..k },
    }
}

fn echo_of(letter: u8, e: Event, destination: u16) -> Message
    ensures { result ≡ echo_of letter e destination }
{
    Message {
        letter,
        identifier: e.identifier,
        destination,
        ..Message::default()
    }
}

fn stands(r: Remote, e: Event) -> u16
    ensures { result ≡ stands r e }
{
    kept_for(e.reason, r.kept)
}

fn accepts(r: Remote, e: Event) -> bool
    ensures { result ≡ accepts r e }
{
    match e.kind % 4 {
        0 => r.enabled == 1,
        3 => r.allowed == 1,
        _ => stands(r, e) != 0,
    }
}

fn kept_after(r: Remote, e: Event) -> Kept
    ensures { result ≡ kept_after r e }
{
    match e.kind % 4 {
        0 => with_kept(e.reason, e.second, r.kept),
        1 => with_kept(e.reason, 0, r.kept),
        _ => r.kept,
    }
}

fn told(r: Remote, e: Event) -> u16
    ensures { result ≡ told r e }
{
    if e.kind % 4 == 2 { stands(r, e) } else { 0 }
}

fn agreed(r: Remote, e: Event) -> Moved
    ensures { result ≡ agreed r e }
{
    Moved {
        remote: Remote {
            kept: kept_after(r, e),
            ..r
        },
        message: echo_of(b'r', e, told(r, e)),
        identifier: u32::from(e.identifier),
    }
}

fn declined(r: Remote, e: Event) -> Moved
    ensures { result ≡ declined r e }
{
    Moved {
        remote: r,
        message: echo_of(b'e', e, 0),
        identifier: u32::from(e.identifier),
    }
}

// An invoke of kinds 20 to 23 that is taken.
pub fn received(r: Remote, e: Event) -> Moved
    ensures { result ≡ received r e }
{
    if accepts(r, e) {
        agreed(r, e)
    } else {
        declined(r, e)
    }
}
