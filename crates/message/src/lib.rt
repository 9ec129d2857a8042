// The messages of an answer with leg and arguments, and an effect around them.
#![tactic(auto)]

ghost use Rattle.std.specs.Prelude.{◌≡◌};
ghost use Rattle.call.specs.Record.{free_call};
ghost use Rattle.call.specs.Messages.{bare, one, two, sending, silent};

use call::{Call, Effect, Message, Sent};

// None: notice 0 is reason unknown, and 0 is an identifier. A number or a counter that an answer doesn't have is 0.
// Stays: no Option, since C reads these numbers in its `Answer`.
pub const NO_NOTICE: u8 = 255;

pub const NO_IDENTIFIER: u32 = 65536;

// A message that has a letter (its ASCII number) and a leg alone.
pub fn bare(letter: u8, leg: u8) -> Message
    ensures { result ≡ bare letter leg }
{
    Message {
        letter,
        leg,
        ..Message::default()
    }
}

// Stays: a function for each number of messages, as the definitions `one`, `two` and `three` are.
pub fn one(m: Message) -> Sent
    ensures { result ≡ one m }
{
    Sent {
        first: m,
        ..Sent::default()
    }
}

pub fn two(a: Message, b: Message) -> Sent
    ensures { result ≡ two a b }
{
    Sent {
        first: a,
        second: b,
        ..Sent::default()
    }
}

// An effect whose answer shows the caller nothing and has neither identifier nor counter.
pub fn sending(c: Call, sent: Sent) -> Effect
    ensures { result ≡ sending c sent }
{
    Effect {
        call: c,
        sent: sent,
        notice: NO_NOTICE,
        number: 0,
        identifier: NO_IDENTIFIER,
        counter: 0,
    }
}

pub fn silent(c: Call) -> Effect
    ensures { result ≡ silent c }
{
    sending(c, blank::no_messages())
}

// The record is free, and nothing is sent.
pub fn freed() -> Effect
    ensures { result ≡ silent free_call }
{
    silent(blank::free_call())
}
