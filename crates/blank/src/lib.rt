// A record and messages with nothing in them.
#![tactic(auto)]

ghost use Rattle.std.specs.Prelude.{◌≡◌};
ghost use Rattle.call.specs.Record.{free_call};
ghost use Rattle.call.specs.Messages.{no_message, nothing};

use call::{Call, Message, Sent};

pub fn free_call() -> Call
    ensures { result ≡ free_call }
{
    Call::default()
}

pub fn no_message() -> Message
    ensures { result ≡ no_message }
{
    Message::default()
}

pub fn no_messages() -> Sent
    ensures { result ≡ nothing }
{
    Sent::default()
}
