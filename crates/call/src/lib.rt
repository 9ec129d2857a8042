// One call record, the messages that an event on it sends, and what the event does to it, as plain numbers.
#![tactic(auto)]

use notice::History;
use waits::Waits;

// What a record may hold. `waiting` are the DLI1s that wait in Invoked, and the last one's number is the party on leg 2.
// Stays: codes of states and marks, since C keeps it and lends it.
#[repr(C)]
#[derive(Clone, Copy, Default)]
pub struct Call {
    pub direction: u8,
    pub basic: u8,
    pub cdo: u8,
    pub cdr: u8,
    pub cds: u8,
    pub cdf: u8,
    pub granted: u8,
    pub counter: u8,
    pub start: u64,
    pub party: u16,
    pub history: History,
    pub own: u16,
    pub diverting: u16,
    pub original: u16,
    pub identifier: u16,
    pub reason: u8,
    pub waiting: Waits,
}

// A message with its leg and arguments; `diverting` is the number from which the call was diverted: DLI2's diverting number
// and the invoke's last rerouting number; an argument that it doesn't have is 0, and so is the letter of none.
// Stays: numbers of none, since C reads it in its `Answer`.
#[repr(C)]
#[derive(Clone, Copy, Default)]
pub struct Message {
    pub letter: u8,
    pub leg: u8,
    pub reason: u8,
    pub option: u8,
    pub counter: u8,
    pub flag: u8,
    pub identifier: u16,
    pub destination: u16,
    pub diverting: u16,
    pub original: u16,
    pub number: u16,
}

// Up to three messages, in their order.
// Stays: three places, each with or without a letter, since C reads it in its `Answer`.
#[repr(C)]
#[derive(Clone, Copy, Default)]
pub struct Sent {
    pub first: Message,
    pub second: Message,
    pub third: Message,
}

// What an event does to one record: the record after it and what its answer holds.
// Stays: numbers of none, those of the `Answer` that C reads.
#[repr(C)]
#[derive(Clone, Copy)]
pub struct Effect {
    pub call: Call,
    pub sent: Sent,
    pub notice: u8,
    pub number: u16,
    pub identifier: u32,
    pub counter: u8,
}
