// The station and the answer to an event, as plain numbers.
#![tactic(auto)]

use call::Sent;
use remote::Remote;

// What the station keeps; its table of calls is lent by the host.
// Stays: plain numbers, since C keeps it and lends it.
#[repr(C)]
#[derive(Clone, Copy, Default)]
pub struct Station {
    pub last: u64,
    pub next: u16,
    pub limit: u8,
    pub remote: Remote,
}

// The answer to one event. None is 255 for the call and the notice, 65536 for the identifier, 0 for the number and the
// counter: 0 is a call, a reason and an identifier, but neither a party number nor a counter that is sent.
// Stays: codes and numbers of none, since C reads it.
#[repr(C)]
#[derive(Clone, Copy)]
pub struct Answer {
    pub code: u8,
    pub call: u8,
    pub sent: Sent,
    pub notice: u8,
    pub number: u16,
    pub identifier: u32,
    pub counter: u8,
}

// The answer to a wish for a fresh station: 3 where the limit is outside 1 to 15 or a mark is neither 0 nor 1; then no station is made (all 0).
// Stays: a code beside the station and no Result, since C reads it.
#[repr(C)]
#[derive(Clone, Copy)]
pub struct Made {
    pub code: u8,
    pub station: Station,
}
