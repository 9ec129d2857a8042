// What a station holds for remote activation, deactivation, interrogation and the restriction check.
#![tactic(auto)]

ghost use Rattle.std.specs.Prelude.{◌≡◌};
ghost use Rattle.remote.specs.Held.{fresh};

use call::Message;
use timed::Pending;

// The request of each sort, in the order of the sorts and of their timers T2 to T5.
// Stays: of the C interface, as are the next two.
#[repr(C)]
#[derive(Clone, Copy, Default)]
pub struct Pendings {
    pub activation: Pending,
    pub deactivation: Pending,
    pub interrogation: Pending,
    pub check: Pending,
}

// The destination kept for each type; 0 where none stands.
#[repr(C)]
#[derive(Clone, Copy, Default)]
pub struct Kept {
    pub cfu: u16,
    pub cfb: u16,
    pub cfnr: u16,
}

// `enabled`: remote activation; `allowed`: diversion to us.
#[repr(C)]
#[derive(Clone, Copy, Default)]
pub struct Remote {
    pub pending: Pendings,
    pub kept: Kept,
    pub enabled: u8,
    pub allowed: u8,
}

// What an event leaves here and what its answer holds: at most one message.
// Stays: the definitions and the answer to C have a number for the identifier, 65536 for none.
#[repr(C)]
#[derive(Clone, Copy)]
pub struct Moved {
    pub remote: Remote,
    pub message: Message,
    pub identifier: u32,
}

pub fn fresh(enabled: u8, allowed: u8) -> Remote
    ensures { result ≡ fresh enabled allowed }
{
    Remote {
        enabled,
        allowed,
        ..Remote::default()
    }
}
