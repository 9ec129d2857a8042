// What a run keeps of its table from event to event, so that none walks through its records: which are free, when a request falls
// due, which identifiers are held. Places past the table's end count as free records.
#![tactic(auto)]

ghost use Rattle.std.specs.Prelude.{◌≡◌, ◌≤◌};
ghost use Rattle.draw.specs.Column.{over, frees};
ghost use Rattle.notes.specs.Notes.{notes_of};

use call::Call;

// Stays: columns of fixed length side by side, since there is no heap and a scan looks at one of them.
#[derive(Clone, Copy)]
pub struct Notes {
    pub free: u64,
    pub soon: u64,
    pub dues: [u64; 64],
    pub held: [u32; 64],
}

// What is kept of the first len records.
pub fn summed(calls: [Call; 64], len: usize) -> Notes
    requires { len ≤ 64 }
    ensures { result ≡ notes_of (over len calls frees) }
{
    let mut free = u64::MAX;
    let mut soon = u64::MAX;
    let mut dues = [u64::MAX; 64];
    let mut held = [0u32; 64];
    for i in 0..len {
        let d = calls[i];
        free = bits::flip(free, i, 0, d.direction);
        let due = expiry::quiet_until(d);
        dues[i] = due;
        soon = soon.min(due);
        held[i] = draw::held_by(d);
    }
    Notes {
        free,
        soon,
        dues,
        held,
    }
}
