// The walk over the records that a host lends. `survey`, from the last to the first, notes what a step asks of the whole table in
// a few numbers, and marks the identifiers of its open requests; those that the station holds are marked with them.
#![tactic(auto)]

ghost use Rattle.std.specs.Prelude.{◌≡◌, ◌≤◌, ◌<◌, length, take, get_or};
ghost use Rattle.call.specs.Record.{free_call, request_of};
ghost use Rattle.survey.specs.Survey.{free_with, due_with, unseen_of, passed_with, with_soundness, passed_open, passed_free, any_twice, summed_of, survey_of};

use call::Call;
use remote::Pendings;
use timed::Pending;

// What is asked beside the table: the station's last time, the time below which an open request's start is due, the identifier that a request would
// take first, and the requests that the station itself holds.
#[derive(Clone, Copy)]
pub struct Asked {
    pub last: u64,
    pub by: u64,
    pub next: u16,
    pub pending: Pendings,
}

// What is noted of the records from a place on; the identifier of an open request of the record at that place alone.
#[derive(Clone, Copy)]
struct Passed {
    sound: bool,
    requested: Option<u16>,
    free: usize,
    due: usize,
}

// What the walk tells: `clash` says that two open requests have one mark, `marked` that the identifier that a request would take first has one.
// Stays: the length for a place that there is not, as in sight::Seen.
#[derive(Clone, Copy)]
pub struct Noted {
    pub sound: bool,
    pub clash: bool,
    pub marked: bool,
    pub free: usize,
    pub due: usize,
}

// The request of a record.
fn request_of(c: Call) -> Pending
    ensures { result ≡ request_of c }
{
    Pending {
        start: c.start,
        identifier: c.identifier,
        wait: c.cds,
    }
}

// The lowest free place from i on, where the one after i is given.
fn free_with(free: usize, c: Call, i: usize) -> usize
    ensures { result ≡ free_with free c i }
{
    if c.direction == 0 { i } else { free }
}

// The lowest place from i on whose request started before a time.
fn due_with(due: usize, p: Pending, i: usize, by: u64) -> usize
    ensures { result ≡ due_with due p i by }
{
    if (p.wait == 1) & (p.start < by) {
        i
    } else {
        due
    }
}

// Nothing was seen yet of a table of n.
fn unseen(n: usize) -> Passed
    ensures { result ≡ unseen_of n }
{
    Passed {
        sound: true,
        requested: None,
        free: n,
        due: n,
    }
}

// What is noted of a call without an open request: whether it is sound. The places stay.
fn with_soundness(v: Passed, well: bool) -> Passed
    ensures { result ≡ with_soundness v well }
{
    Passed {
        sound: well & v.sound,
        requested: None,
        ..v
    }
}

// What is noted with the record at i, by cases: an incoming call with an open request,
fn note_open(v: Passed, c: Call, i: usize, q: Asked) -> Passed
    ensures { result ≡ passed_open q v c i }
{
    let p = request_of(c);
    let well = sound::sound_open(c, q.last);
    let due = due_with(v.due, p, i, q.by);
    Passed {
        requested: Some(c.identifier),
        due,
        ..with_soundness(v, well)
    }
}

// or no call.
fn note_free(v: Passed, c: Call, i: usize) -> Passed
    ensures { result ≡ passed_free v c i }
{
    let well = sound::sound_free(c);
    let free = free_with(v.free, c, i);
    Passed {
        free,
        ..with_soundness(v, well)
    }
}

// What is noted with the record at k. Each case reads the record once more: what it doesn't look at is then not loaded.
fn note_at(table: &[Call], k: usize, v: Passed, q: Asked) -> Passed
    requires { k < length table.now }
    ensures { result ≡ passed_with q v (get_or table.now k free_call) k }
{
    let head = slice::read(table, k);
    if head.direction == 2 {
        if head.cds == 1 {
            let c = slice::read(table, k);
            return note_open(v, c, k, q);
        } else {
            let c = slice::read(table, k);
            return with_soundness(v, sound::sound_incoming(c));
        }
    }
    if head.direction == 1 {
        if head.cdr == 1 {
            let c = slice::read(table, k);
            return with_soundness(v, sound::sound_waiting(c));
        } else {
            let c = slice::read(table, k);
            return with_soundness(v, sound::sound_outgoing(c));
        }
    }
    let c = slice::read(table, k);
    note_free(v, c, k)
}

// What the walk tells, of what it noted, how often a mark was set that was set before, and the marks.
fn summed(v: Passed, twice: u64, marks: [u64; 8], q: Asked) -> Noted
    ensures { result ≡ summed_of v (any_twice twice, marks) q }
{
    let m = marks::told(twice != 0, marks, q.pending, q.next);
    Noted {
        sound: v.sound,
        clash: m.clash,
        marked: m.marked,
        free: v.free,
        due: v.due,
    }
}

// What is told of the first n records of the table. The loop sets the marks itself: handed on with a record, they would be copied with each.
pub fn survey(table: &[Call], n: usize, q: Asked) -> Noted
    requires { n ≤ length table.now }
    ensures { result ≡ survey_of q n (take n table.now) }
{
    let mut v = unseen(n);
    let mut marks = [0u64; 8];
    let mut twice: u64 = 0;
    for k in (0..n).rev() {
        v = note_at(table, k, v, q);
        if let Some(identifier) = v.requested {
            let w = marks::word_of(identifier);
            let word = marks[w];
            twice += marks::count_in(word, identifier);
            marks[w] = marks::put_in(word, identifier);
        }
    }
    summed(v, twice, marks, q)
}
