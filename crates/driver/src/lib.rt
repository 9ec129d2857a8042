// The driver of a table that it has by value: the board, and beside it what its records come to, so that no event walks through
// them. One event: find the place, read, decide, store. The test of the table is its maker's.
#![tactic(auto)]

ghost use Rattle.std.specs.Prelude.{◌≡◌, ◌≤◌, set};
ghost use Rattle.remote.specs.Rules.{step};
ghost use Rattle.station.specs.Step.{answer_of, far_answer};
ghost use Rattle.deed.specs.Deed.{acted_of, Doable};
ghost use Rattle.outcome.specs.Outcome.{station_on, station_far};
ghost use Rattle.driver.specs.Driver.{Drives, Reads};

use board::Board;
use event::{Event, Refusal};
use notes::Notes;
use sight::Seen;
use station::Answer;
use std::marker::Model;
use turn::DoneOn;

#[derive(Drop)]
pub struct Driver {
    board: Board,
    notes: Notes,
}

// Clauses see the board.
impl Model for Driver {
    ghost use Rattle.board.specs.declared.Board.{Board};
    ghost use Rattle.driver.specs.Kept.{Kept};

    ghost Value = { Board };

    ghost view = { λ d. d.board };

    ghost invariant = { λ d. Kept d.board d.notes };
}

impl Driver {
    // A board's driver: its records are summed up once.
    pub fn on(b: Board) -> Driver
        requires { b.len ≤ 64 }
        ensures { result ≡ b }
    {
        Driver {
            board: b,
            notes: notes::summed(b.calls, b.len),
        }
    }

    // The board as it stands.
    pub fn board(&self) -> Board
        ensures { result ≡ self.now }
    {
        self.board
    }

    // One event where the table was found sound: done, with its answer, or refused, and nothing has changed.
    pub fn play(&mut self, e: Event) -> Result<Answer, Refusal>
        ensures { Drives self.old e result self.new }
    {
        let place = board::place_on(e, self.notes.free, self.notes.soon, &self.notes.dues);
        let i = board::within(place, self.board.len);
        let c = self.board.calls[i];
        let identifier = draw::identifier_in(
            e,
            &self.notes.held,
            self.board.station.remote.pending,
            self.board.station.next,
        );
        let seen = Seen {
            len: self.board.len,
            place: place,
            identifier: identifier,
            call: c,
        };
        match turn::turned(self.board.station, e, seen)? {
            DoneOn::Held => Ok(self.on_held(e, identifier)),
            DoneOn::Record => Ok(self.on_record(e, seen)),
        }
    }

    // An event that is done on what the station holds.
    fn on_held(&mut self, e: Event, identifier: u16) -> Answer
        ensures answer { result ≡ far_answer (step self.old.station.remote e identifier) }
        ensures board { self.new ≡ record self.old { station = station_far self.old.station e identifier (step self.old.station.remote e identifier).remote } }
    {
        self.notes.soon = expiry::refresh(self.notes.soon, &self.notes.dues, e.time);
        let s = self.board.station;
        let m = follow::step(s.remote, e, identifier);
        self.board.station = outcome::station_far(s, e, identifier, m.remote);
        outcome::far_answer(m)
    }

    // An event that is done on the record at its place. It is read once more: what no test has looked at is loaded here, and only
    // for an event that is done.
    fn on_record(&mut self, e: Event, seen: Seen) -> Answer
        requires read { Reads self.old seen }
        requires doable { Doable e seen }
        ensures answer { result ≡ answer_of seen.place (acted_of e seen) }
        ensures board { self.new ≡ record self.old { station = station_on self.old.station e seen.identifier; calls = set self.old.calls seen.place (acted_of e seen).call } }
    {
        let i = seen.place;
        let again = self.board.calls[i];
        let x = deed::acted(
            e,
            Seen {
                call: again,
                ..seen
            },
        );
        let d = x.call;
        self.board.calls[i] = d;
        self.notes.free = bits::flip(self.notes.free, i, again.direction, d.direction);
        let due = expiry::quiet_until(d);
        self.notes.dues[i] = due;
        self.notes.soon = self.notes.soon.min(due);
        self.notes.held[i] = draw::held_by(d);
        // A station is 88 bytes: what changes of it is stored alone
        let s = outcome::station_on(self.board.station, e, seen.identifier);
        self.board.station.last = s.last;
        self.board.station.next = s.next;
        outcome::answer_of(i as u8, x)
    }
}
