// An event's 24 bytes, big-endian, read; what they say may be well made or not.
#![tactic(auto)]

ghost use Rattle.std.specs.Prelude.{◌≡◌, ◌+◌, ◌≤◌, length};
ghost use Rattle.wire.specs.Record.{event_at};

use event::Event;

// The event whose 24 bytes start at i.
#[tactic(auto, unfolding(crate::specs::Record::event_at))]
pub fn event_at(bytes: &[u8], i: usize) -> Event
    requires { i + 24 ≤ length bytes.now }
    ensures { result ≡ event_at bytes.now i }
{
    Event {
        kind: bytes[i],
        call: bytes[i + 1],
        leg: bytes[i + 2],
        message: bytes[i + 3],
        reason: bytes[i + 4],
        option: bytes[i + 5],
        counter: bytes[i + 6],
        flag: bytes[i + 7],
        identifier: ground::word_at(bytes, i + 8),
        first: ground::word_at(bytes, i + 10),
        second: ground::word_at(bytes, i + 12),
        third: ground::word_at(bytes, i + 14),
        time: ground::long_at(bytes, i + 16),
    }
}
