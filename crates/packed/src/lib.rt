// An effect with each message as two words: what the rules of fifteen kinds hand back is joined, and the compiler then joins six words where the
// messages have 33 fields.
#![tactic(auto)]

ghost use Rattle.std.specs.Prelude.{◌≡◌};
ghost use Rattle.packed.specs.Messages.{head_word, rest_word, words_of, message_of, packed_of, effect_of};

use call::{Call, Effect, Message, Sent};

// A message as it lies in memory, eight bytes a word.
#[derive(Clone, Copy)]
pub struct Words {
    pub head: u64,
    pub rest: u64,
}

#[derive(Clone, Copy)]
pub struct Packed {
    pub call: Call,
    pub first: Words,
    pub second: Words,
    pub third: Words,
    pub notice: u8,
    pub number: u16,
    pub identifier: u32,
    pub counter: u8,
}

// Stays: sums and not from_le_bytes, since five of the eleven fields have two bytes, which would be taken apart first.
fn head_word(m: Message) -> u64
    ensures { result ≡ head_word m }
{
    (m.letter as u64)
        + 256 * (m.leg as u64)
        + 65536 * (m.reason as u64)
        + 16777216 * (m.option as u64)
        + 4294967296 * (m.counter as u64)
        + 1099511627776 * (m.flag as u64)
        + 281474976710656 * (m.identifier as u64)
}

fn rest_word(m: Message) -> u64
    ensures { result ≡ rest_word m }
{
    (m.destination as u64)
        + 65536 * (m.diverting as u64)
        + 4294967296 * (m.original as u64)
        + 281474976710656 * (m.number as u64)
}

// The words of a message; the message of these words is itself.
impl From<Message> for Words {
    ghost from_gives = { λ m w. (w ≡ words_of m) × (message_of w ≡ m) };

    fn from(m: Message) -> Words {
        Words {
            head: head_word(m),
            rest: rest_word(m),
        }
    }
}

impl From<Words> for Message {
    ghost from_gives = { λ w m. m ≡ message_of w };

    fn from(w: Words) -> Message {
        let head = w.head;
        let rest = w.rest;
        Message {
            letter: (head % 256) as u8,
            leg: (head / 256 % 256) as u8,
            reason: (head / 65536 % 256) as u8,
            option: (head / 16777216 % 256) as u8,
            counter: (head / 4294967296 % 256) as u8,
            flag: (head / 1099511627776 % 256) as u8,
            identifier: (head / 281474976710656) as u16,
            destination: (rest % 65536) as u16,
            diverting: (rest / 65536 % 65536) as u16,
            original: (rest / 4294967296 % 65536) as u16,
            number: (rest / 281474976710656) as u16,
        }
    }
}

// The effect, packed; unpacked it is itself, which is said too since a caller doesn't know that each field fits its place in a word.
impl From<Effect> for Packed {
    ghost from_gives = { λ x p. (p ≡ packed_of x) × (effect_of p ≡ x) };

    fn from(x: Effect) -> Packed {
        Packed {
            call: x.call,
            first: Words::from(x.sent.first),
            second: Words::from(x.sent.second),
            third: Words::from(x.sent.third),
            notice: x.notice,
            number: x.number,
            identifier: x.identifier,
            counter: x.counter,
        }
    }
}

impl From<Packed> for Effect {
    ghost from_gives = { λ p x. x ≡ effect_of p };

    fn from(p: Packed) -> Effect {
        Effect {
            call: p.call,
            sent: Sent {
                first: Message::from(p.first),
                second: Message::from(p.second),
                third: Message::from(p.third),
            },
            notice: p.notice,
            number: p.number,
            identifier: p.identifier,
            counter: p.counter,
        }
    }
}
