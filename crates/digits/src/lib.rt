// Bytes and decimal numbers, written into a lent buffer.
#![tactic(auto)]

ghost use Rattle.std.specs.Prelude.{[], ◌∷◌, ◌+◌, ◌/◌, ◌%◌, ◌<◌, ◌≤◌, length};
ghost use Rattle.digits.specs.Digits.{digit, decimal};
ghost use Rattle.digits.specs.Written.{Written};
ghost use Rattle.digits.specs.Text.{HasRoom, Wrote};

// One byte.
// Stays: buffer and place apart here and in `write_decimal`; docs/PROMISES.md names both, and `Text` is built on them.
pub fn put(out: &mut [u8], at: usize, byte: u8) -> usize
    requires { at < length out.old }
    ensures { Written (byte ∷ []) at out.old out.new result }
{
    out[at] = byte;
    at + 1
}

// Two digits.
fn put_pair(out: &mut [u8], at: usize, n: u64) -> usize
    requires { (n < 100) × (at + 2 ≤ length out.old) }
    ensures { Written (digit (n / 10) ∷ digit (n % 10) ∷ []) at out.old out.new result }
{
    out[at] = b'0' + (n / 10) as u8;
    out[at + 1] = b'0' + (n % 10) as u8;
    at + 2
}

// A number in decimal, two digits at a time.
// Stays: digits by hand; `fmt` of std ensures nothing of the bytes that it writes.
#[tactic(auto, using(crate::proofs::Digits::decimal_one, crate::proofs::Digits::decimal_pair, crate::proofs::Digits::two_more))]
pub fn write_decimal(out: &mut [u8], at: usize, n: u64) -> usize
    requires { at + 20 ≤ length out.old }
    ensures { Written (decimal n) at out.old out.new result }
{
    if n < 10 {
        return put(out, at, b'0' + n as u8);
    }
    if n < 100 {
        return put_pair(out, at, n);
    }
    let next = write_decimal(out, at, n / 100);
    put_pair(out, next, n % 100)
}

// A lent buffer, and the place behind what is written in it.
#[derive(Drop)]
pub struct Text<'a> {
    pub out: &'a mut [u8],
    pub at: usize,
}

impl<'a> Text<'a> {
    pub fn put(&mut self, byte: u8)
        requires { HasRoom 1 self.old }
        ensures { Wrote 1 (byte ∷ []) self.old self.new }
    {
        self.at = put(self.out, self.at, byte);
    }

    // Bytes in a row.
    pub fn put_bytes(&mut self, bytes: &[u8])
        requires { HasRoom (length bytes.now) self.old }
        ensures { Wrote (length bytes.now) bytes.now self.old self.new }
    {
        let end = self.at + bytes.len();
        self.out[self.at..end].copy_from_slice(bytes);
        self.at = end;
    }

    // A number in decimal.
    #[tactic(auto, using(crate::proofs::Digits::decimal_64))]
    pub fn decimal(&mut self, n: u64)
        requires { HasRoom 20 self.old }
        ensures { Wrote 20 (decimal n) self.old self.new }
    {
        self.at = write_decimal(self.out, self.at, n);
    }
}
