// Bytes of a slice: numbers of several, big-endian, at any place; and some moved to its start.
#![tactic(auto)]

ghost use Rattle.std.specs.Prelude.{◌≡◌, ◌+◌, ◌≤◌, length, drop};
ghost use Rattle.std.proofs.Math.Seq.{paste};
ghost use Rattle.ground.specs.Bytes.{word_at, long_at};

pub fn word_at(bytes: &[u8], i: usize) -> u16
    requires { i + 2 ≤ length bytes.now }
    ensures { result ≡ word_at bytes.now i }
{
    u16::from_be_bytes([bytes[i], bytes[i + 1]])
}

pub fn long_at(bytes: &[u8], i: usize) -> u64
    requires { i + 8 ≤ length bytes.now }
    ensures { result ≡ long_at bytes.now i }
{
    u64::from_be_bytes([
        bytes[i],
        bytes[i + 1],
        bytes[i + 2],
        bytes[i + 3],
        bytes[i + 4],
        bytes[i + 5],
        bytes[i + 6],
        bytes[i + 7],
    ])
}

// Moves bytes of a buffer to its start: those of a record that the next piece completes.
pub fn carry(buffer: &mut [u8], from: usize, count: usize)
    requires { from + count ≤ length buffer.old }
    ensures { buffer.new ≡ paste buffer.old 0 (drop from buffer.old) count }
{
    buffer.copy_within(from..from + count, 0);
}
