// Which records of a table are free, as a number's binary digits: one bit alone, the lowest that is set, and the mask after a
// record's direction changed.
#![tactic(auto)]

ghost use Rattle.std.specs.Prelude.{◌≡◌, ◌+◌, ◌-◌, ◌^◌, ◌≤◌, ◌<◌, eqb};
ghost use Rattle.std.specs.Int.Count.{count_trailing_zeros};
ghost use Rattle.bits.specs.Mask.{weigh};

// A number with bit i alone.
pub fn bit(i: usize) -> u64
    requires { i < 64 }
    ensures { result ≡ 2 ^ i }
{
    1u64 << i
}

// The lowest place whose bit is set; 64 where none is.
// Stays: 64 for none, as trailing_zeros of the library has it and the contract promises.
pub fn lowest(mask: u64) -> usize
    ensures { result ≡ count_trailing_zeros 64 mask }
{
    u64::trailing_zeros(mask) as usize
}

// The mask of free records after the record at i changed its direction.
pub fn flip(mask: u64, i: usize, was: u8, is: u8) -> u64
    requires { (i < 64) × (weigh (eqb was 0) i ≤ mask) × (mask + weigh (eqb is 0) i < 18446744073709551616 + weigh (eqb was 0) i) }
    ensures { result ≡ mask + weigh (eqb is 0) i - weigh (eqb was 0) i }
{
    if was == 0 {
        if is == 0 {
            return mask;
        }
        return mask - bit(i);
    }
    if is == 0 {
        return mask + bit(i);
    }
    mask
}
