// The identifiers of our callRerouting requests: 1 to 65,535.
#![tactic(auto)]

ghost use Rattle.std.specs.Prelude.{◌≡◌};
ghost use Rattle.identifier.specs.Identifier.{after};

// The identifier after one: 0 is none of ours, and the sum that wraps to it goes on to 1.
pub fn next_after(identifier: u16) -> u16
    ensures { result ≡ after identifier }
{
    let sum = identifier.wrapping_add(1);
    if sum == 0 { 1 } else { sum }
}
