// The two ends of reading a plan's text: nothing is read yet, and how many numbers of the lent plan are those of panels.
#![tactic(auto)]

ghost use Rattle.std.specs.Prelude.{◌≡◌};
ghost use Rattle.plantext.specs.Text.{beginning, panels_read, numbers_lent};

use plantext::Reading;

// Nothing is read yet.
pub fn begin() -> Reading
    ensures { result ≡ beginning }
{
    Reading {
        line: 1,
        ..Reading::default()
    }
}

// How many panels were read; those without room count too.
fn panels_read(r: Reading) -> usize
    ensures { result ≡ panels_read r }
{
    r.line.saturating_sub(2)
}

// How many numbers of a plan with so much room are theirs.
pub fn numbers_lent(r: Reading, room: usize) -> usize
    ensures { result ≡ numbers_lent r room }
{
    panels_read(r).min(room / 4) * 4
}
