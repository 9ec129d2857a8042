// The fields of an event of kinds 16 to 31, which concern what the station holds and no call.
#![tactic(auto)]

ghost use Rattle.std.specs.Prelude.{◌≡◌, not, eqb};
ghost use Rattle.ground.specs.Choice.{exactly, only};
ghost use Rattle.event.specs.Remote.{asks, invokes, type_fits, has_destination, others_zero, remote_fields};

use event::Event;

fn type_fits(e: Event) -> bool
    ensures { result ≡ type_fits e }
{
    if matches!(e.kind, 16..=23) & (e.kind % 4 != 3) {
        return matches!(e.reason, 1..=3);
    }
    e.reason == 0
}

fn others_zero(e: Event) -> bool
    ensures { result ≡ others_zero e }
{
    (e.call == 0)
        & (e.leg == 0)
        & (e.message == 0)
        & (e.option == 0)
        & (e.counter == 0)
        & (e.flag == 0)
        & (e.third == 0)
}

fn first_fits(e: Event) -> bool
    ensures { result ≡ exactly (invokes e) (not (eqb e.first 0)) }
{
    matches!(e.kind, 16..=23) == (e.first != 0)
}

fn second_fits(e: Event) -> bool
    ensures { result ≡ exactly (has_destination e) (not (eqb e.second 0)) }
{
    matches!(e.kind, 16 | 20 | 26) == (e.second != 0)
}

fn identifier_fits(e: Event) -> bool
    ensures { result ≡ only (asks e) (eqb e.identifier 0) }
{
    !matches!(e.kind, 16..=19) | (e.identifier == 0)
}

// The fields of an event of kinds 16 to 31 are as the page says.
#[tactic(auto, unfolding(event::specs::Remote::remote_fields))]
pub fn remote_fields(e: Event) -> bool
    ensures { result ≡ remote_fields e }
{
    others_zero(e) & first_fits(e) & type_fits(e) & second_fits(e) & identifier_fits(e)
}
