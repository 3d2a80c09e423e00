// What every call but the fresh-table maker tests first: that the tables lent are as stated, and sound.
#![tactic(auto)]

ghost use Rattle.std.specs.Prelude.{◌≡◌, ◌^◌, ◌≤◌};
ghost use Rattle.refusals.specs.Numbers.{number_of};
ghost use Rattle.guard.specs.Guard.{sound_number};

use refusals::Refusal;
use tables::{Shape, TablesView};

// Refused where heaps, spans or a length is not as stated, and where the table is unsound.
pub fn check(shape: &Shape, view: &TablesView) -> Result<(), Refusal>
    requires { shape.now.most ≤ 2 ^ 32 }
    ensures { number_of result ≡ sound_number shape.now view.now }
{
    if !fresh::as_stated(shape, view) {
        return Err(Refusal::NotAsStated);
    }
    if !sound_check::is_sound(shape, view) {
        return Err(Refusal::Unsound);
    }
    Ok(())
}
