// What Centres, Block and Judge ask first.
ghost use Rattle.validity.specs.View.{seen};
ghost use Rattle.blocking.specs.Accepted.{TidesChecked};

use study::Refusal;
use validity::view::View;

// Ok where memory holds a valid dataset (1, 21) with a tide in it (24).
pub fn check_tides(view: View) -> Result<(), Refusal>
    ensures { TidesChecked (seen view.entry) result }
{
    access::check(view)?;
    if view.dataset.n < 1 {
        return Err(Refusal::NoTides);
    }
    Ok(())
}
