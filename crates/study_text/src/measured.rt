// A tide as it was measured: its distances may break the triangle inequality, and it may be a duplicate.
ghost use Rattle.std.specs.Prelude.{◌≡◌};
ghost use Rattle.study.specs.Refusals.{verdict_of, first_of};
ghost use Rattle.validity.specs.Memory.{state_of, study_of};
ghost use Rattle.validity.specs.View.{seen};
ghost use Rattle.study.specs.Calls.{measured_reasons};
ghost use Rattle.study_text.specs.Reached.{Measuring, Took};

use crate::Rule;
use study::{Dataset, MAX_TIDES, Refusal};
use validity::row_in_range;
use validity::view::View;

// Enter's reasons but for the triangle inequality and duplicates.
fn measured_answer(view: View, setting: u32, row: &[u32]) -> Result<(), Refusal>
    ensures { verdict_of result ≡ first_of (measured_reasons (study_of (seen view.entry)) setting row.now) }
{
    let Dataset { k, n, .. } = view.dataset;
    if MAX_TIDES <= n {
        return Err(Refusal::Full);
    }
    if row.len() != n {
        return Err(Refusal::RowLength);
    }
    if setting < 1 {
        return Err(Refusal::Setting);
    }
    if u32::from(k) < setting {
        return Err(Refusal::Setting);
    }
    if !row_in_range(row) {
        return Err(Refusal::Distance);
    }
    Ok(())
}

// One more tide, with the next number. Its distances go to its own row only, which is all that a study is read from.
pub fn measure(
    dataset: &mut Dataset,
    distances: &mut [u32],
    settings: &mut [u8],
    setting: u32,
    row: &[u32],
) -> Result<(), Refusal>
    requires { Measuring (state_of dataset.old distances.old settings.old) }
    ensures { Took Rule.Measured (state_of dataset.old distances.old settings.old) setting row.now
        result (state_of dataset.new distances.new settings.new) }
{
    let view = View {
        dataset: *dataset,
        distances,
        settings,
    };
    measured_answer(view, setting, row)?;
    let n = dataset.n;
    let from = n * MAX_TIDES;
    distances[from..from + n].copy_from_slice(row);
    settings[n] = setting as u8;
    dataset.n = n + 1;
    Ok(())
}
