// Open, Minima, Enter, Withdraw: for any record and memory of any length, the answer and what stands afterwards.
#![tactic(auto)]

ghost use Rattle.std.specs.Prelude.{◌≡◌, T};
ghost use Rattle.study.specs.Refusals.{is_user, verdict_of};
ghost use Rattle.validity.specs.Memory.{state_of};
ghost use Rattle.validity.specs.View.{seen};
ghost use Rattle.access.specs.Calls.{answer, after};
ghost use Rattle.access.specs.Passed.{Passed};
ghost use Rattle.dataset.specs.Calls.{opens_dataset, sets_minima, enters_tide, withdraws_tide};
ghost use Rattle.dataset.specs.Accepted.{tested_minima, EnterAccepted, WithdrawAccepted};

use duplicates::check_duplicate;
use study::{
    Dataset, MAX_K, MAX_SETTINGS, MAX_TIDES, MAX_USERS, MAX_WITHDRAWALS, Minima, Refusal,
    TABLE_SIZE,
};
use validity::is_short;
use validity::view::View;

// The dataset becomes empty, whatever it was.
pub fn open(
    dataset: &mut Dataset,
    distances: &mut [u32],
    settings: &mut [u8],
    k: u8,
) -> Result<(), Refusal>
    ensures answer { verdict_of result ≡ answer (state_of dataset.old distances.old settings.old) (opens_dataset k) }
    ensures leaves { state_of dataset.new distances.new settings.new ≡ after (state_of dataset.old distances.old settings.old) (opens_dataset k) }
{
    if is_short(distances, settings) {
        return Err(Refusal::ShortMemory);
    }
    if k < 1 {
        return Err(Refusal::SettingCount);
    }
    if MAX_K < k {
        return Err(Refusal::SettingCount);
    }
    storage::fill_front(distances, TABLE_SIZE, 0);
    storage::fill_front(settings, MAX_TIDES, 0);
    dataset.k = k;
    dataset.n = 0;
    dataset.minima = Minima {
        b0: 1,
        b: [0; MAX_SETTINGS],
    };
    dataset.withdrawn = [0; MAX_USERS];
    Ok(())
}

// The record as Minima understands it (document 02, 2.2). One whose b's are together above 120 stays: it is refused as it is.
fn understood(minima: Minima) -> Minima
    ensures { result ≡ tested_minima minima }
{
    let Minima { b0, b } = minima;
    let sum = validity::sum_minima(b);
    if MAX_TIDES < sum {
        return minima;
    }
    if b0 < 1 {
        return minima;
    }
    if sum <= usize::from(b0) {
        return minima;
    }
    Minima { b0: sum as u8, b }
}

// Replaces the minima by those understood. The memory is only read.
pub fn set_minima(
    dataset: &mut Dataset,
    distances: &[u32],
    settings: &[u8],
    minima: Minima,
) -> Result<(), Refusal>
    ensures answer { verdict_of result ≡ answer (state_of dataset.old distances.now settings.now) (sets_minima minima) }
    ensures leaves { state_of dataset.new distances.now settings.now ≡ after (state_of dataset.old distances.now settings.now) (sets_minima minima) }
{
    access::check(View {
        dataset: *dataset,
        distances,
        settings,
    })?;
    let taken = understood(minima);
    if !validity::valid_minima(taken, dataset.k) {
        return Err(Refusal::Minima);
    }
    dataset.minima = taken;
    Ok(())
}

// The reasons that Enter has of its own.
fn enter_answer(view: View, setting: u8, row: &[u32]) -> Result<(), Refusal>
    requires { Passed (seen view) }
    ensures { verdict_of result ≡ answer (seen view.entry) (enters_tide setting row.now) }
{
    let Dataset { k, n, .. } = view.dataset;
    if MAX_TIDES <= n {
        return Err(Refusal::Full);
    }
    if row.len() != n {
        return Err(Refusal::RowLength);
    }
    if setting < 1 {
        return Err(Refusal::Setting);
    }
    if k < setting {
        return Err(Refusal::Setting);
    }
    if !validity::row_in_range(row) {
        return Err(Refusal::Distance);
    }
    if let Some((i, j)) = triangle::first_violation(view.distances, row) {
        return Err(Refusal::TriangleInequality(i, j));
    }
    check_duplicate(view.settings, setting, row)
}

// What an accepted Enter makes of record and memory.
fn add_tide(
    dataset: &mut Dataset,
    distances: &mut [u32],
    settings: &mut [u8],
    setting: u8,
    row: &[u32],
)
    requires { EnterAccepted (state_of dataset.old distances.old settings.old) setting row.now }
    ensures { state_of dataset.new distances.new settings.new ≡ after (state_of dataset.old distances.old settings.old) (enters_tide setting row.now) }
{
    storage::put_row(distances, row);
    settings[dataset.n] = setting;
    dataset.n += 1;
}

// One more tide, with the next number, at the row's distances from the tides held.
pub fn enter(
    dataset: &mut Dataset,
    distances: &mut [u32],
    settings: &mut [u8],
    setting: u8,
    row: &[u32],
) -> Result<(), Refusal>
    ensures answer { verdict_of result ≡ answer (state_of dataset.old distances.old settings.old) (enters_tide setting row.now) }
    ensures leaves { state_of dataset.new distances.new settings.new
        ≡ after (state_of dataset.old distances.old settings.old) (enters_tide setting row.now) }
{
    let view = View {
        dataset: *dataset,
        distances,
        settings,
    };
    access::check(view)?;
    enter_answer(view, setting, row)?;
    add_tide(dataset, distances, settings, setting, row);
    Ok(())
}

// The reasons that Withdraw has of its own. Tides are numbered from 1.
fn withdraw_answer(view: View, user: u8, tide: u8) -> Result<(), Refusal>
    requires { Passed (seen view) × T (is_user user) }
    ensures { verdict_of result ≡ answer (seen view.entry) (withdraws_tide user tide) }
{
    let Dataset { n, withdrawn, .. } = view.dataset;
    if tide < 1 {
        return Err(Refusal::NoSuchTide);
    }
    if n < usize::from(tide) {
        return Err(Refusal::NoSuchTide);
    }
    if MAX_WITHDRAWALS <= withdrawn[user as usize - 1] {
        return Err(Refusal::WithdrawalLimit);
    }
    Ok(())
}

// What an accepted Withdraw makes of record and memory.
fn remove_tide(
    dataset: &mut Dataset,
    distances: &mut [u32],
    settings: &mut [u8],
    user: u8,
    tide: u8,
)
    requires { WithdrawAccepted (state_of dataset.old distances.old settings.old) user tide }
    ensures { state_of dataset.new distances.new settings.new ≡ after (state_of dataset.old distances.old settings.old) (withdraws_tide user tide) }
{
    let m = tide as usize - 1;
    storage::remove_row(distances, m);
    storage::remove_setting(settings, m);
    dataset.n -= 1;
    let place = user as usize - 1;
    dataset.withdrawn[place] += 1;
}

// The named tide goes, and later tides move down by one; the user's count goes up by one.
pub fn withdraw(
    dataset: &mut Dataset,
    distances: &mut [u32],
    settings: &mut [u8],
    user: u8,
    tide: u8,
) -> Result<(), Refusal>
    ensures answer { verdict_of result ≡ answer (state_of dataset.old distances.old settings.old) (withdraws_tide user tide) }
    ensures leaves { state_of dataset.new distances.new settings.new
        ≡ after (state_of dataset.old distances.old settings.old) (withdraws_tide user tide) }
{
    let view = View {
        dataset: *dataset,
        distances,
        settings,
    };
    access::check_user(view, user)?;
    withdraw_answer(view, user, tide)?;
    remove_tide(dataset, distances, settings, user, tide);
    Ok(())
}
