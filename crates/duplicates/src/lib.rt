// The last of Enter's reasons (document 02, 2.8): a duplicate (twin), a tide at distance 0 from a tide of its setting.
#![tactic(auto)]

ghost use Rattle.std.specs.Prelude.{◌≡◌, ◌≤◌, ◌<◌, length};
ghost use Rattle.study.specs.Refusals.{verdict_of};
ghost use Rattle.duplicates.specs.Scan.{duplicate_of, duplicate_answer};

use study::Refusal;

// Whether tide i is at distance 0 from the new one and of its setting.
#[tactic(auto, unfolding(crate::specs::Scan::duplicate_of))]
fn is_duplicate_of(settings: &[u8], setting: u8, row: &[u32], i: usize) -> bool
    requires { (i < length settings.now) × (i < length row.now) }
    ensures { result ≡ duplicate_of settings.now setting row.now i }
{
    row[i] == 0 && settings[i] == setting
}

// Refused where one of the tides is, to which the row has the distances.
pub fn check_duplicate(settings: &[u8], setting: u8, row: &[u32]) -> Result<(), Refusal>
    requires { length row.now ≤ length settings.now }
    ensures { verdict_of result ≡ duplicate_answer settings.now setting row.now }
{
    for i in 0..row.len() {
        if is_duplicate_of(settings, setting, row, i) {
            return Err(Refusal::Duplicate);
        }
    }
    Ok(())
}
