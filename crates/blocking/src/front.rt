// What an accepted Centres writes.
ghost use Rattle.std.specs.Prelude.{◌≡◌, ℕ, ◌+◌, ◌≤◌, length, slice_index};
ghost use Rattle.lists.specs.Lists.{overwrite};
ghost use Rattle.validity.specs.View.{seen};
ghost use Rattle.access.specs.Calls.{lists_after};
ghost use Rattle.blocking.specs.Calls.{centre_lists, all_three, finds_centres, centres_front};
ghost use Rattle.blocking.specs.Accepted.{CentresAccepted};

use crate::input::study_of;
use nearest_centre::put_nearest;
use radius_search::centres::find_centres;
use radius_theory::centres::Centres;
use validity::view::View;

// Writes the centres to the front of the list, as tide numbers from 1.
pub fn put_centres(centres: &Centres, list: &mut [u8])
    requires { centres.now.count ≤ length list.old }
    ensures { list.new ≡ overwrite centres.now.count (λ (i : ℕ). slice_index centres.now.tides i + 1) list.old }
{
    for i in 0..centres.count {
        list[i] = centres.tides[i] + 1;
    }
}

// What an accepted call writes, and the number of centres.
pub fn fill_lists(
    view: View,
    g: u32,
    list: &mut [u8],
    nearest: &mut [u8],
    away: &mut [u32],
) -> usize
    requires { CentresAccepted (seen view) (centre_lists list.old nearest.old away.old) }
    ensures value { result ≡ length (centres_front (seen view.entry) g (centre_lists list.old nearest.old away.old)) }
    ensures away_value { all_three (centre_lists list.new nearest.new away.new)
        ≡ lists_after (seen view.entry) (finds_centres g (centre_lists list.old nearest.old away.old)) }
{
    let study = study_of(view);
    let centres = find_centres(&study, g);
    put_centres(&centres, list);
    put_nearest(&centres, nearest, away);
    centres.count
}
