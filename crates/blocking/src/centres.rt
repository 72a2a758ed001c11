// Centres at a radius, and each tide's nearest of them.
ghost use Rattle.std.specs.Prelude.{◌≡◌, ℕ, [], ◌∷◌, drop};
ghost use Rattle.study.specs.Refusals.{verdict_of};
ghost use Rattle.study.specs.Numbers.{refusal_number};
ghost use Rattle.validity.specs.View.{seen};
ghost use Rattle.access.specs.Calls.{answer, reply, lists_after};
ghost use Rattle.blocking.specs.Calls.{centre_lists, all_three, finds_centres, centres_front, counted_reply};

use crate::front::fill_lists;
use crate::tides::check_tides;
use study::Refusal;
use validity::view::View;

// The answer alone: nothing is written.
pub fn centres_answer(view: View, list: &[u8], nearest: &[u8], away: &[u32]) -> Result<(), Refusal>
    ensures { (g : ℕ) → verdict_of result ≡ answer (seen view.entry) (finds_centres g (centre_lists list.now nearest.now away.now)) }
{
    check_tides(view)?;
    let n = view.dataset.n;
    if list.len() < n {
        return Err(Refusal::ShortMemory);
    }
    if nearest.len() < n {
        return Err(Refusal::ShortMemory);
    }
    if away.len() < n {
        return Err(Refusal::ShortMemory);
    }
    Ok(())
}

// Centres, with the number of centres and the three lists settled: the centres, and for each tide the nearest centre's block number and its
// distance.
pub fn centres_into(
    view: View,
    g: u32,
    list: &mut [u8],
    nearest: &mut [u8],
    away: &mut [u32],
) -> Result<usize, Refusal>
    ensures answer { counted_reply result ≡ reply (seen view.entry) (finds_centres g (centre_lists list.old nearest.old away.old)) }
    ensures lists { all_three (centre_lists list.new nearest.new away.new)
        ≡ lists_after (seen view.entry) (finds_centres g (centre_lists list.old nearest.old away.old)) }
{
    centres_answer(view, list, nearest, away)?;
    Ok(fill_lists(view, g, list, nearest, away))
}

// Centres as document 01 asks for it: hands back the filled front of the caller's list, empty on a refusal, and leaves in `refusal` 0 or the
// refusal's number. The part handed back spends the list, so of the places after it nothing can be said here; `centres_into` settles them.
pub fn centres<'a>(
    view: View,
    g: u32,
    list: &'a mut [u8],
    nearest: &mut [u8],
    away: &mut [u32],
    refusal: &mut u8,
) -> &'a mut [u8]
    ensures front { result.ref_ptr ≡ list.entry.ref_ptr }
    ensures part { result.now ≡ centres_front (seen view.entry) g (centre_lists list.old nearest.old away.old) }
    ensures others { nearest.new ∷ away.new ∷ []
        ≡ drop 1 (lists_after (seen view.entry) (finds_centres g (centre_lists list.old nearest.old away.old))) }
    ensures refusal { refusal.new
        ≡ refusal_number (answer (seen view.entry) (finds_centres g (centre_lists list.old nearest.old away.old))) }
{
    let (count, number) = match centres_into(view, g, list, nearest, away) {
        Ok(count) => (count, 0),
        Err(why) => (0, why.number() as u8),
    };
    *refusal = number;
    &mut list[..count]
}
