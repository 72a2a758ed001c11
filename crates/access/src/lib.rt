// With what every call but Open and Read begins: for any record and memory of any length, the reasons that calls share.
#![tactic(auto)]

ghost use Rattle.std.specs.Prelude.{◌≡◌, []};
ghost use Rattle.study.specs.Refusals.{is_user, verdict_of};
ghost use Rattle.validity.specs.View.{seen};
ghost use Rattle.access.specs.Calls.{nobody, the_user};
ghost use Rattle.access.specs.Passed.{held_answer};

use study::{MAX_USERS, Refusal};
use validity::is_short;
use validity::view::View;

// With what a call begins that names no user: short memory (1), then what is no dataset (21).
pub fn check(view: View) -> Result<(), Refusal>
    ensures { verdict_of result ≡ held_answer (seen view.entry) nobody (λ _. []) }
{
    if is_short(view.distances, view.settings) {
        return Err(Refusal::ShortMemory);
    }
    if !view.is_dataset() {
        return Err(Refusal::NotDataset);
    }
    Ok(())
}

// Whether this is a user (document 02, 2.7: keeper).
fn is_user(user: u8) -> bool
    ensures { result ≡ is_user user }
{
    1 <= user && usize::from(user) <= MAX_USERS
}

// With what a call begins that names a user: short memory (1), a user who is none (14), then what is no dataset (21).
pub fn check_user(view: View, user: u8) -> Result<(), Refusal>
    ensures { verdict_of result ≡ held_answer (seen view.entry) (the_user user) (λ _. []) }
{
    if is_short(view.distances, view.settings) {
        return Err(Refusal::ShortMemory);
    }
    if !is_user(user) {
        return Err(Refusal::NoSuchUser);
    }
    check(view)
}
