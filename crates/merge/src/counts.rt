// Each user's withdrawals in both datasets together.
ghost use Rattle.std.specs.Prelude.{◌≡◌, ℕ, ◌+◌, ◌≤◌, ◌<◌};
ghost use Rattle.lists.specs.Lists.{at};
ghost use Rattle.study.specs.Limits.{max_users, max_withdrawals};
ghost use Rattle.merge.specs.Merge.{added_counts, countable};

use study::{MAX_USERS, MAX_WITHDRAWALS};

// Whether no sum is above 65,535.
pub fn counts_fit(v: [u16; MAX_USERS], w: [u16; MAX_USERS]) -> bool
    ensures { result ≡ countable (added_counts v w) }
{
    for i in 0..MAX_USERS {
        if MAX_WITHDRAWALS - v[i] < w[i] {
            return false;
        }
    }
    true
}

// The sums.
pub fn added_counts(v: [u16; MAX_USERS], w: [u16; MAX_USERS]) -> [u16; MAX_USERS]
    requires { (i : ℕ) → i < max_users → at v i + at w i ≤ max_withdrawals }
    ensures { result ≡ added_counts v w }
{
    let mut sums = [0u16; MAX_USERS];
    for i in 0..MAX_USERS {
        sums[i] = v[i] + w[i];
    }
    sums
}
