// Tides counted by their settings, against the minima.
ghost use Rattle.std.specs.Prelude.{◌≡◌, ◌+◌, length, get_or, set};
ghost use Rattle.lists.specs.Lists.{bit};
ghost use Rattle.radius_search.specs.Tally.{TallyRoom, met};

use study::{MAX_SETTINGS, Minima};

// How many tides are found, and how many of them have each setting; place 0 of the counts by setting is unused.
#[derive(Clone, Copy)]
pub struct Tally {
    pub found: usize,
    pub by_setting: [usize; 9],
}

impl Tally {
    // Counts a tide of this setting where it is `found`, and changes nothing where not: a loop over tides has no branch.
    pub fn add(&mut self, setting: u8, found: bool)
        requires { TallyRoom setting self.old.found self.old.by_setting }
        ensures found { self.new.found ≡ self.old.found + bit found }
        ensures by_setting { self.new.by_setting ≡ set self.old.by_setting setting (get_or self.old.by_setting setting 0 + bit found) }
    {
        let one = usize::from(found);
        self.by_setting[usize::from(setting)] += one;
        self.found += one;
    }

    // Whether so many tides, of which each setting has so many, meet the minima.
    pub fn meets(&self, minima: Minima) -> bool
        ensures { result ≡ met minima self.now.found self.now.by_setting }
    {
        if self.found < usize::from(minima.b0) {
            return false;
        }
        for j in 0..MAX_SETTINGS {
            if self.by_setting[j + 1] < usize::from(minima.b[j]) {
                return false;
            }
        }
        true
    }
}
