// What Judge looks at in a list: its numbers, and the tides under each of them.
ghost use Rattle.std.specs.Prelude.{◌≡◌, ℕ, ◌≤◌, length};
ghost use Rattle.lists.specs.Lists.{between, every};
ghost use Rattle.study.specs.Problem.{block, labels};
ghost use Rattle.promise.specs.Met.{met};
ghost use Rattle.radius_search.specs.Tally.{Tallied};

use radius_search::counts::Tally;
use radius_theory::input::Study;

// Whether a number is 1 to 255; no byte is above. A function of its own, since its parameter is known to be a byte.
fn valid_number(x: u8) -> bool
    ensures { result ≡ between 1 255 x }
{
    x >= 1
}

// A list that gives each tide of a study the number of a block, whoever made it.
#[derive(Clone, Copy)]
pub struct Proposal<'a> {
    pub study: Study<'a>,
    pub list: &'a [u8],
    pub ghost long: { study.tides.n ≤ length list.now },
}

impl<'a> Proposal<'a> {
    // Whether every number is 1 to 255.
    pub fn numbers_valid(&self) -> bool
        ensures { result ≡ every self.now.study.tides.n (λ (t : ℕ). between 1 255 (labels self.now.list.now t)) }
    {
        self.list[..self.study.tides.n]
            .iter()
            .all(|number| valid_number(*number))
    }

    // Counts the tides under a number.
    fn tally_block(&self, number: u8) -> Tally
        ensures { let tides = self.now.study.tides in
            Tallied tides.settings.now (block (labels self.now.list.now) number) tides.n result.found result.by_setting }
    {
        let mut tally = Tally {
            found: 0,
            by_setting: [0; 9],
        };
        for t in 0..self.study.tides.n {
            tally.add(self.study.tides.settings[t], self.list[t] == number);
        }
        tally
    }

    // Whether the tides under a number meet the minima.
    fn block_meets(&self, number: u8) -> bool
        ensures { result ≡ met self.now.study.tides (block (labels self.now.list.now) number) }
    {
        self.tally_block(number).meets(self.study.tides.minima)
    }

    // Whether the tides under each number used meet the minima.
    pub fn blocks_meet(&self) -> bool
        ensures { let tides = self.now.study.tides in
            result ≡ every tides.n (λ (u : ℕ). met tides (block (labels self.now.list.now) (labels self.now.list.now u))) }
    {
        self.list[..self.study.tides.n]
            .iter()
            .all(|number| self.block_meets(*number))
    }
}
