// The plain rule of centres, tides counted from 0.
use crate::small::Small;

// The tides that are centres, in order; block m belongs to the m-th.
#[derive(Clone, Copy)]
pub struct Centres {
    pub count: u8,
    tides: [usize; 7],
}

impl Centres {
    // In tide order, a tide is a centre if it is farther than g from every earlier centre.
    pub fn at_radius(small: Small, g: u32) -> Centres {
        let mut found = Centres {
            count: 0,
            tides: [7; 7],
        };
        for t in 0..small.n {
            if found.all_farther(small, g, t) {
                found = found.with(t);
            }
        }
        found
    }

    // The centre of a block, the blocks counted from 0.
    pub fn tide(self, m: u8) -> Option<usize> {
        if self.count <= m {
            return None;
        }
        let tides = self.tides;
        tides.get(usize::from(m)).copied()
    }

    fn with(self, t: usize) -> Centres {
        let Centres { count, mut tides } = self;
        if 7 <= count {
            return self;
        }
        tides[usize::from(count)] = t;
        Centres {
            count: count + 1,
            tides,
        }
    }

    // How far a tide is from the centre of a block, the blocks numbered from 1; 0 where there is no such block.
    fn away(self, small: Small, t: usize, block: u8) -> u32 {
        if block < 1 {
            return 0;
        }
        match self.tide(block - 1) {
            Some(centre) => small.distance(t, centre),
            None => 0,
        }
    }

    // Whether a tide is farther than g from every centre so far.
    fn all_farther(self, small: Small, g: u32, t: usize) -> bool {
        (1..=self.count).all(|m| g < self.away(small, t, m))
    }

    // Whether a tide is at most g from the centre of a block, the blocks numbered from 1.
    pub fn near(self, small: Small, g: u32, t: usize, block: u8) -> bool {
        1 <= block && self.away(small, t, block) <= g
    }

    // Whether a tide prefers a block to another (document 02, 2.6): its centre is nearer, or equally near and its number lower.
    fn prefers(self, small: Small, t: usize, block: u8, other: u8) -> bool {
        let x = self.away(small, t, block);
        let y = self.away(small, t, other);
        x < y || x == y && block < other
    }

    // How many blocks a tide prefers to this one.
    fn preferred(self, small: Small, t: usize, block: u8) -> usize {
        (1..=self.count)
            .filter(|m| self.prefers(small, t, *m, block))
            .count()
    }

    // A tide's choice at a place, from 1: the block to which it prefers exactly place - 1 others.
    pub fn choice(self, small: Small, t: usize, place: u8) -> Option<u8> {
        let others = place.checked_sub(1)?;
        (1..=self.count).find(|m| self.preferred(small, t, *m) == usize::from(others))
    }
}
