// A table of n rows of n, and its places.
ghost use Rattle.std.specs.Prelude.{◌≡◌, ◌+◌, ◌*◌, ◌-◌, ◌≤◌, ◌<◌, take, drop};
ghost use Rattle.study.specs.Limits.{max_tides, table_size};
ghost use Rattle.metric_closure.specs.Call.{entry};
ghost use Rattle.metric_closure.specs.Tables.{Fits};

// Where row i begins.
pub fn row_start(n: usize, i: usize) -> usize
    requires n_le_max_tides { n ≤ max_tides }
    requires i_lt_n { i < n }
    ensures { (result ≡ i * n) × (result + n ≤ n * n) × (result ≤ table_size) }
{
    i * n
}

// The distances of n tides, of at most 120: the first n rows of n places.
#[derive(Clone, Copy)]
pub struct Square<'a> {
    pub n: usize,
    pub places: &'a [u32],
    pub ghost fits: { Fits n places.now },
}

impl<'a> Square<'a> {
    // The distance of two tides.
    pub fn distance(&self, i: usize, j: usize) -> u32
        requires { (i < self.now.n) × (j < self.now.n) }
        ensures { result ≡ entry self.now.n self.now.places.now i j }
    {
        let start = row_start(self.n, i);
        self.places[start + j]
    }

    // Tide i's distances from the tides before it.
    pub fn before(&self, i: usize) -> &'a [u32]
        requires { i < self.now.n }
        ensures { result.now ≡ take (i * self.now.n + i - i * self.now.n) (drop (i * self.now.n) self.now.places.now) }
    {
        let start = row_start(self.n, i);
        &self.places[start..start + i]
    }
}
