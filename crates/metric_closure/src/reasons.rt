// The tests of reasons 6 and 13.
ghost use Rattle.std.specs.Prelude.{◌≡◌, ◌<◌, length};
ghost use Rattle.metric_closure.specs.Call.{in_range, symmetric_row, symmetric_table};

use crate::square::Square;
use study::MAX_DISTANCE;

// Whether each number is at most 1,048,575.
pub fn in_range(table: &[u32]) -> bool
    ensures { result ≡ in_range (length table.now) table.now }
{
    table.iter().all(|distance| *distance <= MAX_DISTANCE)
}

impl Square<'_> {
    // Whether tide i is at 0 from itself and as far from each tide before it as they are from it.
    fn is_row_symmetric(&self, i: usize) -> bool
        requires { i < self.now.n }
        ensures { result ≡ symmetric_row self.now.n self.now.places.now i }
    {
        for j in 0..i {
            if self.distance(i, j) != self.distance(j, i) {
                return false;
            }
        }
        self.distance(i, i) == 0
    }

    // Whether the whole table is the same both ways, with 0 from each tide to itself.
    pub fn is_symmetric(&self) -> bool
        ensures { result ≡ symmetric_table self.now.n self.now.places.now }
    {
        for i in 0..self.n {
            if !self.is_row_symmetric(i) {
                return false;
            }
        }
        true
    }
}
