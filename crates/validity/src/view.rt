// A record and lent memory, as a call that only reads is given them.
ghost use Rattle.std.specs.Prelude.{◌≡◌, ◌≤◌, length};
ghost use Rattle.study.specs.Limits.{max_tides, table_size};
ghost use Rattle.validity.specs.Memory.{is_study, is_dataset};
ghost use Rattle.validity.specs.View.{seen};

use crate::{valid_distances, valid_minima, valid_rows, valid_settings};
use study::{Dataset, MAX_K, MAX_TIDES};

// The record, and memory of any length.
#[derive(Clone, Copy)]
pub struct View<'a> {
    pub dataset: Dataset,
    pub distances: &'a [u32],
    pub settings: &'a [u8],
}

impl View<'_> {
    // Whether k, n, minima and memory, which is not short, are those of a study.
    pub fn is_study(self) -> bool
        requires table_size_in_bounds { table_size ≤ length self.distances.now }
        requires max_tides_in_bounds { max_tides ≤ length self.settings.now }
        ensures { result ≡ is_study (seen self.entry) }
    {
        let Dataset { k, n, minima, .. } = self.dataset;
        if k < 1 {
            return false;
        }
        if MAX_K < k {
            return false;
        }
        if MAX_TIDES < n {
            return false;
        }
        if !valid_minima(minima, k) {
            return false;
        }
        if !valid_settings(k, n, self.settings) {
            return false;
        }
        if !valid_distances(n, self.distances) {
            return false;
        }
        valid_rows(self.distances, n)
    }

    // Reason 21, of memory that is not short. Counts of 16 bits are in range, so the study decides.
    pub fn is_dataset(self) -> bool
        requires table_size_in_bounds { table_size ≤ length self.distances.now }
        requires max_tides_in_bounds { max_tides ≤ length self.settings.now }
        ensures { result ≡ is_dataset (seen self.entry) }
    {
        self.is_study()
    }
}
