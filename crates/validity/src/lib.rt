// Reason 21: whether a record and memory are a dataset. Each function is one test of specs/Memory.antt.
// A dataset (document 01: book) is a record and lent memory: 14,400 distances in rows of 120, and 120 setting bytes.
#![tactic(auto)]

ghost use Rattle.std.specs.Prelude.{◌≡◌, true, false, cond, ◌≤◌, ◌<◌, leb, ltb, eqb, length, get_or};
ghost use Rattle.lists.specs.Lists.{every, sum_below};
ghost use Rattle.study.specs.Limits.{max_tides, table_size, max_distance, max_settings};
ghost use Rattle.study.specs.Study.{valid_minima};
ghost use Rattle.validity.specs.Memory.{is_too_short, valid_setting, valid_place, valid_row};

use study::{MAX_BLOCK_MINIMUM, MAX_DISTANCE, MAX_SETTINGS, MAX_TIDES, Minima, TABLE_SIZE};

pub mod view;

// Place i of the settings of n tides.
#[tactic(auto, unfolding(crate::specs::Memory::valid_setting))]
fn valid_setting(k: u8, n: usize, settings: &[u8], i: usize) -> bool
    requires { i < length settings.now }
    ensures { result ≡ valid_setting k n settings.now i }
{
    let x = settings[i];
    if i < n { 1 <= x && x <= k } else { x == 0 }
}

// All places of the settings.
#[tactic(auto, using(lists::proofs::Scans::scanning))]
pub(crate) fn valid_settings(k: u8, n: usize, settings: &[u8]) -> bool
    requires { max_tides ≤ length settings.now }
    ensures { result ≡ every max_tides (valid_setting k n settings.now) }
{
    for i in 0..MAX_TIDES {
        if !valid_setting(k, n, settings, i) {
            return false;
        }
    }
    true
}

// Place j of row i of the distances of n tides.
#[tactic(auto, unfolding(crate::specs::Memory::valid_place))]
fn valid_place(n: usize, distances: &[u32], i: usize, j: usize) -> bool
    requires table_size_in_bounds { table_size ≤ length distances.now }
    requires i_lt_max_tides { (i < max_tides) × (j < max_tides) }
    ensures { result ≡ valid_place n distances.now i j }
{
    let x = distances[i * MAX_TIDES + j];
    if n <= i || n <= j {
        return x == 0;
    }
    x <= MAX_DISTANCE && x == distances[j * MAX_TIDES + i] && (i != j || x == 0)
}

// Row i of the memory.
#[tactic(auto, using(lists::proofs::Scans::scanning))]
fn valid_places(n: usize, distances: &[u32], i: usize) -> bool
    requires table_size_in_bounds { table_size ≤ length distances.now }
    requires i_lt_max_tides { i < max_tides }
    ensures { result ≡ every max_tides (valid_place n distances.now i) }
{
    for j in 0..MAX_TIDES {
        if !valid_place(n, distances, i, j) {
            return false;
        }
    }
    true
}

// All rows of the memory.
#[tactic(auto, using(lists::proofs::Scans::scanning))]
pub(crate) fn valid_distances(n: usize, distances: &[u32]) -> bool
    requires { table_size ≤ length distances.now }
    ensures { result ≡ every max_tides (λ i. every max_tides (valid_place n distances.now i)) }
{
    for i in 0..MAX_TIDES {
        if !valid_places(n, distances, i) {
            return false;
        }
    }
    true
}

// Whether tide t obeys the triangle inequality with every pair before it: its row in memory is searched as Enter searches a new one.
fn valid_row(distances: &[u32], t: usize) -> bool
    requires table_size_in_bounds { table_size ≤ length distances.now }
    requires t_lt_max_tides { t < max_tides }
    ensures { result ≡ valid_row distances.now t }
{
    let from = t * MAX_TIDES;
    let to = from + t;
    triangle::first_violation(distances, &distances[from..to]).is_none()
}

// All rows of n tides.
#[tactic(auto, using(lists::proofs::Scans::scanning))]
pub(crate) fn valid_rows(distances: &[u32], n: usize) -> bool
    requires table_size_in_bounds { table_size ≤ length distances.now }
    requires n_le_max_tides { n ≤ max_tides }
    ensures { result ≡ every n (valid_row distances.now) }
{
    for t in 0..n {
        if !valid_row(distances, t) {
            return false;
        }
    }
    true
}

// A minimum of a setting above k is 0.
fn zero_above(b: [u8; MAX_SETTINGS], k: u8, j: usize) -> bool
    requires { j < max_settings }
    ensures { result ≡ cond (ltb j k) true (eqb (get_or b j 0) 0) }
{
    j < usize::from(k) || b[j] == 0
}

// All minima of settings above k are 0.
#[tactic(auto, using(lists::proofs::Scans::scanning))]
fn zeros_above(b: [u8; MAX_SETTINGS], k: u8) -> bool
    ensures { result ≡ every max_settings (λ j. cond (ltb j k) true (eqb (get_or b j 0) 0)) }
{
    for j in 0..MAX_SETTINGS {
        if !zero_above(b, k, j) {
            return false;
        }
    }
    true
}

// The b's together, with room for all of them.
pub fn sum_minima(b: [u8; MAX_SETTINGS]) -> usize
    ensures { result ≡ sum_below max_settings (λ j. get_or b j 0) }
{
    let mut total = 0;
    for j in 0..MAX_SETTINGS {
        total += usize::from(b[j]);
    }
    total
}

// Reason 3 of Read, and Minima's of the record as it is understood.
pub fn valid_minima(minima: Minima, k: u8) -> bool
    ensures { result ≡ valid_minima k minima }
{
    let Minima { b0, b } = minima;
    if b0 < 1 {
        return false;
    }
    if MAX_BLOCK_MINIMUM < b0 {
        return false;
    }
    if usize::from(b0) < sum_minima(b) {
        return false;
    }
    zeros_above(b, k)
}

// Whether every distance of a row is at most 1,048,575.
#[tactic(auto, using(lists::proofs::Scans::scanning))]
pub fn row_in_range(row: &[u32]) -> bool
    ensures { result ≡ every (length row.now) (λ i. leb (get_or row.now i 0) max_distance) }
{
    for x in row {
        if MAX_DISTANCE < *x {
            return false;
        }
    }
    true
}

// Reason 1 of every call: memory that has room for no dataset.
pub fn is_short(distances: &[u32], settings: &[u8]) -> bool
    ensures short { result ≡ is_too_short distances.now settings.now }
    ensures fits { result ≡ false → (table_size ≤ length distances.now) × (max_tides ≤ length settings.now) }
{
    distances.len() < TABLE_SIZE || settings.len() < MAX_TIDES
}
