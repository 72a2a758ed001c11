// What the calls write into lent memory.
#![tactic(auto)]

ghost use Rattle.std.specs.Prelude.{◌≡◌, ◌≤◌, ◌<◌, ◌++◌, length, take, drop};
ghost use Rattle.lists.specs.Lists.{overwrite};
ghost use Rattle.study.specs.Limits.{max_tides, table_size};
ghost use Rattle.study.specs.Calls.{skip};
ghost use Rattle.storage.specs.Places.{with_row, moved_distance, moved_setting};

use study::{MAX_TIDES, TABLE_SIZE};

// The first `count` places hold x.
pub fn fill_front<T: Copy>(places: &mut [T], count: usize, x: T)
    requires { count ≤ length places.old }
    ensures { places.new ≡ overwrite count (λ _. x) places.old }
{
    for i in 0..count {
        places[i] = x;
    }
}

// The first `count` places hold what they hold in another list.
pub fn copy_front<T: Copy>(places: &mut [T], from: &[T], count: usize)
    requires { (count ≤ length places.old) × (count ≤ length from.now) }
    ensures { places.new ≡ take count from.now ++ drop count places.old }
{
    // place by place: copy_from_slice tests for lists that overlap, and calls memmove
    for place in 0..count {
        places[place] = from[place];
    }
}

// The distances of a new tide with those before it, both ways: its row and its column.
pub fn put_row(distances: &mut [u32], row: &[u32])
    requires table_size_in_bounds { table_size ≤ length distances.old }
    requires row_len_bound { length row.now < max_tides }
    ensures { distances.new ≡ with_row row.now (length row.now) distances.old }
{
    let n = row.len();
    for i in 0..n {
        let x = row[i];
        distances[n * MAX_TIDES + i] = x;
        distances[i * MAX_TIDES + n] = x;
    }
}

// The number that tide t had before tide m went.
fn number_before(m: usize, t: usize) -> usize
    requires { t < max_tides }
    ensures { (result ≡ skip m t) × (result ≤ max_tides) }
{
    if t < m { t } else { t + 1 }
}

// What place p holds once tide m is gone.
fn moved_distance(distances: &[u32], m: usize, p: usize) -> u32
    requires table_size_in_bounds { table_size ≤ length distances.now }
    requires p_lt_table_size { p < table_size }
    ensures { result ≡ moved_distance distances.now m p }
{
    let i = number_before(m, p / MAX_TIDES);
    let j = number_before(m, p % MAX_TIDES);
    if MAX_TIDES <= i {
        return 0;
    }
    if MAX_TIDES <= j {
        return 0;
    }
    distances[i * MAX_TIDES + j]
}

// What setting t is once tide m is gone.
fn moved_setting(settings: &[u8], m: usize, t: usize) -> u8
    requires max_tides_in_bounds { max_tides ≤ length settings.now }
    requires t_lt_max_tides { t < max_tides }
    ensures { result ≡ moved_setting settings.now m t }
{
    let i = number_before(m, t);
    if MAX_TIDES <= i {
        return 0;
    }
    settings[i]
}

// Tide m's row and column go, and those after it move down by one.
pub fn remove_row(distances: &mut [u32], m: usize)
    requires { table_size ≤ length distances.old }
    ensures { distances.new ≡ overwrite table_size (moved_distance distances.old m) distances.old }
{
    for p in 0..TABLE_SIZE {
        distances[p] = moved_distance(distances, m, p);
    }
}

// Tide m's setting goes, and those after it move down by one.
pub fn remove_setting(settings: &mut [u8], m: usize)
    requires { max_tides ≤ length settings.old }
    ensures { settings.new ≡ overwrite max_tides (moved_setting settings.old m) settings.old }
{
    for i in 0..MAX_TIDES {
        settings[i] = moved_setting(settings, m, i);
    }
}
