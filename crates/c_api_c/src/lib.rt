// The calls of c_api as C links them, each with the whole contract of the call that it makes. include/tides.h declares them.
#![tactic(auto)]

ghost use Rattle.std.specs.Prelude.{◌≡◌, false};
ghost use Rattle.access.specs.Calls.{first_list};
ghost use Rattle.dataset.specs.Calls.{opens_dataset, sets_minima, enters_tide, withdraws_tide};
ghost use Rattle.study_file.specs.Calls.{reads_file, writes_file};
ghost use Rattle.blocking.specs.Calls.{centre_lists, all_three, finds_centres, makes_blocks, judges_list};
ghost use Rattle.c_records.specs.Record.{lent, minima_at, code};
ghost use Rattle.c_api.specs.Api.{lacks, c_verdict, c_left, c_output, c_result, places, blocks_verdict, blocks_left};
ghost use Rattle.c_api.specs.Api.{mend_verdict, mend_table, mend_result, lacks_either, merge_of};
ghost use Rattle.priced_blocks.specs.Calls.{prices_blocks};

// Open: an empty dataset with k settings.
#[unsafe(no_mangle)]
pub extern "C" fn tides_open(
    numbers: &mut [u16],
    distances: &mut [u32],
    settings: &mut [u8],
    k: u32,
) -> u32
    ensures code { result ≡ code (c_verdict (lent numbers.old distances.old settings.old) false (opens_dataset k)) }
    ensures leaves { lent numbers.new distances.new settings.new ≡ c_left (lent numbers.old distances.old settings.old) false (opens_dataset k) }
{
    c_api::tides_open(numbers, distances, settings, k)
}

// Minima: they are 9 bytes: b0, b1 .. b8.
#[unsafe(no_mangle)]
pub extern "C" fn tides_minima(
    numbers: &mut [u16],
    distances: &[u32],
    settings: &[u8],
    minima: &[u8],
) -> u32
    ensures code { result
        ≡ code (c_verdict (lent numbers.old distances.now settings.now) (lacks 9 minima.now) (sets_minima (minima_at 0 minima.now))) }
    ensures leaves { lent numbers.new distances.now settings.now
        ≡ c_left (lent numbers.old distances.now settings.now) (lacks 9 minima.now) (sets_minima (minima_at 0 minima.now)) }
{
    c_api::tides_minima(numbers, distances, settings, minima)
}

// Enter: a tide with its setting, and its distances to the tides already there.
#[unsafe(no_mangle)]
pub extern "C" fn tides_enter(
    numbers: &mut [u16],
    distances: &mut [u32],
    settings: &mut [u8],
    setting: u32,
    row: &[u32],
) -> u32
    ensures code { result
        ≡ code (c_verdict (lent numbers.old distances.old settings.old) false (enters_tide setting row.now)) }
    ensures leaves { lent numbers.new distances.new settings.new
        ≡ c_left (lent numbers.old distances.old settings.old) false (enters_tide setting row.now) }
{
    c_api::tides_enter(numbers, distances, settings, setting, row)
}

// Withdraw: the tide of this number goes, and is counted for this user.
#[unsafe(no_mangle)]
pub extern "C" fn tides_withdraw(
    numbers: &mut [u16],
    distances: &mut [u32],
    settings: &mut [u8],
    user: u32,
    tide: u32,
) -> u32
    ensures code { result ≡ code (c_verdict (lent numbers.old distances.old settings.old) false (withdraws_tide user tide)) }
    ensures leaves { lent numbers.new distances.new settings.new
        ≡ c_left (lent numbers.old distances.old settings.old) false (withdraws_tide user tide) }
{
    c_api::tides_withdraw(numbers, distances, settings, user, tide)
}

// Read: the dataset of a study file.
#[unsafe(no_mangle)]
pub extern "C" fn tides_read(
    numbers: &mut [u16],
    distances: &mut [u32],
    settings: &mut [u8],
    file: &[u8],
) -> u32
    ensures code { result
        ≡ code (c_verdict (lent numbers.old distances.old settings.old) false (reads_file file.now)) }
    ensures leaves { lent numbers.new distances.new settings.new
        ≡ c_left (lent numbers.old distances.old settings.old) false (reads_file file.now) }
{
    c_api::tides_read(numbers, distances, settings, file)
}

// Centres at g: their number goes into `count`, their tide numbers into `list`; for each tide the nearest centre's block number goes into
// `nearest`, and its distance into `away`.
#[unsafe(no_mangle)]
pub extern "C" fn tides_centres(
    numbers: &[u16],
    distances: &[u32],
    settings: &[u8],
    g: u32,
    list: &mut [u8],
    nearest: &mut [u8],
    away: &mut [u32],
    count: &mut [u16],
) -> u32
    ensures code { result
        ≡ code (c_verdict (lent numbers.now distances.now settings.now) (lacks 1 count.old) (finds_centres g (centre_lists list.old nearest.old away.old))) }
    ensures lists { all_three (centre_lists list.new nearest.new away.new)
        ≡ (c_output (lent numbers.now distances.now settings.now) (lacks 1 count.old) (finds_centres g (centre_lists list.old nearest.old away.old))).lists }
    ensures count { count.new
        ≡ c_result 1 (lent numbers.now distances.now settings.now) (finds_centres g (centre_lists list.old nearest.old away.old)) count.old }
{
    c_api::tides_centres(numbers, distances, settings, g, list, nearest, away, count)
}

// Block: the result is 3 numbers: how many blocks, the radius, the greatest diameter.
#[unsafe(no_mangle)]
pub extern "C" fn tides_block(
    numbers: &[u16],
    distances: &[u32],
    settings: &[u8],
    list: &mut [u8],
    centres: &mut [u8],
    sizes: &mut [u8],
    diameters: &mut [u32],
    res: &mut [u32],
) -> u32
    ensures code { result
        ≡ code (blocks_verdict 3 (lent numbers.now distances.now settings.now) makes_blocks (places list.old centres.old sizes.old diameters.old res.old)) }
    ensures leaves { places list.new centres.new sizes.new diameters.new res.new
        ≡ blocks_left 3 (lent numbers.now distances.now settings.now) makes_blocks (places list.old centres.old sizes.old diameters.old res.old) }
{
    c_api::tides_block(
        numbers, distances, settings, list, centres, sizes, diameters, res,
    )
}

// Judge: the result is 2 numbers: 1 and the greatest diameter for yes, 0 and 0 for no.
#[unsafe(no_mangle)]
pub extern "C" fn tides_judge(
    numbers: &[u16],
    distances: &[u32],
    settings: &[u8],
    list: &[u8],
    res: &mut [u32],
) -> u32
    ensures code { result
        ≡ code (c_verdict (lent numbers.now distances.now settings.now) (lacks 2 res.old) (judges_list list.now)) }
    ensures res { res.new
        ≡ c_result 2 (lent numbers.now distances.now settings.now) (judges_list list.now) res.old }
{
    c_api::tides_judge(numbers, distances, settings, list, res)
}

// Write: the byte length of the study file goes into `res`.
#[unsafe(no_mangle)]
pub extern "C" fn tides_write(
    numbers: &[u16],
    distances: &[u32],
    settings: &[u8],
    file: &mut [u8],
    res: &mut [u32],
) -> u32
    ensures code { result
        ≡ code (c_verdict (lent numbers.now distances.now settings.now) (lacks 1 res.old) (writes_file file.old)) }
    ensures file { file.new
        ≡ first_list (c_output (lent numbers.now distances.now settings.now) (lacks 1 res.old) (writes_file file.old)).lists }
    ensures length { res.new
        ≡ c_result 1 (lent numbers.now distances.now settings.now) (writes_file file.old) res.old }
{
    c_api::tides_write(numbers, distances, settings, file, res)
}

// Lowers each distance of n rows of n to the least sum over any chain of tides: how many pairs were lowered goes into `res`.
#[unsafe(no_mangle)]
pub extern "C" fn tides_mend(table: &mut [u32], n: usize, res: &mut [u32]) -> u32
    ensures code { result ≡ code (mend_verdict n table.old res.old) }
    ensures table { table.new ≡ mend_table n table.old res.old }
    ensures res { res.new ≡ mend_result n table.old res.old }
{
    c_api::mend::tides_mend(table, n, res)
}

// A merge: the third dataset becomes the first and the second merged. Pair q is tide firsts[q] of the first and tide seconds[q] of the second.
#[unsafe(no_mangle)]
pub extern "C" fn tides_merge(
    n1: &[u16],
    d1: &[u32],
    s1: &[u8],
    n2: &[u16],
    d2: &[u32],
    s2: &[u8],
    numbers: &mut [u16],
    distances: &mut [u32],
    settings: &mut [u8],
    firsts: &[u8],
    seconds: &[u8],
) -> u32
    ensures code { result
        ≡ code (c_verdict (lent numbers.old distances.old settings.old) (lacks_either (lent n1.now d1.now s1.now) (lent n2.now d2.now s2.now))
        (merge_of (lent n1.now d1.now s1.now) (lent n2.now d2.now s2.now) firsts.now seconds.now)) }
    ensures leaves { lent numbers.new distances.new settings.new
        ≡ c_left (lent numbers.old distances.old settings.old) (lacks_either (lent n1.now d1.now s1.now) (lent n2.now d2.now s2.now))
        (merge_of (lent n1.now d1.now s1.now) (lent n2.now d2.now s2.now) firsts.now seconds.now) }
{
    c_api::merging::tides_merge(
        n1, d1, s1, n2, d2, s2, numbers, distances, settings, firsts, seconds,
    )
}

// The tariff: the result is 12 numbers: Block's three, the total in pence and the eight settings' shares of it.
#[unsafe(no_mangle)]
pub extern "C" fn tides_tariff(
    numbers: &[u16],
    distances: &[u32],
    settings: &[u8],
    list: &mut [u8],
    centres: &mut [u8],
    sizes: &mut [u8],
    diameters: &mut [u32],
    res: &mut [u32],
) -> u32
    ensures code { result
        ≡ code (blocks_verdict 12 (lent numbers.now distances.now settings.now) prices_blocks (places list.old centres.old sizes.old diameters.old res.old)) }
    ensures leaves { places list.new centres.new sizes.new diameters.new res.new
        ≡ blocks_left 12 (lent numbers.now distances.now settings.now) prices_blocks (places list.old centres.old sizes.old diameters.old res.old) }
{
    c_api::tariff::tides_tariff(
        numbers, distances, settings, list, centres, sizes, diameters, res,
    )
}
