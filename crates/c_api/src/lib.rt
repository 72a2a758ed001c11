// The calls for C and whoever links C: functions on numbers and slices, each with the whole contract of the Rattle call behind it. The crate
// c_api_c hands them to C.
// A dataset's record is 15 numbers of 16 bits: k, n, b0, b1 .. b8, and each user's withdrawals. Each call answers 0, or the refusal's number;
// for 7 its pair i < j besides, as 7 + 256 i + 65,536 j. A single number has 32 bits, and is narrowed where the call behind takes a byte:
// the contracts speak of the number as it is given. include/tides.h declares them.
#![tactic(auto)]

use blocking::block::block_core;
use blocking::centres::centres_into;
use blocking::judge::judge;
use c_records::code::refusal_code;
use c_records::numbers::{RECORD_SIZE, dataset_of, minima_of, store_answer};
use c_records::rows::{least, put_columns};
use narrowing::narrow;
use storage::copy_front;
use study::Figures;
use validity::view::View;

pub mod mend;
pub mod merging;
pub mod tariff;

ghost use Rattle.std.specs.Prelude.{◌≡◌, false};
ghost use Rattle.access.specs.Calls.{first_list};
ghost use Rattle.dataset.specs.Calls.{opens_dataset, sets_minima, enters_tide, withdraws_tide};
ghost use Rattle.study_file.specs.Calls.{reads_file, writes_file};
ghost use Rattle.blocking.specs.Calls.{centre_lists, all_three, finds_centres, makes_blocks, judges_list};
ghost use Rattle.c_records.specs.Record.{lent, minima_at, code};
ghost use Rattle.c_api.specs.Api.{lacks, c_verdict, c_left, c_output, c_result};
ghost use Rattle.c_api.specs.Api.{places, blocks_verdict, blocks_left};

// Open: an empty dataset with k settings.
pub fn tides_open(numbers: &mut [u16], distances: &mut [u32], settings: &mut [u8], k: u32) -> u32
    ensures code { result ≡ code (c_verdict (lent numbers.old distances.old settings.old) false (opens_dataset k)) }
    ensures leaves { lent numbers.new distances.new settings.new ≡ c_left (lent numbers.old distances.old settings.old) false (opens_dataset k) }
{
    if numbers.len() < RECORD_SIZE {
        return 1;
    }
    let mut dataset = dataset_of(numbers);
    let answer = dataset::open(&mut dataset, distances, settings, narrow(k));
    store_answer(numbers, dataset, answer)
}

// Minima: they are 9 bytes: b0, b1 .. b8.
pub fn tides_minima(numbers: &mut [u16], distances: &[u32], settings: &[u8], minima: &[u8]) -> u32
    ensures code { result
        ≡ code (c_verdict (lent numbers.old distances.now settings.now) (lacks 9 minima.now) (sets_minima (minima_at 0 minima.now))) }
    ensures leaves { lent numbers.new distances.now settings.now
        ≡ c_left (lent numbers.old distances.now settings.now) (lacks 9 minima.now) (sets_minima (minima_at 0 minima.now)) }
{
    if numbers.len() < RECORD_SIZE {
        return 1;
    }
    if minima.len() < 9 {
        return 1;
    }
    let mut dataset = dataset_of(numbers);
    let answer = dataset::set_minima(&mut dataset, distances, settings, minima_of(minima));
    store_answer(numbers, dataset, answer)
}

// Enter: a tide with its setting, and its distances to the tides already there.
pub fn tides_enter(
    numbers: &mut [u16],
    distances: &mut [u32],
    settings: &mut [u8],
    setting: u32,
    row: &[u32],
) -> u32
    ensures code { result
        ≡ code (c_verdict (lent numbers.old distances.old settings.old) false (enters_tide setting row.now)) }
    ensures leaves { lent numbers.new distances.new settings.new
        ≡ c_left (lent numbers.old distances.old settings.old) false (enters_tide setting row.now) }
{
    if numbers.len() < RECORD_SIZE {
        return 1;
    }
    let mut dataset = dataset_of(numbers);
    let answer = dataset::enter(&mut dataset, distances, settings, narrow(setting), row);
    store_answer(numbers, dataset, answer)
}

// Withdraw: the tide of this number goes, and is counted for this user.
pub fn tides_withdraw(
    numbers: &mut [u16],
    distances: &mut [u32],
    settings: &mut [u8],
    user: u32,
    tide: u32,
) -> u32
    ensures code { result ≡ code (c_verdict (lent numbers.old distances.old settings.old) false (withdraws_tide user tide)) }
    ensures leaves { lent numbers.new distances.new settings.new
        ≡ c_left (lent numbers.old distances.old settings.old) false (withdraws_tide user tide) }
{
    if numbers.len() < RECORD_SIZE {
        return 1;
    }
    let mut dataset = dataset_of(numbers);
    let answer = dataset::withdraw(
        &mut dataset,
        distances,
        settings,
        narrow(user),
        narrow(tide),
    );
    store_answer(numbers, dataset, answer)
}

// Read: the dataset of a study file.
pub fn tides_read(
    numbers: &mut [u16],
    distances: &mut [u32],
    settings: &mut [u8],
    file: &[u8],
) -> u32
    ensures code { result
        ≡ code (c_verdict (lent numbers.old distances.old settings.old) false (reads_file file.now)) }
    ensures leaves { lent numbers.new distances.new settings.new
        ≡ c_left (lent numbers.old distances.old settings.old) false (reads_file file.now) }
{
    if numbers.len() < RECORD_SIZE {
        return 1;
    }
    let mut dataset = dataset_of(numbers);
    let answer = study_file::read(&mut dataset, distances, settings, file);
    store_answer(numbers, dataset, answer)
}

// Centres at g: their number goes into `count`, their tide numbers into `list`; for each tide the nearest centre's block number goes into
// `nearest`, and its distance into `away`.
pub fn tides_centres(
    numbers: &[u16],
    distances: &[u32],
    settings: &[u8],
    g: u32,
    list: &mut [u8],
    nearest: &mut [u8],
    away: &mut [u32],
    count: &mut [u16],
) -> u32
    ensures code { result
        ≡ code (c_verdict (lent numbers.now distances.now settings.now) (lacks 1 count.old) (finds_centres g (centre_lists list.old nearest.old away.old))) }
    ensures lists { all_three (centre_lists list.new nearest.new away.new)
        ≡ (c_output (lent numbers.now distances.now settings.now) (lacks 1 count.old) (finds_centres g (centre_lists list.old nearest.old away.old))).lists }
    ensures count { count.new
        ≡ c_result 1 (lent numbers.now distances.now settings.now) (finds_centres g (centre_lists list.old nearest.old away.old)) count.old }
{
    if numbers.len() < RECORD_SIZE {
        return 1;
    }
    if count.len() < 1 {
        return 1;
    }
    let view = View {
        dataset: dataset_of(numbers),
        distances,
        settings,
    };
    match centres_into(view, g, list, nearest, away) {
        Err(why) => refusal_code(why),
        Ok(found) => {
            count[0] = found as u16;
            0
        }
    }
}

// Block: the result is 3 numbers: how many blocks, the radius, the greatest diameter.
pub fn tides_block(
    numbers: &[u16],
    distances: &[u32],
    settings: &[u8],
    list: &mut [u8],
    centres: &mut [u8],
    sizes: &mut [u8],
    diameters: &mut [u32],
    res: &mut [u32],
) -> u32
    ensures code { result
        ≡ code (blocks_verdict 3 (lent numbers.now distances.now settings.now) makes_blocks (places list.old centres.old sizes.old diameters.old res.old)) }
    ensures leaves { places list.new centres.new sizes.new diameters.new res.new
        ≡ blocks_left 3 (lent numbers.now distances.now settings.now) makes_blocks (places list.old centres.old sizes.old diameters.old res.old) }
{
    if numbers.len() < RECORD_SIZE {
        return 1;
    }
    if res.len() < 3 {
        return 1;
    }
    let view = View {
        dataset: dataset_of(numbers),
        distances,
        settings,
    };
    let room = least(centres.len(), sizes.len(), diameters.len());
    match block_core(view, list, room) {
        Err(why) => refusal_code(why),
        Ok(computed) => {
            let Figures {
                blocks,
                radius,
                widest,
            } = computed.figures;
            put_columns(&computed.rows, blocks, centres, sizes, diameters);
            copy_front(res, &[blocks as u32, radius, widest], 3);
            0
        }
    }
}

// Judge: the result is 2 numbers: 1 and the greatest diameter for yes, 0 and 0 for no.
pub fn tides_judge(
    numbers: &[u16],
    distances: &[u32],
    settings: &[u8],
    list: &[u8],
    res: &mut [u32],
) -> u32
    ensures code { result
        ≡ code (c_verdict (lent numbers.now distances.now settings.now) (lacks 2 res.old) (judges_list list.now)) }
    ensures res { res.new
        ≡ c_result 2 (lent numbers.now distances.now settings.now) (judges_list list.now) res.old }
{
    if numbers.len() < RECORD_SIZE {
        return 1;
    }
    if res.len() < 2 {
        return 1;
    }
    let view = View {
        dataset: dataset_of(numbers),
        distances,
        settings,
    };
    match judge(view, list) {
        Err(why) => refusal_code(why),
        Ok(None) => {
            copy_front(res, &[0, 0], 2);
            0
        }
        Ok(Some(widest)) => {
            copy_front(res, &[1, widest], 2);
            0
        }
    }
}

// Write: the byte length of the study file goes into `res`.
pub fn tides_write(
    numbers: &[u16],
    distances: &[u32],
    settings: &[u8],
    file: &mut [u8],
    res: &mut [u32],
) -> u32
    ensures code { result
        ≡ code (c_verdict (lent numbers.now distances.now settings.now) (lacks 1 res.old) (writes_file file.old)) }
    ensures file { file.new
        ≡ first_list (c_output (lent numbers.now distances.now settings.now) (lacks 1 res.old) (writes_file file.old)).lists }
    ensures length { res.new
        ≡ c_result 1 (lent numbers.now distances.now settings.now) (writes_file file.old) res.old }
{
    if numbers.len() < RECORD_SIZE {
        return 1;
    }
    if res.len() < 1 {
        return 1;
    }
    let view = View {
        dataset: dataset_of(numbers),
        distances,
        settings,
    };
    match study_file::write(view, file) {
        Err(why) => refusal_code(why),
        Ok(size) => {
            res[0] = size as u32;
            0
        }
    }
}
