// Read and Write: for any record, memory and bytes of any length, the answer and what stands afterwards.
#![tactic(auto)]

ghost use Rattle.std.specs.Prelude.{◌≡◌};
ghost use Rattle.study.specs.Refusals.{verdict_of};
ghost use Rattle.validity.specs.Memory.{state_of};
ghost use Rattle.validity.specs.View.{seen};
ghost use Rattle.access.specs.Calls.{answer, after, reply, list_after};
ghost use Rattle.access.specs.Passed.{Passed};
ghost use Rattle.study_file.specs.Calls.{reads_file, writes_file, written_of};

use bit_reader::BitReader;
use file_fields::head::read_head;
use file_fields::tides::read_tides;
use file_fields::writing::{byte_length, put_fields};
use study::{Dataset, MAX_TIDES, Refusal, TABLE_SIZE};
use validity::is_short;
use validity::view::View;

// The dataset that a file holds. It is read into memory of its own, and copied into the lent memory once nothing can refuse it any more.
pub fn read(
    dataset: &mut Dataset,
    distances: &mut [u32],
    settings: &mut [u8],
    file: &[u8],
) -> Result<(), Refusal>
    ensures answer { verdict_of result ≡ answer (state_of dataset.old distances.old settings.old) (reads_file file.now) }
    ensures leaves { state_of dataset.new distances.new settings.new ≡ after (state_of dataset.old distances.old settings.old) (reads_file file.now) }
{
    if is_short(distances, settings) {
        return Err(Refusal::ShortMemory);
    }
    let (next, place) = read_head(file)?;
    let mut reader = BitReader { bytes: file, place };
    let mut matrix = [0u32; TABLE_SIZE];
    let mut vector = [0u8; MAX_TIDES];
    let tides = read_tides(
        &mut reader,
        usize::from(next.k),
        next.n,
        &mut matrix,
        &mut vector,
    );
    let Ok(()) = tides else {
        return tides;
    };
    storage::copy_front(distances, &matrix, TABLE_SIZE);
    storage::copy_front(settings, &vector, MAX_TIDES);
    *dataset = next;
    Ok(())
}

// The file of a dataset, where there is room for it.
fn write_file(view: View, file: &mut [u8]) -> Result<usize, Refusal>
    requires { Passed (seen view) }
    ensures reply { written_of result ≡ reply (seen view.entry) (writes_file file.old) }
    ensures leaves { file.new ≡ list_after (seen view.entry) (writes_file file.old) }
{
    let size = byte_length(usize::from(view.dataset.k), view.dataset.n);
    if file.len() < size {
        return Err(Refusal::ShortMemory);
    }
    put_fields(file, view);
    Ok(size)
}

// The file over the front of the lent bytes; those past it stay. Answers the file's length in bytes.
pub fn write(view: View, file: &mut [u8]) -> Result<usize, Refusal>
    ensures reply { written_of result ≡ reply (seen view.entry) (writes_file file.old) }
    ensures leaves { file.new ≡ list_after (seen view.entry) (writes_file file.old) }
{
    access::check(view)?;
    write_file(view, file)
}
