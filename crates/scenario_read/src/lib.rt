// The reader of scenario files: a file is judged whole, then read.
#![tactic(auto)]

pub mod judge;
pub mod paint;
pub mod starts;

ghost use Rattle.std.specs.Prelude.{◌≡◌, ◌++◌, ◌≤◌, length, drop, IfOk};
ghost use Rattle.eikonal.specs.Board.{size};
ghost use Rattle.eikonal.specs.Refusals.{cells_of, begins_of};
ghost use Rattle.eikonal.specs.Told.{told};
ghost use Rattle.scenario.specs.File.{held, start_count, starts_in, file_refusal};
ghost use Rattle.scenario.specs.Calls.{filled, scenario_told, reader_refusal, Reads};
ghost use Rattle.scenario.specs.Inner.Walk.{Fits};

use eikonal::Start;
use eikonal::refused::Refusal;
use eikonal::starts::Starts;
use judge::check_scenario;
use scenario::heads::{board_size, head_of};
use scenario::starts::starts_in;
use scenario::{Head, Scenario};

// The same head, from the file: the one that an outcome holds, which the contract alone reads here, was stored a moment ago in narrower pieces than it
// would be loaded in. Waiting for those took up to as long as all else of a small file.
fn read_again(file: &[u8], head: Head) -> Head
    requires { Fits «head» file.now }
    ensures { Fits result file.now }
{
    head_of(file)
}

// What a reader answers.
fn answer(file: &[u8], outcome: Result<Head, Refusal>) -> Scenario
    requires { IfOk outcome (λ x. Fits x file.now) }
    ensures { result ≡ scenario_told outcome }
{
    match outcome {
        Ok(head) => {
            let again: Result<Head, Refusal> = Ok(read_again(file, head));
            again.into()
        }
        Err(_) => outcome.into(),
    }
}

// The slownesses of a file that was judged; later entries stay.
pub fn fill_slow(file: &[u8], slow: &mut [u32])
    requires { ((file_refusal file.now).number ≡ 0) × (size (held file.now) ≤ length slow.old) }
    ensures { slow.new ≡ filled 0 (held file.now).slow slow.old }
{
    let head = head_of(file);
    let n = board_size(head);
    paint::read_slow(file, head, &mut slow[..n]);
}

// Its starts; later entries stay.
fn fill_starts(file: &[u8], head: Head, cells: &mut [u32], begins: &mut [u32])
    requires file { Fits «head» file.now }
    requires room { (start_count file.now ≤ length cells.old) × (start_count file.now ≤ length begins.old) }
    ensures cells { cells.new ≡ filled 0 (cells_of (starts_in file.now)) cells.old }
    ensures begins { begins.new ≡ filled 0 (begins_of (starts_in file.now)) begins.old }
{
    let starts = starts_in(file, head);
    for i in 0..starts.many() {
        let start = starts.at(i);
        cells[i] = start.cell;
        begins[i] = start.time;
    }
}

// The same into records.
fn fill_records(file: &[u8], head: Head, records: &mut [Start])
    requires { Fits «head» file.now × (start_count file.now ≤ length records.old) }
    ensures { records.new ≡ starts_in file.now ++ drop (start_count file.now) records.old }
{
    let starts = starts_in(file, head);
    for i in 0..starts.many() {
        records[i] = starts.at(i);
    }
}

// The head of a file that nothing refuses, where there is room for so many starts; its slownesses are filled in. A refused file leaves the list as it was.
pub fn read_ground(file: &[u8], slow: &mut [u32], starts: usize) -> Result<Head, Refusal>
    ensures told { told result ≡ reader_refusal file.now (length slow.old) starts }
    ensures head { IfOk result (λ x. Fits x file.now) }
    ensures slow { slow.new ≡ filled (told result).number (held file.now).slow slow.old }
{
    let head = check_scenario(file, slow.len(), starts)?;
    fill_slow(file, slow);
    Ok(head)
}

// Fills the slownesses and the starts that a file holds; later entries stay. The whole file is judged first: a refused
// one leaves the lists as they were.
pub fn read_scenario(
    file: &[u8],
    slow: &mut [u32],
    cells: &mut [u32],
    begins: &mut [u32],
) -> Scenario
    ensures { Reads file.now slow.old slow.new
        cells.old cells.new begins.old begins.new result }
{
    let outcome = read_ground(file, slow, cells.len().min(begins.len()));
    if let Ok(head) = outcome {
        fill_starts(file, head, cells, begins);
    }
    answer(file, outcome)
}

// The same with the starts as records.
pub fn read_records(file: &[u8], slow: &mut [u32], records: &mut [Start]) -> Scenario
    ensures { Reads file.now slow.old slow.new
        (cells_of records.old) (cells_of records.new) (begins_of records.old) (begins_of records.new) result }
{
    let outcome = read_ground(file, slow, records.len());
    if let Ok(head) = outcome {
        fill_records(file, head, records);
    }
    answer(file, outcome)
}
