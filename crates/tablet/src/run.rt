// The run of a small board, tiles in rising order. Every list that it needs is a local one: 25 KiB, beside the caller's times.
ghost use Rattle.std.specs.Prelude.{◌≡◌, ℕ, ◌*◌, ◌≤◌, ◌<◌, length, get_or};
ghost use Rattle.eikonal.specs.Board.{size, marched};
ghost use Rattle.eikonal.specs.Tiles.{rounds};
ghost use Rattle.eikonal.specs.Refusals.{handed_refusal};
ghost use Rattle.eikonal.specs.Handing.{handed_in};
ghost use Rattle.scenario.specs.File.{held};
ghost use Rattle.tablet.specs.Small.{horizon, small_refusal, Tiled};

use eikonal::Job;
use eikonal::refused::Own;
use eikonal::starts::{Handed, Starts};
use scenario::heads::head_of;
use scenario::starts::starts_in;
use scenario_read::fill_slow;
use tile_orders::tiles_along;

const HORIZON: u32 = 6000000;

// Zeros for a list of so many cells. Only the length is told: no entry is read before it is written.
pub fn entries() -> [u32; 1024]
    ensures { length result ≡ 1024 }
{
    [0; 1024]
}

fn work_entries() -> [u32; 4096]
    ensures { length result ≡ 4096 }
{
    [0; 4096]
}

// The tablet's call has no use for the sides.
fn side_entries() -> [u8; 1024]
    ensures { length result ≡ 1024 }
{
    [0; 1024]
}

// 0, 1, 2, ..
fn rise(order: &mut [u32])
    requires { length order.old ≤ 1024 }
    ensures { (k : ℕ) → k < length order.old → get_or order.new k 0 ≡ k }
{
    for (i, tile) in order.iter_mut().enumerate() {
        *tile = i as u32;
    }
}

// A board with sides to 32 and 1,024 cells at the most that no number refuses.
fn run_board<S: Starts>(
    board: &Handed<S>,
    stride: u32,
    across: u32,
    down: u32,
    times: &mut [u32],
) -> u32
    requires board { (handed_refusal (handed_in S.all S.paired board.now)).number ≡ 0 }
    requires sides { (board.now.width ≤ 32) × (board.now.height ≤ 32) × (board.now.width * board.now.height * board.now.storeys ≤ 1024)
        × (length times.old ≡ board.now.width * board.now.height * board.now.storeys) }
    requires tiles { Tiled stride across down }
    ensures rounds { result ≡ rounds (handed_in S.all S.paired board.now).board across down stride horizon }
    ensures times { times.new ≡ marched (handed_in S.all S.paired board.now).board horizon }
{
    let tiles = (tiles_along(board.width, across) * tiles_along(board.height, down)) as usize;
    let mut order = entries();
    let order = &mut order[..tiles];
    rise(order);
    let n = times.len();
    let mut sides = side_entries();
    let mut work = work_entries();
    let job = Job::Run {
        across,
        down,
        stride,
        horizon: HORIZON,
    };
    let reply = engine::calls::play(
        board,
        Own::NOTHING,
        job,
        order,
        times,
        &mut sides[..n],
        &mut work,
    );
    reply.count
}

// The board of a file that was judged, with as many times as it has cells. Answers the rounds.
pub fn run_file(file: &[u8], stride: u32, across: u32, down: u32, times: &mut [u32]) -> u32
    requires board { ((small_refusal file.now).number ≡ 0) × (length times.old ≡ size (held file.now)) }
    requires tiles { Tiled stride across down }
    ensures rounds { result ≡ rounds (held file.now) across down stride horizon }
    ensures times { times.new ≡ marched (held file.now) horizon }
{
    let n = times.len();
    let head = head_of(file);
    let mut slow = entries();
    let slow = &mut slow[..n];
    fill_slow(file, slow);
    let board = Handed {
        width: head.width,
        height: head.height,
        storeys: head.storeys,
        slow,
        starts: starts_in(file, head),
    };
    run_board(&board, stride, across, down, times)
}
