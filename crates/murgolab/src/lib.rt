// What others call, by the names of the C interface that include/murgolab.h declares; the crate murgolab_c exports it. Each meets the
// contract of the function that it hands over to.
#![tactic(auto)]

ghost use Rattle.std.specs.Prelude.{[], length};
ghost use Rattle.eikonal.specs.Refusals.{by_lists, by_records, cells_of, begins_of};
ghost use Rattle.eikonal.specs.Ledger.{call};
ghost use Rattle.eikonal.specs.Entry.{lent, Says, LocalSays, DiagonalSays};
ghost use Rattle.eikonal.specs.declared.Job.TheVariants.{March, Round, Run};
ghost use Rattle.scenario.specs.Calls.{Reads, Writes};
ghost use Rattle.scenario.specs.Turns.{TurnSays};
ghost use Rattle.tablet.specs.Tablet.{TabletSays};

use eikonal::refused::Own;
use eikonal::starts::{Handed, Lists, Records};
use eikonal::{Job, LocalReply, Reply, Start};
use engine::calls::play;
use scenario::{Scenario, TurnReply};
use scenario_write::write_scenario;

pub fn murgolab_local_rule(
    g: u32,
    h: u32,
    left: u32,
    right: u32,
    above: u32,
    below: u32,
    over: u32,
    under: u32,
) -> LocalReply
    ensures { LocalSays g h left right above below over under result }
{
    arrival::local_rule(g, h, left, right, above, below, over, under)
}

pub fn murgolab_diagonal(slowness: u32) -> Reply
    ensures { DiagonalSays slowness result }
{
    diagonal::diagonal(slowness)
}

#[tactic(auto, unfolding(eikonal::specs::Refusals::by_lists))]
pub fn murgolab_march_plain(
    width: u32,
    height: u32,
    storeys: u32,
    slow: &[u32],
    cells: &[u32],
    begins: &[u32],
    horizon: u32,
    times: &mut [u32],
    sides: &mut [u8],
    work: &mut [u32],
) -> Reply
    ensures { Says (call (by_lists width height storeys slow.now cells.now begins.now)
        (March horizon) [] (length sides.old) (length work.old))
        result (lent times.old sides.old work.old) (lent times.new sides.new work.new) }
{
    let board = Handed {
        width,
        height,
        storeys,
        slow,
        starts: Lists { cells, begins },
    };
    let job = Job::March { horizon };
    play(&board, Own::NOTHING, job, &[], times, sides, work)
}

#[tactic(auto, unfolding(eikonal::specs::Refusals::by_lists))]
pub fn murgolab_one_round_plain(
    width: u32,
    height: u32,
    storeys: u32,
    slow: &[u32],
    cells: &[u32],
    begins: &[u32],
    across: u32,
    down: u32,
    bound: u32,
    order: &[u32],
    times: &mut [u32],
    sides: &mut [u8],
    work: &mut [u32],
) -> Reply
    ensures { Says (call (by_lists width height storeys slow.now cells.now begins.now)
        (Round across down bound) order.now (length sides.old) (length work.old))
        result (lent times.old sides.old work.old) (lent times.new sides.new work.new) }
{
    let board = Handed {
        width,
        height,
        storeys,
        slow,
        starts: Lists { cells, begins },
    };
    let job = Job::Round {
        across,
        down,
        bound,
    };
    play(&board, Own::NOTHING, job, order, times, sides, work)
}

#[tactic(auto, unfolding(eikonal::specs::Refusals::by_lists))]
pub fn murgolab_tile_run_plain(
    width: u32,
    height: u32,
    storeys: u32,
    slow: &[u32],
    cells: &[u32],
    begins: &[u32],
    across: u32,
    down: u32,
    stride: u32,
    horizon: u32,
    order: &[u32],
    times: &mut [u32],
    sides: &mut [u8],
    work: &mut [u32],
) -> Reply
    ensures { Says (call (by_lists width height storeys slow.now cells.now begins.now)
        (Run across down stride horizon) order.now (length sides.old) (length work.old))
        result (lent times.old sides.old work.old) (lent times.new sides.new work.new) }
{
    let board = Handed {
        width,
        height,
        storeys,
        slow,
        starts: Lists { cells, begins },
    };
    let job = Job::Run {
        across,
        down,
        stride,
        horizon,
    };
    play(&board, Own::NOTHING, job, order, times, sides, work)
}

pub fn murgolab_turn(time: u32, ticks: u32) -> TurnReply
    ensures { TurnSays time ticks result }
{
    scenario::turn(time, ticks)
}

pub fn murgolab_read_scenario_plain(
    file: &[u8],
    slow: &mut [u32],
    cells: &mut [u32],
    begins: &mut [u32],
) -> Scenario
    ensures { Reads file.now slow.old slow.new
        cells.old cells.new begins.old begins.new result }
{
    scenario_read::read_scenario(file, slow, cells, begins)
}

#[tactic(auto, unfolding(eikonal::specs::Refusals::by_lists))]
pub fn murgolab_write_scenario_plain(
    width: u32,
    height: u32,
    storeys: u32,
    ticks: u32,
    ground: u32,
    slow: &[u32],
    cells: &[u32],
    begins: &[u32],
    out: &mut [u8],
) -> Reply
    ensures { Writes (by_lists width height storeys slow.now cells.now begins.now) ticks ground
        out.old out.new result }
{
    let board = Handed {
        width,
        height,
        storeys,
        slow,
        starts: Lists { cells, begins },
    };
    write_scenario(&board, ticks, ground, out)
}

#[tactic(auto, unfolding(eikonal::specs::Refusals::by_records))]
pub fn murgolab_march(
    width: u32,
    height: u32,
    storeys: u32,
    slow: &[u32],
    starts: &[Start],
    horizon: u32,
    times: &mut [u32],
    sides: &mut [u8],
    work: &mut [u32],
) -> Reply
    ensures { Says (call (by_records width height storeys slow.now starts.now)
        (March horizon) [] (length sides.old) (length work.old))
        result (lent times.old sides.old work.old) (lent times.new sides.new work.new) }
{
    let board = Handed {
        width,
        height,
        storeys,
        slow,
        starts: Records { starts },
    };
    let job = Job::March { horizon };
    play(&board, Own::NOTHING, job, &[], times, sides, work)
}

#[tactic(auto, unfolding(eikonal::specs::Refusals::by_records))]
pub fn murgolab_one_round(
    width: u32,
    height: u32,
    storeys: u32,
    slow: &[u32],
    starts: &[Start],
    across: u32,
    down: u32,
    bound: u32,
    order: &[u32],
    times: &mut [u32],
    sides: &mut [u8],
    work: &mut [u32],
) -> Reply
    ensures { Says (call (by_records width height storeys slow.now starts.now)
        (Round across down bound) order.now (length sides.old) (length work.old))
        result (lent times.old sides.old work.old) (lent times.new sides.new work.new) }
{
    let board = Handed {
        width,
        height,
        storeys,
        slow,
        starts: Records { starts },
    };
    let job = Job::Round {
        across,
        down,
        bound,
    };
    play(&board, Own::NOTHING, job, order, times, sides, work)
}

#[tactic(auto, unfolding(eikonal::specs::Refusals::by_records))]
pub fn murgolab_tile_run(
    width: u32,
    height: u32,
    storeys: u32,
    slow: &[u32],
    starts: &[Start],
    across: u32,
    down: u32,
    stride: u32,
    horizon: u32,
    order: &[u32],
    times: &mut [u32],
    sides: &mut [u8],
    work: &mut [u32],
) -> Reply
    ensures { Says (call (by_records width height storeys slow.now starts.now)
        (Run across down stride horizon) order.now (length sides.old) (length work.old))
        result (lent times.old sides.old work.old) (lent times.new sides.new work.new) }
{
    let board = Handed {
        width,
        height,
        storeys,
        slow,
        starts: Records { starts },
    };
    let job = Job::Run {
        across,
        down,
        stride,
        horizon,
    };
    play(&board, Own::NOTHING, job, order, times, sides, work)
}

pub fn murgolab_read_scenario(file: &[u8], slow: &mut [u32], starts: &mut [Start]) -> Scenario
    ensures { Reads file.now slow.old slow.new
        (cells_of starts.old) (cells_of starts.new) (begins_of starts.old) (begins_of starts.new) result }
{
    scenario_read::read_records(file, slow, starts)
}

#[tactic(auto, unfolding(eikonal::specs::Refusals::by_records))]
pub fn murgolab_write_scenario(
    width: u32,
    height: u32,
    storeys: u32,
    ticks: u32,
    ground: u32,
    slow: &[u32],
    starts: &[Start],
    out: &mut [u8],
) -> Reply
    ensures { Writes (by_records width height storeys slow.now starts.now) ticks ground
        out.old out.new result }
{
    let board = Handed {
        width,
        height,
        storeys,
        slow,
        starts: Records { starts },
    };
    write_scenario(&board, ticks, ground, out)
}

pub fn murgolab_tablet_run(file: &[u8], stride: u32, across: u32, down: u32, out: &mut [u8]) -> u64
    ensures { TabletSays file.now stride across down out.old out.new result }
{
    tablet::tablet_run(file, stride, across, down, out)
}
