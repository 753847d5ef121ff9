// The C interface that include/murgolab.h declares: each export hands over to the function of its name in the crate murgolab, and has its contract.
#![tactic(auto)]

ghost use Rattle.std.specs.Prelude.{[], length};
ghost use Rattle.eikonal.specs.Refusals.{by_lists, by_records, cells_of, begins_of};
ghost use Rattle.eikonal.specs.Ledger.{call};
ghost use Rattle.eikonal.specs.Entry.{lent, Says, LocalSays, DiagonalSays};
ghost use Rattle.eikonal.specs.declared.Job.TheVariants.{March, Round, Run};
ghost use Rattle.scenario.specs.Calls.{Reads, Writes};
ghost use Rattle.scenario.specs.Turns.{TurnSays};
ghost use Rattle.tablet.specs.Tablet.{TabletSays};

use eikonal::{LocalReply, Reply, Start};
use scenario::{Scenario, TurnReply};

#[unsafe(no_mangle)]
pub extern "C" fn murgolab_local_rule(
    g: u32,
    h: u32,
    left: u32,
    right: u32,
    above: u32,
    below: u32,
    over: u32,
    under: u32,
) -> LocalReply
    ensures { LocalSays g h left right above below over under result }
{
    murgolab::murgolab_local_rule(g, h, left, right, above, below, over, under)
}

#[unsafe(no_mangle)]
pub extern "C" fn murgolab_diagonal(slowness: u32) -> Reply
    ensures { DiagonalSays slowness result }
{
    murgolab::murgolab_diagonal(slowness)
}

#[unsafe(no_mangle)]
pub extern "C" fn murgolab_march_plain(
    width: u32,
    height: u32,
    storeys: u32,
    slow: &[u32],
    cells: &[u32],
    begins: &[u32],
    horizon: u32,
    times: &mut [u32],
    sides: &mut [u8],
    work: &mut [u32],
) -> Reply
    ensures { Says (call (by_lists width height storeys slow.now cells.now begins.now)
        (March horizon) [] (length sides.old) (length work.old))
        result (lent times.old sides.old work.old) (lent times.new sides.new work.new) }
{
    murgolab::murgolab_march_plain(
        width, height, storeys, slow, cells, begins, horizon, times, sides, work,
    )
}

#[unsafe(no_mangle)]
pub extern "C" fn murgolab_one_round_plain(
    width: u32,
    height: u32,
    storeys: u32,
    slow: &[u32],
    cells: &[u32],
    begins: &[u32],
    across: u32,
    down: u32,
    bound: u32,
    order: &[u32],
    times: &mut [u32],
    sides: &mut [u8],
    work: &mut [u32],
) -> Reply
    ensures { Says (call (by_lists width height storeys slow.now cells.now begins.now)
        (Round across down bound) order.now (length sides.old) (length work.old))
        result (lent times.old sides.old work.old) (lent times.new sides.new work.new) }
{
    murgolab::murgolab_one_round_plain(
        width, height, storeys, slow, cells, begins, across, down, bound, order, times, sides, work,
    )
}

#[unsafe(no_mangle)]
pub extern "C" fn murgolab_tile_run_plain(
    width: u32,
    height: u32,
    storeys: u32,
    slow: &[u32],
    cells: &[u32],
    begins: &[u32],
    across: u32,
    down: u32,
    stride: u32,
    horizon: u32,
    order: &[u32],
    times: &mut [u32],
    sides: &mut [u8],
    work: &mut [u32],
) -> Reply
    ensures { Says (call (by_lists width height storeys slow.now cells.now begins.now)
        (Run across down stride horizon) order.now (length sides.old) (length work.old))
        result (lent times.old sides.old work.old) (lent times.new sides.new work.new) }
{
    murgolab::murgolab_tile_run_plain(
        width, height, storeys, slow, cells, begins, across, down, stride, horizon, order, times,
        sides, work,
    )
}

#[unsafe(no_mangle)]
pub extern "C" fn murgolab_turn(time: u32, ticks: u32) -> TurnReply
    ensures { TurnSays time ticks result }
{
    murgolab::murgolab_turn(time, ticks)
}

#[unsafe(no_mangle)]
pub extern "C" fn murgolab_read_scenario_plain(
    file: &[u8],
    slow: &mut [u32],
    cells: &mut [u32],
    begins: &mut [u32],
) -> Scenario
    ensures { Reads file.now slow.old slow.new
        cells.old cells.new begins.old begins.new result }
{
    murgolab::murgolab_read_scenario_plain(file, slow, cells, begins)
}

#[unsafe(no_mangle)]
pub extern "C" fn murgolab_write_scenario_plain(
    width: u32,
    height: u32,
    storeys: u32,
    ticks: u32,
    ground: u32,
    slow: &[u32],
    cells: &[u32],
    begins: &[u32],
    out: &mut [u8],
) -> Reply
    ensures { Writes (by_lists width height storeys slow.now cells.now begins.now) ticks ground
        out.old out.new result }
{
    murgolab::murgolab_write_scenario_plain(
        width, height, storeys, ticks, ground, slow, cells, begins, out,
    )
}

#[unsafe(no_mangle)]
pub extern "C" fn murgolab_march(
    width: u32,
    height: u32,
    storeys: u32,
    slow: &[u32],
    starts: &[Start],
    horizon: u32,
    times: &mut [u32],
    sides: &mut [u8],
    work: &mut [u32],
) -> Reply
    ensures { Says (call (by_records width height storeys slow.now starts.now)
        (March horizon) [] (length sides.old) (length work.old))
        result (lent times.old sides.old work.old) (lent times.new sides.new work.new) }
{
    murgolab::murgolab_march(
        width, height, storeys, slow, starts, horizon, times, sides, work,
    )
}

#[unsafe(no_mangle)]
pub extern "C" fn murgolab_one_round(
    width: u32,
    height: u32,
    storeys: u32,
    slow: &[u32],
    starts: &[Start],
    across: u32,
    down: u32,
    bound: u32,
    order: &[u32],
    times: &mut [u32],
    sides: &mut [u8],
    work: &mut [u32],
) -> Reply
    ensures { Says (call (by_records width height storeys slow.now starts.now)
        (Round across down bound) order.now (length sides.old) (length work.old))
        result (lent times.old sides.old work.old) (lent times.new sides.new work.new) }
{
    murgolab::murgolab_one_round(
        width, height, storeys, slow, starts, across, down, bound, order, times, sides, work,
    )
}

#[unsafe(no_mangle)]
pub extern "C" fn murgolab_tile_run(
    width: u32,
    height: u32,
    storeys: u32,
    slow: &[u32],
    starts: &[Start],
    across: u32,
    down: u32,
    stride: u32,
    horizon: u32,
    order: &[u32],
    times: &mut [u32],
    sides: &mut [u8],
    work: &mut [u32],
) -> Reply
    ensures { Says (call (by_records width height storeys slow.now starts.now)
        (Run across down stride horizon) order.now (length sides.old) (length work.old))
        result (lent times.old sides.old work.old) (lent times.new sides.new work.new) }
{
    murgolab::murgolab_tile_run(
        width, height, storeys, slow, starts, across, down, stride, horizon, order, times, sides,
        work,
    )
}

#[unsafe(no_mangle)]
pub extern "C" fn murgolab_read_scenario(
    file: &[u8],
    slow: &mut [u32],
    starts: &mut [Start],
) -> Scenario
    ensures { Reads file.now slow.old slow.new
        (cells_of starts.old) (cells_of starts.new) (begins_of starts.old) (begins_of starts.new) result }
{
    murgolab::murgolab_read_scenario(file, slow, starts)
}

#[unsafe(no_mangle)]
pub extern "C" fn murgolab_write_scenario(
    width: u32,
    height: u32,
    storeys: u32,
    ticks: u32,
    ground: u32,
    slow: &[u32],
    starts: &[Start],
    out: &mut [u8],
) -> Reply
    ensures { Writes (by_records width height storeys slow.now starts.now) ticks ground
        out.old out.new result }
{
    murgolab::murgolab_write_scenario(width, height, storeys, ticks, ground, slow, starts, out)
}

#[unsafe(no_mangle)]
pub extern "C" fn murgolab_tablet_run(
    file: &[u8],
    stride: u32,
    across: u32,
    down: u32,
    out: &mut [u8],
) -> u64
    ensures { TabletSays file.now stride across down out.old out.new result }
{
    murgolab::murgolab_tablet_run(file, stride, across, down, out)
}
