// Furrows: a cell that is slower down its column than along its row.
use super::board::{Board, Tiles};
use super::tell::tell_local;
use eikonal::NEVER;
use std::io;

// A ploughed field, (10, 20): half as fast across the furrows, which run along the rows.
const PLOUGHED: u32 = 1310730;

// What a cell is given from its left and from above, with 10 ticks along its row and 20 down its column.
pub fn furrows(rt: &impl Print) -> io::Result<()> {
    for (name, left, above, time, sides) in [
        ("(10, 20) from the left alone", 0, NEVER, 10, 1),
        ("(10, 20) from above alone", NEVER, 0, 20, 4),
        ("(10, 20) from both at once", 0, 0, 9, 5),
    ] {
        let reply = arrival::local_rule(10, 20, left, NEVER, above, NEVER, NEVER, NEVER);
        tell_local(rt, name, reply, time, sides)?;
    }
    Ok(())
}

// 3 by 3 furrows of (10, 20), start cell 0 at 0: marched, and run in tiles of 2 by 2 with stride 20.
pub fn ploughed(rt: &impl Print) -> io::Result<()> {
    let board = Board {
        width: 3,
        height: 3,
        storeys: 1,
        slow: [PLOUGHED; 9],
        cells: &[0],
        begins: &[0],
    };
    let tiles = Tiles {
        across: 2,
        down: 2,
        order: &[0, 1, 2, 3],
    };
    let times = [0, 10, 20, 20, 26, 34, 40, 45, 51];
    let sides = [0, 1, 1, 4, 5, 5, 4, 5, 5];
    let march = board.march(51);
    march.tell(rt, "ploughed, refusal and cells reached", 9, times, sides)?;
    let run = board.run(&tiles, 20, 51);
    run.tell(
        rt,
        "ploughed in 2 by 2 tiles, refusal and rounds",
        5,
        times,
        sides,
    )
}
