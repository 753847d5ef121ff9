// Houses: a cell between two storeys, a house of two, and towers.
use super::board::{Board, FAR, TEN, Tiles};
use super::tell::tell_local;
use eikonal::NEVER;
use std::io;

// What a cell of slowness 10 is given from its left, from above and from under it.
pub fn corners(rt: &impl Print) -> io::Result<()> {
    for (name, under, time) in [("(0, 0, 0)", 0, 6), ("(0, 0, 7)", 7, 8)] {
        let reply = arrival::local_rule(10, 10, 0, NEVER, 0, NEVER, NEVER, under);
        tell_local(rt, name, reply, time, 37)?;
    }
    Ok(())
}

// Two storeys, 2 by 2, slowness 10, start cell 0 at 0: marched, and run in tiles of 1 by 1, which span both storeys, with stride 20.
pub fn house(rt: &impl Print) -> io::Result<()> {
    let board = Board {
        width: 2,
        height: 2,
        storeys: 2,
        slow: [TEN; 8],
        cells: &[0],
        begins: &[0],
    };
    let tiles = Tiles {
        across: 1,
        down: 1,
        order: &[0, 1, 2, 3],
    };
    let times = [0, 10, 10, 18, 10, 18, 18, 24];
    let sides = [0, 1, 4, 5, 32, 33, 36, 37];
    let march = board.march(24);
    march.tell(rt, "house, refusal and cells reached", 8, times, sides)?;
    let run = board.run(&tiles, 20, 24);
    run.tell(
        rt,
        "house in 1 by 1 tiles, refusal and rounds",
        4,
        times,
        sides,
    )
}

// 1 by 1 with so many storeys, a slowness for each.
fn tower<const N: usize>(storeys: u32) -> Board<'static, N> {
    Board {
        width: 1,
        height: 1,
        storeys,
        slow: [TEN; N],
        cells: &[0],
        begins: &[0],
    }
}

pub fn towers(rt: &impl Print) -> io::Result<()> {
    let eight = tower::<8>(8).march(FAR);
    eight.tell_reply(rt, "8 storeys", 0, 8)?;
    eight.tell_sides(rt, [0, 32, 32, 32, 32, 32, 32, 32])?;
    tower::<9>(9).march(FAR).tell_reply(rt, "9 storeys", 23, 0)
}
