// Single rounds and tile runs.
use super::board::{Board, TEN, Tiles};
use eikonal::NEVER;
use std::io;

// The pair (1, 1).
const ONE: u32 = 65537;

// 3 by 3, slowness 10, start cell 0 at 0.
const SQUARE: Board<9> = Board {
    width: 3,
    height: 3,
    storeys: 1,
    slow: [TEN; 9],
    cells: &[0],
    begins: &[0],
};

const TWO_BY_TWO: Tiles = Tiles {
    across: 2,
    down: 2,
    order: &[0, 1, 2, 3],
};

// Bounds of stride 20 and horizon 34.
pub fn rounds(rt: &impl Print) -> io::Result<()> {
    let second = [0, 10, 20, 10, 18, 26, 20, 26, NEVER];
    let third = [0, 10, 20, 10, 18, 26, 20, 26, 34];
    let first = [0, 10, NEVER, 10, 18, NEVER, NEVER, NEVER, NEVER];
    let sides = [0, 1, 1, 4, 5, 5, 4, 5, 5];
    let mut times = [NEVER; 9];
    for (name, bound, want, want_sides) in [
        ("round 1", 20, first, [0, 1, 0, 4, 5, 0, 0, 0, 0]),
        ("round 2", 34, second, [0, 1, 1, 4, 5, 5, 4, 5, 0]),
        ("round 3", 34, third, sides),
        ("round 4", 34, third, sides),
    ] {
        let given = SQUARE.round(&TWO_BY_TWO, bound, times);
        given.tell_times(rt, name, want)?;
        given.tell_sides(rt, want_sides)?;
        times = given.times;
    }
    Ok(())
}

// 4 by 1, slowness 1, start cells 0 at 0 and 3 at 1, in tiles of 1 by 1, bound 10. The third round alters sides and no time.
pub fn narrow_rounds(rt: &impl Print) -> io::Result<()> {
    let board = Board {
        width: 4,
        height: 1,
        storeys: 1,
        slow: [ONE; 4],
        cells: &[0, 3],
        begins: &[0, 1],
    };
    let tiles = Tiles {
        across: 1,
        down: 1,
        order: &[0, 1, 2, 3],
    };
    let all = [0, 1, 2, 1];
    let first = board.round(&tiles, 10, [NEVER; 4]);
    first.tell(
        rt,
        "4 by 1, round 1, refusal and cells altered",
        2,
        [0, NEVER, NEVER, 1],
        [0; 4],
    )?;
    let second = board.round(&tiles, 10, first.times);
    second.tell(
        rt,
        "4 by 1, round 2, refusal and cells altered",
        2,
        all,
        [0, 1, 2, 0],
    )?;
    let third = board.round(&tiles, 10, second.times);
    third.tell(
        rt,
        "4 by 1, round 3, refusal and cells altered",
        0,
        all,
        [0, 1, 1, 0],
    )
}

// Stride 20 and horizon 34, in tiles of 2 by 2 and of 3 by 3.
pub fn runs(rt: &impl Print) -> io::Result<()> {
    let one = Tiles {
        across: 3,
        down: 3,
        order: &[0],
    };
    let times = [0, 10, 20, 10, 18, 26, 20, 26, 34];
    let sides = [0, 1, 1, 4, 5, 5, 4, 5, 5];
    let run = SQUARE.run(&TWO_BY_TWO, 20, 34);
    run.tell(rt, "2 by 2 tiles, refusal and rounds", 4, times, sides)?;
    let run = SQUARE.run(&one, 20, 34);
    run.tell(rt, "one tile, refusal and rounds", 3, times, sides)
}
