// Marches of flat boards: their starts, the lengths of their sides, the turns of their times.
use super::board::{Board, FAR, TEN};
use super::tell::tell;
use eikonal::NEVER;
use std::io;

// 3 by 3 cells of slowness 10.
fn square<'a>(cells: &'a [u32], begins: &'a [u32]) -> Board<'a, 9> {
    Board {
        width: 3,
        height: 3,
        storeys: 1,
        slow: [TEN; 9],
        cells,
        begins,
    }
}

pub fn starts(rt: &impl Print) -> io::Result<()> {
    let front = [0, 10, 20, 10, 18, 26, 20, 26, 34];
    let late = [
        1000000, 1000010, 1000020, 1000010, 1000018, 1000026, 1000020, 1000026, 1000034,
    ];
    let sides = [0, 1, 1, 4, 5, 5, 4, 5, 5];
    // at the time that the front would have come, it began in cell 1
    let both = [0, 0, 1, 4, 5, 5, 4, 5, 5];
    for (name, board, count, times, sides) in [
        ("no starts", square(&[], &[]), 0, [NEVER; 9], [0; 9]),
        ("cell 1 at 15", square(&[0, 1], &[0, 15]), 9, front, sides),
        ("cell 1 at 10", square(&[0, 1], &[0, 10]), 9, front, both),
        (
            "start at 1,000,000",
            square(&[0], &[1000000]),
            9,
            late,
            sides,
        ),
    ] {
        board.march(FAR).tell(rt, name, count, times, sides)?;
    }
    let refused = square(&[0], &[1000001]).march(FAR);
    refused.tell_reply(rt, "start at 1,000,001", 8, 0)?;
    refused.tell_times(rt, "its times", [0; 9])?;
    refused.tell_sides(rt, [0; 9])
}

// A list of 256 cells, from cell 0 on, on boards that it fits or does not.
pub fn lengths(rt: &impl Print) -> io::Result<()> {
    for (name, width, height, number, count) in [
        ("256 by 1", 256, 1, 0, 256),
        ("1 by 256", 1, 256, 0, 256),
        ("257 by 1", 257, 1, 2, 0),
        ("0 by 256", 0, 256, 2, 0),
    ] {
        let board = Board {
            width,
            height,
            storeys: 1,
            slow: [TEN; 256],
            cells: &[0],
            begins: &[0],
        };
        board.march(FAR).tell_reply(rt, name, number, count)?;
    }
    Ok(())
}

// Two cells of 3 by 3, start cell 0 at 0; a turn has 10 ticks.
pub fn turns(rt: &impl Print) -> io::Result<()> {
    let times = square(&[0], &[0]).march(FAR).times;
    for (name, time, turn, to_go) in [
        ("middle cell", times[4], 2, 2),
        ("last cell", times[8], 4, 6),
    ] {
        let reply = scenario::turn(time, 10);
        let got = [reply.number, reply.turn, reply.to_go];
        print!(rt; "{name}, ")?;
        tell(rt, "refusal, turn and ticks to go", &got, &[0, turn, to_go])?;
    }
    Ok(())
}
