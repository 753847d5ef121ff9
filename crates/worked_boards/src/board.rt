// A board worked by hand, and what the calls give on it.
use super::tell::tell;
use eikonal::Reply;
use std::io;

// The pair (10, 10): 10 ticks along the row, 10 down the column.
pub const TEN: u32 = 655370;

// The last time that is not never.
pub const FAR: u32 = 300000000;

// Its sides and storeys, the slownesses of its N cells, its starts.
#[derive(Clone, Copy)]
pub struct Board<'a, const N: usize> {
    pub width: u32,
    pub height: u32,
    pub storeys: u32,
    pub slow: [u32; N],
    pub cells: &'a [u32],
    pub begins: &'a [u32],
}

// How it is cut into tiles, and their order.
#[derive(Clone, Copy)]
pub struct Tiles<'a> {
    pub across: u32,
    pub down: u32,
    pub order: &'a [u32],
}

// What a call answered, and what it left in the times and sides.
#[derive(Clone, Copy)]
pub struct Given<const N: usize> {
    pub reply: Reply,
    pub times: [u32; N],
    pub sides: [u8; N],
}

impl<'a, const N: usize> Board<'a, N> {
    pub fn march(&self, horizon: u32) -> Given<N> {
        let mut times = [0; N];
        let mut sides = [0; N];
        let reply = murgolab::murgolab_march_plain(
            self.width,
            self.height,
            self.storeys,
            &self.slow,
            self.cells,
            self.begins,
            horizon,
            &mut times,
            &mut sides,
            &mut [0; 1024],
        );
        Given {
            reply,
            times,
            sides,
        }
    }

    // A round from times that are there.
    pub fn round(&self, tiles: &Tiles, bound: u32, before: [u32; N]) -> Given<N> {
        let mut times = before;
        let mut sides = [0; N];
        let reply = murgolab::murgolab_one_round_plain(
            self.width,
            self.height,
            self.storeys,
            &self.slow,
            self.cells,
            self.begins,
            tiles.across,
            tiles.down,
            bound,
            tiles.order,
            &mut times,
            &mut sides,
            &mut [0; 1024],
        );
        Given {
            reply,
            times,
            sides,
        }
    }

    pub fn run(&self, tiles: &Tiles, stride: u32, horizon: u32) -> Given<N> {
        let mut times = [0; N];
        let mut sides = [0; N];
        let reply = murgolab::murgolab_tile_run_plain(
            self.width,
            self.height,
            self.storeys,
            &self.slow,
            self.cells,
            self.begins,
            tiles.across,
            tiles.down,
            stride,
            horizon,
            tiles.order,
            &mut times,
            &mut sides,
            &mut [0; 1024],
        );
        Given {
            reply,
            times,
            sides,
        }
    }
}

impl<const N: usize> Given<N> {
    pub fn tell_reply(
        &self,
        rt: &impl Print,
        name: &str,
        number: u32,
        count: u32,
    ) -> io::Result<()> {
        let got = [self.reply.number, self.reply.count];
        tell(rt, name, &got, &[number, count])
    }

    pub fn tell_times(&self, rt: &impl Print, name: &str, want: [u32; N]) -> io::Result<()> {
        tell(rt, name, &self.times, &want)
    }

    pub fn tell_sides(&self, rt: &impl Print, want: [u32; N]) -> io::Result<()> {
        let got = self.sides.map(|side| u32::from(side));
        tell(rt, "its sides", &got, &want)
    }

    // All three.
    pub fn tell(
        &self,
        rt: &impl Print,
        name: &str,
        count: u32,
        times: [u32; N],
        sides: [u32; N],
    ) -> io::Result<()> {
        self.tell_reply(rt, name, 0, count)?;
        self.tell_times(rt, "its times", times)?;
        self.tell_sides(rt, sides)
    }
}
