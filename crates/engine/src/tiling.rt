// A tile run, as it stays through all its rounds.
ghost use Rattle.std.specs.Prelude.{◌≤◌};
ghost use Rattle.eikonal.specs.Board.{largest};

use front::Shape;
use front::seams::Seams;

// The slownesses, the seams of columns and rows, and the shape; each round's bound is a stride past the last one's, up to the horizon.
#[derive(Clone, Copy)]
pub struct Tiling<'a> {
    pub slow: &'a [u32],
    pub cols: &'a Seams,
    pub rows: &'a Seams,
    pub shape: Shape,
    pub stride: u32,
    pub horizon: u32,
    pub ghost stride_low: { 1 ≤ stride },
    pub ghost stride_high: { stride ≤ largest },
    pub ghost horizon_high: { horizon ≤ largest },
}

impl<'a> Tiling<'a> {
    ghost use Rattle.std.specs.Prelude.{◌≡◌, suc, ◌*◌, min, leb};
    ghost use Rattle.engine.specs.Run.{Leapt};

    // The bound of the round after so many.
    pub fn bound_after(&self, done: u32) -> u32
        requires { done ≤ 1000000000 }
        ensures { result ≡ min (suc done * self.now.stride) self.now.horizon }
    {
        let reach = (done as u64 + 1) * (self.stride as u64);
        reach.min(self.horizon as u64) as u32
    }

    // Whether the round is at the horizon.
    pub fn at_horizon(&self, round: u32) -> bool
        requires { round ≤ 1000000001 }
        ensures { result ≡ leb self.now.horizon (round * self.now.stride) }
    {
        let reach = (round as u64) * (self.stride as u64);
        let end = self.horizon as u64;
        end <= reach
    }

    // How many rounds may be taken for done: those whose bound is below the least key and the horizon alter nothing.
    pub fn leap(&self, least: u32, done: u32) -> u32
        ensures { Leapt least done self.now.stride self.now.horizon result }
    {
        let goal = least.min(self.horizon);
        if goal == 0 {
            return done;
        }
        let far = (goal - 1) / self.stride;
        done.max(far)
    }
}
