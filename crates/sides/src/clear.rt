// A start that is its cell's time: no front came before it, so it has no sides.
ghost use Rattle.std.specs.Prelude.{◌≡◌, [], ◌∷◌, ℕ, ◌≤◌, ◌<◌, length, get_or};
ghost use Rattle.eikonal.specs.Handing.{no_start};
ghost use Rattle.sides.specs.Clear.{Cleared};

use eikonal::Start;
use eikonal::starts::Starts;

fn clear_one(times: &[u32], sides: &mut [u8], start: Start)
    requires { (start.cell < length times.now) × (length sides.old ≡ length times.now) × (length times.now ≤ 65536) }
    ensures { Cleared (start ∷ []) times.now sides.old sides.new }
{
    let c = start.cell as usize;
    if times[c] == start.time {
        sides[c] = 0;
    }
}

// All starts, one after the other.
pub fn clear<S: Starts>(times: &[u32], sides: &mut [u8], starts: S)
    requires { (length sides.old ≡ length times.now) × (length times.now ≤ 65536)
        × ((i : ℕ) → i < length (S.all starts) → (get_or (S.all starts) i no_start).cell < length times.now) }
    ensures { Cleared (S.all starts) times.now sides.old sides.new }
{
    for i in 0..starts.many() {
        clear_one(times, sides, starts.at(i));
    }
}
