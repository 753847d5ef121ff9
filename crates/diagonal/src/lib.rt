// D(s), the step added where both sides are equal: the least d with 2 d² at least s².
#![tactic(auto)]

mod table;

ghost use Rattle.std.specs.Prelude.{◌≡◌, ◌≤◌, IfOk};
ghost use Rattle.eikonal.specs.Board.{diagonal};
ghost use Rattle.eikonal.specs.Entry.{step_refusal, DiagonalSays};
ghost use Rattle.eikonal.specs.Told.{told};

use eikonal::Reply;
use eikonal::refused::{Cause, Refusal};
use refusals::causes::refuse_if;

// An index copies the table to the stack: no inner loop calls this.
fn kept(slowness: u32) -> u16
    requires { slowness ≤ 255 }
    ensures { result ≡ diagonal slowness }
{
    table::STEPS[slowness as usize]
}

// Kept up to 255; above, the root of the local rule for sides that are 0 ticks apart.
fn step(slowness: u32) -> u32
    requires { slowness ≤ 4095 }
    ensures { result ≡ diagonal slowness }
{
    if slowness <= 255 {
        return kept(slowness) as u32;
    }
    arrival::least_past(slowness, 0)
}

// The step, or 5 for a slowness above 4,095.
#[tactic(auto, using(eikonal::proofs::Outcomes::outcomes), unfolding(eikonal::specs::Entry::step_refusal))]
fn checked_step(slowness: u32) -> Result<u32, Refusal>
    ensures refuses { told result ≡ step_refusal slowness }
    ensures gives { IfOk result (λ d. d ≡ diagonal slowness) }
{
    refuse_if(slowness > 4095, Cause::Steep)?;
    Ok(step(slowness))
}

pub fn diagonal(slowness: u32) -> Reply
    ensures { DiagonalSays slowness result }
{
    checked_step(slowness).into()
}
