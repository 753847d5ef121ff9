// Files with sides to 32 and 1,024 cells at the most.
ghost use Rattle.std.specs.Prelude.{◌≡◌, IfOk};
ghost use Rattle.eikonal.specs.Told.{told};
ghost use Rattle.scenario.specs.Inner.Walk.{Fits};
ghost use Rattle.tablet.specs.Small.{small_refusal};

use eikonal::refused::{Cause, Refusal};
use refusals::causes::refuse_if;
use scenario::Head;
use scenario::heads::board_size;
use scenario_read::judge::{check_front, check_rest};

// What a file is refused by: 15 comes directly behind 2, before the storeys are judged.
#[tactic(auto, using(eikonal::proofs::Outcomes::outcomes, crate::proofs::SmallFiles::small_by_parts), unfolding(crate::specs::Small::board_small))]
pub fn check_small(file: &[u8]) -> Result<Head, Refusal>
    ensures told { told result ≡ small_refusal file.now }
    ensures head { IfOk result (λ x. Fits x file.now) }
{
    let head = check_front(file)?;
    let small = (head.width <= 32) & (head.height <= 32) & (board_size(head) <= 1024);
    refuse_if(!small, Cause::Large)?;
    check_rest(file, head)?;
    Ok(head)
}
