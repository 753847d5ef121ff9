// Causes that are looked for one after the other: the first that is met is the refusal.
ghost use Rattle.std.specs.Prelude.{◌≡◌, [], ◌∷◌};
ghost use Rattle.eikonal.specs.Order.{caused, first_of};
ghost use Rattle.eikonal.specs.Refusals.{within};
ghost use Rattle.eikonal.specs.Told.{number_of, told};
ghost use Rattle.refusals.specs.Judge.{fault};

use eikonal::refused::{Cause, Checked, Refusal};

pub fn within(least: usize, most: usize, n: usize) -> bool
    ensures { result ≡ within least most n }
{
    (least <= n) & (n <= most)
}

// A cause that is met refuses.
#[tactic(auto, unfolding(eikonal::specs::Order::first_of))]
pub fn refuse_if(met: bool, cause: Cause) -> Checked
    ensures { told result ≡ first_of (caused (number_of cause) met ∷ []) }
{
    if met {
        return Err(cause.into());
    }
    Ok(())
}

// By the first start at fault, where there is one.
#[tactic(auto, unfolding(eikonal::specs::Order::first_of))]
pub fn refuse_at(first: Option<usize>, cause: Cause) -> Checked
    ensures { told result ≡ first_of (fault (number_of cause) first ∷ []) }
{
    match first {
        Some(place) => Err(Refusal { cause, place }),
        None => Ok(()),
    }
}
