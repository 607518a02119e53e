//! Costs as far as the bound: whatever passes it counts one more than the bound.

ghost use Rattle.std.specs.Prelude.{◌≡◌, ◌+◌, ◌*◌};
ghost use Rattle.type_costs.specs.Capped.{capped};

/// The sum, or one more than the bound.
#[tactic(auto, using(crate::proofs::CappedSums::sum_laws))]
pub(crate) fn sum(left: u64, right: u64) -> u64
    ensures { result ≡ capped (left + right) }
{
    left.saturating_add(right).min(1_048_577)
}

/// The product, or one more than the bound.
#[tactic(auto, using(crate::proofs::CappedSums::sum_laws))]
pub(crate) fn product(left: u64, right: u64) -> u64
    ensures { result ≡ capped (left * right) }
{
    left.saturating_mul(right).min(1_048_577)
}
