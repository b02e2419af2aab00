// Places and counts that cannot run over.
ghost use Rattle.std.specs.Prelude.{◌≡◌};
ghost use Rattle.text.specs.Places.{following, within};

// The place after `n`; the highest stands for all beyond it.
#[tactic(auto, unfolding(crate::specs::Places::place_after, crate::specs::Places::within))]
pub fn following(n: usize) -> usize
    ensures { result ≡ following n }
{
    n.saturating_add(1)
}

// The place `at`, or the end of `size` bytes where that is nearer.
#[tactic(auto, unfolding(crate::specs::Places::within))]
pub fn within(at: usize, size: usize) -> usize
    ensures { result ≡ within at size }
{
    at.min(size)
}
