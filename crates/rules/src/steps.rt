//! Steps, the whole numbers 1 to 6.
ghost use Rattle.std.specs.Prelude.{◌≡◌};
ghost use Rattle.rules.specs.Steps.{step};

// Whether a number is a step.
pub(crate) fn is_step(n: u8) -> bool
    ensures { result ≡ step n }
{
    (1..=6).contains(&n)
}
