//! Steps of a grid byte.
ghost use Rattle.std.specs.Prelude.{◌≡◌};
ghost use Rattle.pricing.specs.Allocations.{is_step_of};

// Whether a number is one of the steps of a grid byte: bit 0 stands for step 1, up to bit 5 for step 6.
pub fn in_grid(byte: u8, step: u8) -> bool
    ensures { result ≡ is_step_of byte step }
{
    (1..=6).contains(&step) && (byte >> (step - 1)) % 2 == 1
}
