//! Where sums stop, and that no bundle comes there.
ghost use Rattle.std.specs.Prelude.{◌≡◌};
ghost use Rattle.measures.specs.Sums.{most};
ghost use Rattle.measures.specs.Limits.{Unattained};

// The number at which sums stop. By total, worst and late first no value in reach of at most 24 wires attains it.
pub fn sums_stop_at() -> u32
    ensures value { result ≡ most }
    ensures unattained { Unattained result }
{
    u32::MAX
}
