// Which counts serve for a total.
ghost use Rattle.std.specs.Prelude.{◌≡◌, ◌^◌, ◌<◌, ◌↔◌};
ghost use Rattle.stage_network.specs.declared.widths.Width.TheVariants.{Narrow};

/// The counts that are used, by the greatest weight that they must hold.
#[derive(Clone, Copy, Debug, PartialEq, Eq)]
pub enum Width {
    /// Those of 64 bits.
    Narrow,
    /// Those of 128 bits.
    Wide,
}

/// The counts that serve where all weights sum to this total.
pub fn width_of(total: u128) -> Width
    ensures { (result ≡ Narrow) ↔ (total < 2 ^ 64) }
{
    if total < 1 << 64 {
        Width::Narrow
    } else {
        Width::Wide
    }
}
