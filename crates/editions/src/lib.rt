// What an edition of the fineness profile allows.
#![tactic(auto)]

ghost use Rattle.std.specs.Prelude.{◌≡◌};
ghost use Rattle.editions.specs.Editions.{limits_of};

// What an edition allows: the most double deltas, the least and the greatest adjustment, the most of the first sigma coefficient.
#[derive(Clone, Copy, Debug, PartialEq, Eq)]
pub struct Limits {
    pub deltas: u32,
    pub least: i32,
    pub greatest: i32,
    pub sigma: i32,
}

// None for an edition that is not known.
#[tactic(auto, unfolding(crate::specs::Editions::limits_of))]
pub fn limits_of(edition: u32) -> Option<Limits>
    ensures { result ≡ limits_of edition }
{
    match edition {
        1 => Some(Limits {
            deltas: 64,
            least: 0,
            greatest: 0,
            sigma: 400,
        }),
        2 => Some(Limits {
            deltas: 256,
            least: -8,
            greatest: 8,
            sigma: 1600,
        }),
        _ => None,
    }
}
