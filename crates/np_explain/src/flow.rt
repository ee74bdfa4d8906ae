//! Packets between two ends.
ghost use Rattle.std.specs.Prelude.{◌≡◌};
ghost use Rattle.np_explain.specs.Sides.{placed_at};

use np_addr::Family;
use np_model::Direction;
use np_rules::End;

/// The packets of a family from one end to another. Where an end is an address the family is its own, and that of the source
/// where both are.
#[derive(Clone, Copy)]
pub struct Flow {
    pub source: End,
    pub destination: End,
    pub family: Family,
}

impl Flow {
    /// The end at a side: with `Egress` the source, with `Ingress` the destination.
    pub(crate) fn near(&self, direction: Direction) -> End
        ensures { result ≡ placed_at direction self.now.source self.now.destination }
    {
        match direction {
            Direction::Egress => self.source,
            Direction::Ingress => self.destination,
        }
    }

    /// The other end.
    pub(crate) fn far(&self, direction: Direction) -> End
        ensures { result ≡ placed_at direction self.now.destination self.now.source }
    {
        match direction {
            Direction::Egress => self.destination,
            Direction::Ingress => self.source,
        }
    }
}
