//! Which end of a row a focus looks at.

/// Which end of a row must be the workload that is asked for.
#[derive(Clone, Copy, PartialEq, Eq)]
pub enum FocusSide {
    /// One of the two, or both.
    Either,
    /// The source.
    Source,
    /// The destination.
    Destination,
}

impl FocusSide {
    ghost use Rattle.std.specs.Prelude.{◌≡◌};
    ghost use Rattle.np_args.specs.Values.{focus_side_of};

    /// The side of this name: `either`, `from` or `to`. `None` where the name is none of the three.
    pub fn named(name: &str) -> Option<FocusSide>
        ensures { result ≡ focus_side_of name.now }
    {
        match name {
            "either" => Some(FocusSide::Either),
            "from" => Some(FocusSide::Source),
            "to" => Some(FocusSide::Destination),
            _ => None,
        }
    }
}
