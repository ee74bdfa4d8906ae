//! How ranges of addresses are written.

/// How a range of addresses is written.
#[derive(Clone, Copy, PartialEq, Eq)]
pub enum Report {
    /// By its first and its last address: `10.0.0.0-10.0.255.255`, and one address as itself.
    One,
    /// As CIDRs, the fewest that have exactly its addresses: `10.0.0.0/16`.
    Two,
}

impl Report {
    ghost use Rattle.std.specs.Prelude.{◌≡◌};
    ghost use Rattle.np_args.specs.Values.{report_of};

    /// The report of this number: `1` or `2`. `None` where the text is neither.
    pub fn named(name: &str) -> Option<Report>
        ensures { result ≡ report_of name.now }
    {
        match name {
            "1" => Some(Report::One),
            "2" => Some(Report::Two),
            _ => None,
        }
    }
}
