//! How the rows of a table are written.

/// How the rows of a table are written.
#[derive(Clone, Copy, PartialEq, Eq)]
pub enum Format {
    /// A line of text for each row: `source => destination : connections`.
    Plain,
    /// Comma-separated values, under a header row.
    Csv,
    /// A JSON list of objects.
    Json,
}

impl Format {
    ghost use Rattle.std.specs.Prelude.{◌≡◌};
    ghost use Rattle.np_args.specs.Values.{format_of};

    /// The format of this name: `text`, `csv` or `json`. `None` where the name is none of the three.
    pub fn named(name: &str) -> Option<Format>
        ensures { result ≡ format_of name.now }
    {
        match name {
            "text" => Some(Format::Plain),
            "csv" => Some(Format::Csv),
            "json" => Some(Format::Json),
            _ => None,
        }
    }
}
