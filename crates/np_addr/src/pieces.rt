//! Texts cut at separators.
ghost use Rattle.std.specs.Prelude.{◌≡◌, ◌<◌, [], ◌∷◌, length, MatchOption, IfSome};
ghost use Rattle.np_addr.specs.Prelude.{pieces};

// The text before the first separator and the text after it.
pub(crate) fn split_first(text: &str, separator: char) -> Option<(&str, &str)>
    requires { separator < 128 }
    ensures cut { MatchOption result (pieces separator text.now ≡ text.now ∷ [])
        (λ sides. pieces separator text.now ≡ sides.0.now ∷ pieces separator sides.1.now) }
    ensures shorter { IfSome result (λ sides. length sides.1.now < length text.now) }
{
    text.split_once(separator)
}
