//! Whether lists are equal.
ghost use Rattle.std.specs.Prelude.{◌≡◌, ◌≢◌, MatchBool};

/// Values that can be compared.
pub trait Same {
    /// Whether another value is equal.
    fn is_same(&self, other: &Self) -> bool
        ensures { MatchBool result (self.now ≡ other.now) (self.now ≢ other.now) };
}

/// Whether two lists are equal.
pub fn are_same<T: Same>(these: &[T], those: &[T]) -> bool
    ensures { MatchBool result (these.now ≡ those.now) (these.now ≢ those.now) }
{
    for (place, this) in these.iter().enumerate() {
        let Some(that) = those.get(place) else {
            return false;
        };
        if !this.is_same(that) {
            return false;
        }
    }
    these.len() == those.len()
}
