//! Types whose values are numbers in a range.
ghost use Rattle.std.specs.Prelude.{◌≡◌, ℕ, ◌≤◌, ◌<◌, ◌^◌, max, min};
ghost use Rattle.std.specs.Option.{SomeIff};

/// A type whose values are the numbers from `LOW` to `HIGH`, each once: ports, or the addresses of a family.
pub trait Point: Copy {
    /// The least number.
    const LOW: u128;

    /// The greatest number.
    const HIGH: u128;

    ghost LOW: { ℕ };

    ghost HIGH: { ℕ };

    /// The number of a point.
    ghost number_of: { Self → ℕ };

    /// The point of a number.
    ghost point_of: { ℕ → Self };

    /// The number of this point, which is in the range.
    fn number(self) -> u128
        ensures value { result ≡ number_of self }
        ensures low { LOW ≤ number_of self }
        ensures high { number_of self ≤ HIGH };

    /// The point of a number. `None` exactly where the number is out of the range.
    fn at(n: u128) -> Option<Self>
        ensures { SomeIff result ((LOW ≤ n) × (n ≤ HIGH)) (point_of n) };

    ghost ordered: { LOW ≤ HIGH };

    ghost bounded: { HIGH < 2 ^ 128 };

    ghost number_of_point: { (n : ℕ) → LOW ≤ n → n ≤ HIGH → number_of (point_of n) ≡ n };

    ghost point_of_number: { (p : Self) → LOW ≤ number_of p → number_of p ≤ HIGH → point_of (number_of p) ≡ p };
}

/// The point of the greater number.
pub fn later<P: Point>(left: P, right: P) -> P
    ensures { P.number_of result ≡ max (P.number_of left) (P.number_of right) }
{
    if left.number() < right.number() {
        right
    } else {
        left
    }
}

/// The point of the smaller number.
pub fn earlier<P: Point>(left: P, right: P) -> P
    ensures { P.number_of result ≡ min (P.number_of left) (P.number_of right) }
{
    if left.number() < right.number() {
        left
    } else {
        right
    }
}
