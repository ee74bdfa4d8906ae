//! What follows from the definitions. Each law is the contract of a call that does nothing.
ghost use Rattle.std.specs.Prelude.{◌≡◌, ◌≤◌, ℕ, Bool, List, true, count_by};
ghost use Rattle.np_conns.specs.Prelude.{Conns, IsConns, has_spot, is_spot};
ghost use Rattle.np_conns.specs.declared.port_spot.PortSpot.{PortSpot};
ghost use Rattle.np_pieces.specs.Prelude.{Covers, has_at};
ghost use Rattle.np_pieces.specs.declared.piece.Piece.{Piece};
ghost use Rattle.np_table.specs.Prelude.{IsRight, Stretch, is_within, stretches_of, walk};

/// Exactly one list of ranges is right, and the walk from the least number to the greatest builds it.
pub fn one_list_is_right()
    ensures walk { (passes : ℕ → PortSpot → Bool) (low high : ℕ) → low ≤ high →
        IsRight passes low high (walk passes low high) }
    ensures one { (passes : ℕ → PortSpot → Bool) (low high : ℕ) (stretches : List Stretch) → low ≤ high →
        IsRight passes low high stretches → stretches ≡ walk passes low high }
{}

/// Tests that agree on every port of every number of a space have the same list.
pub fn equal_tests_have_one_list()
    ensures { (passes passes' : ℕ → PortSpot → Bool) (low high : ℕ) → low ≤ high →
        ((n : ℕ) (spot : PortSpot) → low ≤ n → n ≤ high → is_spot spot ≡ true → passes n spot ≡ passes' n spot) →
        walk passes low high ≡ walk passes' low high }
{}

/// Each number of the space is in exactly one range of the right list.
pub fn each_number_is_in_one_range()
    ensures { (passes : ℕ → PortSpot → Bool) (low high n : ℕ) (stretches : List Stretch) →
        IsRight passes low high stretches → low ≤ n → n ≤ high → count_by (is_within n) stretches ≡ 1 }
{}

/// The fewest pieces of a value over a space are the right list of what passes by the value at each number. It holds
/// for points of each type, and each numbering of them.
pub fn pieces_are_right<P>()
    ensures { (number_of : P → ℕ) (low high : ℕ) (pieces : List (Piece P Conns)) →
        Covers number_of IsConns low high pieces →
        IsRight (has_at number_of has_spot pieces) low high (stretches_of number_of pieces) }
{}
