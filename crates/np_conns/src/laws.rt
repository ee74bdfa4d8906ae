//! Laws of the spans and the text of connections. The functions do nothing: what they ensure is the law.
ghost use Rattle.std.specs.Prelude.{◌≡◌, ℕ, ◌≤◌, Bool, true, List};
ghost use Rattle.np_base.specs.Ranges.{holds};
ghost use Rattle.np_base.specs.declared.range.Range.{Range};
ghost use Rattle.np_conns.specs.Prelude.{AscendsInPorts, Conns, IsConns, conns_text, has_spot, is_spot, runs};
ghost use Rattle.np_conns.specs.declared.port_spot.PortSpot.{PortSpot};

/// The runs of a test of ports have exactly the ports that pass it. They ascend, and between two of them a port is
/// missing. No other list of ranges does that.
pub fn runs_are_the_ports_that_pass()
    ensures members { (passes : ℕ → Bool) (port : ℕ) → 1 ≤ port → port ≤ 65535 →
        holds (λ p. p) (runs passes) port ≡ passes port }
    ensures ascending { (passes : ℕ → Bool) → AscendsInPorts (runs passes) }
    ensures no_other { (passes : ℕ → Bool) (ranges : List (Range ℕ)) → AscendsInPorts ranges →
        ((port : ℕ) → 1 ≤ port → port ≤ 65535 → holds (λ p. p) ranges port ≡ passes port) →
        ranges ≡ runs passes }
{}

/// Tests that agree on every spot have one text.
pub fn equal_spots_have_one_text()
    ensures { (f g : PortSpot → Bool) →
        ((spot : PortSpot) → is_spot spot ≡ true → f spot ≡ g spot) → conns_text f ≡ conns_text g }
{}

/// Sets of one text are equal: the text tells the set.
pub fn one_text_has_one_set()
    ensures { (a b : Conns) → IsConns a → IsConns b →
        conns_text (has_spot a) ≡ conns_text (has_spot b) → a ≡ b }
{}
