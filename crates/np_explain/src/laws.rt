//! What follows from the definitions. Each law is the contract of a call that does nothing.
ghost use Rattle.std.specs.Prelude.{◌≡◌, ◌≢◌, ◌↔◌, ◌<◌, ◌^◌, ◌&&◌, IsTrue, List, [], ◌∷◌, map, filter, true, All, AllPairs};
ghost use Rattle.np_addr.specs.declared.address.Family.{Family};
ghost use Rattle.np_conns.specs.Prelude.{IsConns, has_spot, is_spot};
ghost use Rattle.np_conns.specs.declared.port_spot.PortSpot.{PortSpot};
ghost use Rattle.np_model.specs.Prelude.{is_well};
ghost use Rattle.np_model.specs.declared.lists.EstateLists.{EstateLists};
ghost use Rattle.np_explain.specs.Prelude.{AreRightParts, IsRightFor, decider_at, decider_between, decider_text, end_at, explanation_of, has_rule, is_address, is_well_named, packet_between, part_line, parts_of, placed_at, same_sides};
ghost use Rattle.np_explain.specs.declared.explanation.Explanation.{Explanation};
ghost use Rattle.np_explain.specs.declared.part.Part.{Part};
ghost use Rattle.np_model.specs.declared.direction.Direction.{Direction};
ghost use Rattle.np_model.specs.declared.direction.Direction.TheVariants.{Ingress, Egress};
ghost use Rattle.np_rules.specs.Prelude.{Contact, ModelEnd as RuleEnd, ModelPacket, allows, contact_of, decider, decider_allows, end_allows, end_of, end_rule_count};
ghost use Rattle.np_rules.specs.declared.decider.Decider.{Decider};
ghost use Rattle.np_rules.specs.declared.decider.Decider.TheVariants.{NoSide};
ghost use Rattle.np_rules.specs.declared.packet.End.{End};

/// At most one list of parts is right for what decides each spot.
pub fn one_list_of_parts_is_right()
    ensures { (decides : PortSpot → Decider) (parts others : List Part) →
        AreRightParts decides parts → AreRightParts decides others → parts ≡ others }
{}

/// The parts that are made from what decides each spot are right, and whatever parts are right are these.
pub fn right_parts_are_these()
    ensures right { (decides : PortSpot → Decider) → AreRightParts decides (parts_of decides) }
    ensures only { (decides : PortSpot → Decider) (parts : List Part) → AreRightParts decides parts → parts ≡ parts_of decides }
{}

/// Each spot is in exactly one of the right parts, that of its decider. So the sets are disjoint and cover the space.
pub fn each_spot_is_in_one_part()
    ensures { (decides : PortSpot → Decider) (parts : List Part) (spot : PortSpot) →
        AreRightParts decides parts → is_spot spot ≡ true →
        map (λ part. part.decider) (filter (λ part. has_spot part.conns spot) parts) ≡ decides spot ∷ [] }
{}

/// What the decider of a right part says is the verdict of its side at each of its spots.
pub fn parts_give_the_verdict()
    ensures { (lists : EstateLists) (direction : Direction) (source destination : End) (family : Family) (parts : List Part) →
        AreRightParts (decider_between lists direction source destination family) parts →
        All (λ part. (spot : PortSpot) → has_spot part.conns spot ≡ true → decider_allows part.decider
        ≡ end_allows lists direction (end_at direction (packet_between lists source destination family spot))
        (contact_of direction (packet_between lists source destination family spot))) parts }
{}

/// A packet is allowed where what decides at its source allows it and what decides at its destination does.
pub fn both_sides_give_the_verdict()
    ensures { (lists : EstateLists) (packet : ModelPacket) → allows lists packet
        ≡ (decider_allows (decider_at lists Egress packet) && decider_allows (decider_at lists Ingress packet)) }
{}

/// A packet has no side at an end exactly where the end is an address.
pub fn only_addresses_have_no_side()
    ensures { (lists : EstateLists) (direction : Direction) (end : RuleEnd) (contact : Contact) →
        IsTrue (is_address end) ↔ (decider lists direction end contact ≡ NoSide) }
{}

/// The explanation of two ends is right for them, and for all ends between which the same decides at both sides.
pub fn explanations_are_right()
    ensures right { (lists : EstateLists) (source destination : End) (family : Family) →
        IsRightFor lists source destination family (explanation_of lists source destination family) }
    ensures alike { (lists : EstateLists) (s d s' d' : End) (family : Family) (made : Explanation) →
        ((spot : PortSpot) → decider_between lists Egress s d family spot ≡ decider_between lists Egress s' d' family spot) →
        ((spot : PortSpot) → decider_between lists Ingress s d family spot ≡ decider_between lists Ingress s' d' family spot) →
        IsRightFor lists s d family made → IsRightFor lists s' d' family made }
{}

/// Where the parts of both sides are the same in two families, the explanation of the one is right in the other.
pub fn same_sides_explain_both_families()
    ensures { (lists : EstateLists) (source destination : End) (family other : Family) →
        same_sides (explanation_of lists source destination family) (explanation_of lists source destination other) ≡ true →
        IsRightFor lists source destination other (explanation_of lists source destination family) }
{}

/// The text of what decides belongs to one decider, whichever direction it is printed for, where all names are such as the
/// policies have that are read. Where some rule stands in it, it belongs to one direction too.
pub fn one_text_has_one_decider()
    ensures decider { (a b : Direction) (d e : Decider) → is_well_named d ≡ true → is_well_named e ≡ true →
        decider_text a d ≡ decider_text b e → d ≡ e }
    ensures direction { (a b : Direction) (d e : Decider) → is_well_named d ≡ true → is_well_named e ≡ true →
        has_rule d ≡ true → decider_text a d ≡ decider_text b e → a ≡ b }
{}

/// Where all names of the lists are well formed, as in every estate that is read, and fewer than 2^64 rules speak of an end,
/// all names are such in whatever decides a packet at the end.
pub fn deciders_of_read_policies_are_well_named()
    ensures { (lists : EstateLists) (direction : Direction) (end : RuleEnd) (contact : Contact) →
        is_well lists ≡ true → end_rule_count lists direction end < 2 ^ 64 →
        is_well_named (decider lists direction end contact) ≡ true }
{}

/// So they are in all parts of a side, and no two parts of it have one text.
pub fn parts_have_texts_of_their_own()
    ensures named { (lists : EstateLists) (direction : Direction) (source destination : End) (family : Family) (parts : List Part) →
        is_well lists ≡ true → end_rule_count lists direction (end_of lists (placed_at direction source destination)) < 2 ^ 64 →
        AreRightParts (decider_between lists direction source destination family) parts →
        All (λ part. is_well_named part.decider ≡ true) parts }
    ensures texts { (lists : EstateLists) (direction : Direction) (source destination : End) (family : Family) (parts : List Part) →
        is_well lists ≡ true → end_rule_count lists direction (end_of lists (placed_at direction source destination)) < 2 ^ 64 →
        AreRightParts (decider_between lists direction source destination family) parts →
        AllPairs (λ a b. decider_text direction a.decider ≢ decider_text direction b.decider) parts }
{}

/// A line of an explanation tells what decides, and all that it decides.
pub fn one_line_has_one_part()
    ensures { (direction : Direction) (a b : Part) → IsConns a.conns → IsConns b.conns →
        is_well_named a.decider ≡ true → is_well_named b.decider ≡ true →
        part_line direction a ≡ part_line direction b → (a.conns ≡ b.conns) × (a.decider ≡ b.decider) }
{}
