//! What follows from the definitions. Each law is the contract of a call that does nothing.
ghost use Rattle.std.specs.Prelude.{◌≡◌};
ghost use Rattle.np_addr.specs.declared.address.Family.{Family};
ghost use Rattle.np_conns.specs.declared.port_spot.PortSpot.{PortSpot};
ghost use Rattle.np_model.specs.declared.lists.EstateLists.{EstateLists};
ghost use Rattle.np_kinds.specs.Prelude.{AreOneKind};
ghost use Rattle.np_model.specs.declared.direction.Direction.{Direction};
ghost use Rattle.np_model.specs.declared.direction.Direction.TheVariants.{Ingress, Egress};
ghost use Rattle.np_rules.specs.Prelude.{ModelEnd, allows, contact_of, decider, end_rule_count};

/// The verdict of a packet depends on the kinds of its ends alone: between ends of the same kinds, packets of one family,
/// protocol and port are allowed or denied alike. An end may also be an address, or a pod that nobody has written yet.
pub fn kinds_give_the_verdict()
    ensures { (lists : EstateLists) (family : Family) (spot : PortSpot) (a a' b b' : ModelEnd) →
        AreOneKind lists a a' → AreOneKind lists b b' →
        allows lists (record { source = a; destination = b; family = family; spot = spot })
        ≡ allows lists (record { source = a'; destination = b'; family = family; spot = spot }) }
{}

/// So does what decides the packet, at its source and at its destination.
pub fn kinds_give_the_deciders()
    ensures source { (lists : EstateLists) (family : Family) (spot : PortSpot) (a a' b b' : ModelEnd) →
        AreOneKind lists a a' → AreOneKind lists b b' →
        decider lists Egress a (contact_of Egress (record { source = a; destination = b; family = family; spot = spot }))
        ≡ decider lists Egress a' (contact_of Egress (record { source = a'; destination = b'; family = family; spot = spot })) }
    ensures destination { (lists : EstateLists) (family : Family) (spot : PortSpot) (a a' b b' : ModelEnd) →
        AreOneKind lists a a' → AreOneKind lists b b' →
        decider lists Ingress b (contact_of Ingress (record { source = a; destination = b; family = family; spot = spot }))
        ≡ decider lists Ingress b' (contact_of Ingress (record { source = a'; destination = b'; family = family; spot = spot })) }
{}

/// As many rules speak of ends of one kind, in each direction.
pub fn kinds_give_the_rule_counts()
    ensures { (lists : EstateLists) (direction : Direction) (a a' : ModelEnd) → AreOneKind lists a a' →
        end_rule_count lists direction a ≡ end_rule_count lists direction a' }
{}
