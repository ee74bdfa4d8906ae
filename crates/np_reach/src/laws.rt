//! What follows from the definitions. Each law is the contract of a call that does nothing.
ghost use Rattle.std.specs.Prelude.{◌≡◌, false};
ghost use Rattle.np_model.specs.declared.lists.EstateLists.{EstateLists};
ghost use Rattle.np_model.specs.declared.direction.Direction.{Direction};
ghost use Rattle.np_reach.specs.Prelude.{may_reach};
ghost use Rattle.np_rules.specs.Prelude.{Contact, PodEnd};
ghost use Rattle.np_rules.specs.model.Sides.{side_allows};

/// The side of a pod allows nothing with a far end that is out of its reach, so that no row is lost with it.
pub fn no_port_out_of_reach()
    ensures { (lists : EstateLists) (direction : Direction) (near : PodEnd) (contact : Contact) →
        may_reach lists direction near contact.far ≡ false → side_allows lists direction near contact ≡ false }
{}
