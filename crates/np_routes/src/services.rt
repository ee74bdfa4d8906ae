//! The listed services by their names.
ghost use Rattle.std.specs.Prelude.{◌≡◌, ℕ, List, Some, None, IfOk, OnOk, if◌then◌else◌};
ghost use Rattle.std.specs.Option.{option_or};
ghost use Rattle.np_routes.specs.Services.{is_service, service_named};
ghost use Rattle.np_routes.specs.steps.ServicesByName.{IsPlaceOf, place_at};

use np_base::NoMemory;
use np_model::ServiceItem;
use std::alloc::Global;
use std::collections::BTreeMap;
use std::marker::Model;

/// The places of the listed services, to be found by namespace and name. Contracts see the list.
pub(crate) struct Services<'a> {
    listed: &'a [ServiceItem],
    places: BTreeMap<(&'a str, &'a str), usize>,
}

// Written out, so that letting one go is one call.
impl<'a> Drop for Services<'a> {
    fn drop(self) {
        let Services {
            listed: _listed,
            places: _places,
        } = self;
    }
}

impl<'a> Model for Services<'a> {
    ghost use Rattle.std.specs.Prelude.{List};
    ghost use Rattle.np_model.specs.declared.service.ServiceItem.{ServiceItem};

    ghost Value = { List ServiceItem };

    ghost use Rattle.np_routes.specs.steps.ServicesByName.{HoldsPlaces};

    ghost view = { λ s. s.listed.now };

    ghost invariant = { λ s. HoldsPlaces s.listed.now s.places };
}

impl<'a> Services<'a> {
    /// These services, which are gone through once.
    pub(crate) fn of(alloc: Global, listed: &'a [ServiceItem]) -> Result<Services<'a>, NoMemory>
        ensures { IfOk result (λ made. made ≡ listed.now) }
    {
        let mut places = BTreeMap::new(alloc);
        for (place, service) in listed.iter().enumerate() {
            put(&mut places, service, place)?;
        }
        Ok(Services { listed, places })
    }

    /// The place of the service of a namespace and a name, of the first listed one where there are several. `None` exactly
    /// where there is none. The two texts are to be kept as long as the services.
    pub(crate) fn place(&self, namespace: &'a str, name: &'a str) -> Option<usize>
        ensures { IsPlaceOf self.now (service_named self.now namespace.now name.now) result }
    {
        self.places.get(&(namespace, name)).copied()
    }
}

// Puts the place of a service under its name, unless an earlier one stands there.
fn put<'a>(
    places: &mut BTreeMap<(&'a str, &'a str), usize>,
    service: &'a ServiceItem,
    place: usize,
) -> Result<(), NoMemory>
    ensures { OnOk result ((namespace name : List ℕ) → place_at places.new namespace name
        ≡ option_or (place_at places.old namespace name) (if is_service namespace name service.now then Some place else None)) }
{
    let key = (service.namespace.as_str(), service.name.as_str());
    if !places.contains_key(&key) {
        places.insert(key, place)?;
    }
    Ok(())
}
