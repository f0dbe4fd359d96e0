ghost use Rattle.geometry.specs.declared.geometry.Geometry.{Geometry};
ghost use Rattle.room_laws.specs.Taking.{KindsAreTested, PlacesAreBy, PlacesAreFound};

/// The tests of an image's blocks tell their kinds by what their entries count as, also while copies lie beside their pages:
/// which free pages are places by the rule, and that one is found where pages have places.
pub fn tests_tell_places()
    ensures kinds { (g : Geometry) → KindsAreTested g }
    ensures places { (g : Geometry) → PlacesAreBy g }
    ensures found { (g : Geometry) → PlacesAreFound g }
{}
