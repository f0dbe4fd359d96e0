ghost use Rattle.geometry.specs.declared.geometry.Geometry.{Geometry};
ghost use Rattle.renew_laws.specs.Primed.{PrimeStarts, PrimedPlaces, PrimeData, PrimeIndex, PrimeFill, PrimeName, FillHolds, NameHolds, PrimedRenews};

/// What an append does before its header page keeps the image: a data page or a further index page is put beside, bytes or an entry are programmed in place.
pub fn priming_keeps()
    ensures starts { (g : Geometry) → PrimeStarts g }
    ensures places { (g : Geometry) → PrimedPlaces g }
    ensures data_page { (g : Geometry) → PrimeData g }
    ensures index_page { (g : Geometry) → PrimeIndex g }
    ensures fill { (g : Geometry) → PrimeFill g }
    ensures name { (g : Geometry) → PrimeName g }
{}

/// Bytes and entries that were programmed over 0xFF stand there.
pub fn programs_hold()
    ensures bytes { (g : Geometry) → FillHolds g }
    ensures entry { (g : Geometry) → NameHolds g }
{}

/// Then the header page is renewed, and says that the file has these bytes more.
pub fn primed_renews()
    ensures { (g : Geometry) → PrimedRenews g }
{}
