ghost use Rattle.geometry.specs.declared.geometry.Geometry.{Geometry};
ghost use Rattle.image_laws.specs.Remove.{RemovingIsSound, RemovingLeaves, OrphanKills, DeadKills, OrphansEnd};

/// Removing a header page leaves the image sound, and tidy but for the pages of its file.
pub fn removing_leaves()
    ensures cuts { (g : Geometry) → RemovingIsSound g }
    ensures done { (g : Geometry) → RemovingLeaves g }
{}

/// The pages of a file that is removed may be killed one after the other.
pub fn orphans_go()
    ensures live { (g : Geometry) → OrphanKills g }
    ensures dead { (g : Geometry) → DeadKills g }
    ensures end { (g : Geometry) → OrphansEnd g }
{}
