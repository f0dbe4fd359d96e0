ghost use Rattle.geometry.specs.declared.geometry.Geometry.{Geometry};
ghost use Rattle.room_laws.specs.Recovery.{ReserveMends, MendedRecovers, ChosenMayCut, StillMends, IndexWayMends, PagesWayMend, BatchWayMends, FreshWayMends};

/// An image with its reserve recovers.
pub fn reserves_mend()
    ensures { (g : Geometry) → ReserveMends g }
{}

/// So does an image that cleanings give two free blocks as it stands.
pub fn mended_images_recover()
    ensures { (g : Geometry) → MendedRecovers g }
{}

/// A cut in the cleaning of the chosen block of an image that can be cleaned is one that is mended.
pub fn chosen_blocks_may_be_cut()
    ensures { (g : Geometry) → ChosenMayCut g }
{}

/// Whatever a cut in a cleaning leaves of an image recovers: between two moves, with an index page on its way, with a batch, and
/// with the emptied block that is being made fresh.
pub fn cut_cleanings_mend()
    ensures still { (g : Geometry) → StillMends g }
    ensures index { (g : Geometry) → IndexWayMends g }
    ensures pages { (g : Geometry) → PagesWayMend g }
    ensures batch { (g : Geometry) → BatchWayMends g }
    ensures fresh { (g : Geometry) → FreshWayMends g }
{}
