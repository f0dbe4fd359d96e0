ghost use Rattle.geometry.specs.declared.geometry.Geometry.{Geometry};
ghost use Rattle.renew_laws.specs.OneId.{OneIdIsTidy};
ghost use Rattle.renew_laws.specs.Renew.{RenewCuts, NoneLeft, RenewSpares};
ghost use Rattle.renew_laws.specs.NewHead.{NewHeadCuts, NewHeadTidies};
ghost use Rattle.renew_laws.specs.Truncate.{TruncatedLeads, LeftIsPast};
ghost use Rattle.renew_laws.specs.Leads.{RenamedLeads, RenameTidies};

/// Where the pages of one id have changed, its file is put into the table and the image is tidy.
pub fn changes_tidy()
    ensures { (g : Geometry) → OneIdIsTidy g }
{}

/// A renewed header page: each cut is before or after and sound, and done it is tidy but for what only the old one named.
pub fn renewing_puts()
    ensures cuts { (g : Geometry) → RenewCuts g }
    ensures spares { (g : Geometry) → RenewSpares g }
    ensures none { (g : Geometry) → NoneLeft g }
{}

/// The header page of a new file: each cut is before or after and sound, and done the image is as tidy as before.
pub fn new_header_puts()
    ensures cuts { (g : Geometry) → NewHeadCuts g }
    ensures tidy { (g : Geometry) → NewHeadTidies g }
{}

/// What a renamed header page leads to; a rename leaves the image tidy.
pub fn renaming_tidies()
    ensures leads { (g : Geometry) → RenamedLeads g }
    ensures tidy { (g : Geometry) → RenameTidies g }
{}

/// A truncated header page leads to the first bytes, and does not need the pages past the new counts.
pub fn truncating_leads()
    ensures leads { (g : Geometry) → TruncatedLeads g }
    ensures left { (g : Geometry) → LeftIsPast g }
{}
