ghost use Rattle.geometry.specs.declared.geometry.Geometry.{Geometry};
ghost use Rattle.renew_laws.specs.Append.{AppendingTidies, AppendingIsSound, SpanIsKept, SpanIsNamed, AppendedLeads, AppendedIsWritten, AppendedServes, OnePageAppends, ManyPagesAppend};
ghost use Rattle.renew_laws.specs.Append.{RenewedTidies};

/// Bytes appended inside the last data page leave the image tidy, and so does a header page that all pages of its file serve.
pub fn appending_tidies()
    ensures beside { (g : Geometry) → AppendingTidies g }
    ensures sound { (g : Geometry) → AppendingIsSound g }
    ensures renewed { (g : Geometry) → RenewedTidies g }
{}

/// Which data page a header page leads to.
pub fn entries_lead()
    ensures kept { (g : Geometry) → SpanIsKept g }
    ensures named { (g : Geometry) → SpanIsNamed g }
{}

/// What a header page with more bytes leads to.
pub fn appending_leads()
    ensures leads { (g : Geometry) → AppendedLeads g }
    ensures written { (g : Geometry) → AppendedIsWritten g }
    ensures serves { (g : Geometry) → AppendedServes g }
    ensures one { (g : Geometry) → OnePageAppends g }
    ensures many { (g : Geometry) → ManyPagesAppend g }
{}
