ghost use Rattle.std.specs.Prelude.{Bool, List};
ghost use Rattle.geometry.specs.declared.geometry.Geometry.{Geometry};
ghost use Rattle.table_model.specs.Table.{File};
ghost use Rattle.copy_model.specs.Stages.{ImageTables, StartsCopy, CopiesNext, KeepsNext, DoneIsUnder, DoneIsThere};
ghost use Rattle.copy_model.specs.Under.{IsUnder, IsLeft, IsCopied};

/// What one copy may have left, several may have left; so may those and one more. A copy that is done after them is done as if they had not been.
#[tactic(auto, using(crate::proofs::Again::under_left, crate::proofs::Again::left_again, crate::proofs::Again::copied_again))]
pub fn copies_go_on()
    ensures left { (alike : Bool) (source first now : List File) → IsUnder alike source first now → IsLeft alike source first now }
    ensures again { (alike : Bool) (source first mid now : List File) → IsLeft alike source first mid → IsLeft alike source mid now →
        IsLeft alike source first now }
    ensures done { (alike : Bool) (source first mid now : List File) → IsLeft alike source first mid → IsCopied alike source mid now →
        IsCopied alike source first now }
{}

/// What the tables of a copy have of each name, from the first one to the last: of a table that an image can have.
pub fn copies_keep_names()
    ensures tables { (g : Geometry) → ImageTables g }
    ensures starts { StartsCopy }
    ensures copies { (g : Geometry) → CopiesNext g }
    ensures keeps { KeepsNext }
    ensures under { DoneIsUnder }
    ensures there { DoneIsThere }
{}
