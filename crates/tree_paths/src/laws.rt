ghost use Rattle.std.specs.Prelude.{◌≡◌, ℕ, ◌≤◌, List, ◌∷◌, length, Bool, true, false};
ghost use Rattle.std.specs.Str.{is_utf8};
ghost use Rattle.call_script.specs.Printing.{IsText};
ghost use Rattle.tree_paths.specs.Tree.{IsInside, is_tree_path, ArePairwiseApart};
ghost use Rattle.tree_paths.specs.Naming.{tree_path, tree_name, tree_paths};

/// No name, whatever its bytes, has a path that leads out of the folder in which it begins, or to that folder itself.
pub fn paths_stay_inside()
    ensures { (name : List ℕ) (is_aside : Bool) → IsInside (tree_path name is_aside) }
{}

/// The name of a file is found again by its path, also where it was put aside.
pub fn names_are_found_again()
    ensures { (name : List ℕ) (is_aside : Bool) → IsText name → tree_name (tree_path name is_aside) ≡ name }
{}

/// Different names have different paths, whichever of them are put aside.
pub fn different_names_have_different_paths()
    ensures { (name other : List ℕ) (is_aside other_aside : Bool) → IsText name → IsText other →
        tree_path name is_aside ≡ tree_path other other_aside → name ≡ other }
{}

/// A tree comes back as it was: each path of it by which a host goes down, of at most 30 bytes of UTF-8, has the name that is a slash and the
/// path, and that name has that path.
pub fn trees_come_back()
    ensures name { (path : List ℕ) → length path ≤ 30 → tree_name path ≡ 47 ∷ path }
    ensures path { (path : List ℕ) → is_tree_path path ≡ true → is_utf8 path ≡ true → length path ≤ 30 →
        tree_path (47 ∷ path) false ≡ path }
{}

/// Where names are put one after the other, each aside that clashes with an earlier one, no path is a folder on the path of another.
pub fn files_are_no_folders()
    ensures { (names : List (List ℕ)) → ArePairwiseApart (tree_paths names) }
{}
