ghost use Rattle.std.specs.Prelude.{◌≡◌, ◌∷◌, string_bytes, IfOk};
ghost use Rattle.tree_paths.specs.Tree.{IsInside};
ghost use Rattle.tree_paths.specs.Naming.{tree_path, tree_name, aside_path as path_aside};

use crate::decoding::decoded;
use crate::parting::plain_path;
use crate::spelling::push_spelled;
use std::alloc::{AllocError, Global};

/// The folder of the names that are no paths of a tree, and the slash behind it. It is longer than the part of a path that stands in a
/// name can be.
pub const ASIDE: &str = "names-that-do-not-fit-into-a-tree/";

// The path of a name that is put aside.
fn aside_path(alloc: Global, name: &[u8]) -> Result<String, AllocError>
    ensures { IfOk result (λ path. string_bytes path ≡ path_aside name.now) }
{
    let mut path = String::from_str(alloc, ASIDE)?;
    push_spelled(&mut path, name)?;
    Ok(path)
}

/// The path of a file's name, relative to the folder that files are put into: what stands behind its slash, where that is a path of up to
/// 30 bytes of UTF-8 by which a host goes down alone. Every other name, and one that is to be put aside, is a file of the folder
/// `ASIDE`, spelled as `push_spelled` does.
pub fn path_of(alloc: Global, name: &[u8], is_aside: bool) -> Result<String, AllocError>
    ensures path { IfOk result (λ path. string_bytes path ≡ tree_path name.now is_aside) }
    ensures inside { IfOk result (λ path. IsInside (string_bytes path)) }
{
    match plain_path(name) {
        Some(path) if !is_aside => String::from_str(alloc, path),
        _ => aside_path(alloc, name),
    }
}

// A slash, and these bytes.
fn behind_slash(alloc: Global, path: &[u8]) -> Result<Vec<u8>, AllocError>
    ensures { IfOk result (λ name. name.items ≡ 47 ∷ path.now) }
{
    let mut name = Vec::new(alloc);
    name.push(b'/')?;
    name.extend_from_slice(path)?;
    Ok(name)
}

/// The name of the file with that path, relative to the folder that is packed: a slash and the path, or what it stands for in the folder
/// `ASIDE`. A path of up to 30 bytes gives a name that a file of a volume can have.
pub fn name_of(alloc: Global, path: &str) -> Result<Vec<u8>, AllocError>
    ensures { IfOk result (λ name. name.items ≡ tree_name path.now) }
{
    match path.as_bytes().strip_prefix(ASIDE.as_bytes()) {
        Some(spelled) => decoded(alloc, spelled),
        None => behind_slash(alloc, path.as_bytes()),
    }
}
