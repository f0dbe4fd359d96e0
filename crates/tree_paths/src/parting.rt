ghost use Rattle.std.specs.Prelude.{◌≡◌, ◌∷◌, true, false, MatchOption};
ghost use Rattle.tree_paths.specs.Tree.{is_part as part_of_a_path, is_tree_path};
ghost use Rattle.tree_paths.specs.Naming.{is_plain};

use std::str;

/// The most bytes of a path that stands in a name behind a slash.
const MOST: usize = 30;

// Whether a host goes down by a part of a path: it isn't empty, nor `.` or `..`, and holds no zero byte.
fn is_part(part: &[u8]) -> bool
    ensures { result ≡ part_of_a_path part.now }
{
    !matches!(part, [] | [b'.'] | [b'.', b'.']) && !part.contains(&0)
}

// Whether a host goes down by each part of a path.
fn is_downward(path: &[u8]) -> bool
    ensures { result ≡ is_tree_path path.now }
{
    path.split(|byte| *byte == b'/').all(is_part)
}

/// The path of a name that is a slash and a path.
pub(crate) fn plain_path(name: &[u8]) -> Option<&str>
    ensures { MatchOption result (is_plain name.now ≡ false)
        (λ path. (is_plain name.now ≡ true) × (name.now ≡ 47 ∷ path.now)) }
{
    match name {
        [b'/', path @ ..] if path.len() <= MOST && is_downward(path) => match str::from_utf8(path) {
            Ok(path) => Some(path),
            Err(_) => None,
        },
        _ => None,
    }
}
