ghost use Rattle.std.specs.Prelude.{◌≡◌};
ghost use Rattle.tree_paths.specs.Naming.{clash, is_over as over};

// Whether a name goes on with a slash behind another.
fn is_over(name: &[u8], other: &[u8]) -> bool
    ensures { result ≡ over name.now other.now }
{
    match other.strip_prefix(name) {
        Some([b'/', ..]) => true,
        _ => false,
    }
}

/// Whether the path of one of two names would be a folder on the path of the other, so that not both can be files of one tree. Then one of
/// them is put aside.
pub fn is_clash(name: &[u8], other: &[u8]) -> bool
    ensures { result ≡ clash name.now other.now }
{
    is_over(name, other) || is_over(other, name)
}
