// Which names and flags are refused.
ghost use Rattle.std.specs.Prelude.{◌≡◌};
ghost use Rattle.table_model.specs.Names.{is_bad_name, name_refusal, names_refusal};

use table_model::FsErr;

// An empty name, or one that holds a zero byte.
fn is_bad(name: &[u8]) -> bool
    ensures { result ≡ is_bad_name name.now }
{
    name.is_empty() || name.contains(&0)
}

// Why a name is refused, if it is.
#[tactic(auto, unfolding(table_model::specs::Names::name_refusal))]
pub(crate) fn name_fault(name: &[u8]) -> Option<FsErr>
    ensures { result ≡ name_refusal name.now }
{
    if is_bad(name) {
        Some(FsErr::BadName)
    } else if name.len() > 31 {
        Some(FsErr::NameTooLong)
    } else {
        None
    }
}

// Why the two names of a rename are refused, if they are.
#[tactic(auto, unfolding(table_model::specs::Names::names_refusal))]
pub(crate) fn names_fault(old_name: &[u8], new_name: &[u8]) -> Option<FsErr>
    ensures { result ≡ names_refusal old_name.now new_name.now }
{
    if is_bad(old_name) || is_bad(new_name) {
        Some(FsErr::BadName)
    } else if old_name.len() > 31 || new_name.len() > 31 {
        Some(FsErr::NameTooLong)
    } else {
        None
    }
}
