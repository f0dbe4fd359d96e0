ghost use Rattle.std.specs.Prelude.{◌≡◌, ◌≢◌, ◌<◌, ◌≤◌, ◌||◌, length, All, IfErr, OnOk, Some, None, true};
ghost use Rattle.table_model.specs.Names.{is_bad_name, name_refusal, names_refusal};
ghost use Rattle.file_calls.specs.Replies.{is_of_name};

use table_model::FsErr;

// The refusal of a name: empty or with a zero byte, or longer than 31 bytes.
#[tactic(auto, unfolding(table_model::specs::Names::name_refusal))]
pub(crate) fn accept(name: &[u8]) -> Result<(), FsErr>
    ensures some { OnOk result (1 ≤ length name.now) }
    ensures short { OnOk result (length name.now ≤ 31) }
    ensures no_zero { OnOk result (All (λ b. b ≢ 0) name.now) }
    ensures fine { OnOk result (name_refusal name.now ≡ None) }
    ensures among { IfErr result (λ why. is_of_name why ≡ true) }
    ensures refused { IfErr result (λ why. name_refusal name.now ≡ Some why) }
{
    if name.is_empty() || name.contains(&0) {
        return Err(FsErr::BadName);
    }
    if name.len() > 31 {
        return Err(FsErr::NameTooLong);
    }
    Ok(())
}

// Whether a name is empty or holds a zero byte.
fn is_bad(name: &[u8]) -> bool
    ensures { result ≡ is_bad_name name.now }
{
    name.is_empty() || name.contains(&0)
}

// The refusal of the two names of a rename: one of them is empty or has a zero byte, or one is longer than 31 bytes.
#[tactic(auto, unfolding(table_model::specs::Names::names_refusal))]
pub(crate) fn accept_both(old_name: &[u8], new_name: &[u8]) -> Result<(), FsErr>
    ensures some { OnOk result (1 ≤ length new_name.now) }
    ensures short { OnOk result (length new_name.now ≤ 31) }
    ensures no_zero { OnOk result (All (λ b. b ≢ 0) new_name.now) }
    ensures fine { OnOk result (names_refusal old_name.now new_name.now ≡ None) }
    ensures among { IfErr result (λ why. is_of_name why ≡ true) }
    ensures refused { IfErr result (λ why. names_refusal old_name.now new_name.now ≡ Some why) }
{
    if is_bad(old_name) || is_bad(new_name) {
        return Err(FsErr::BadName);
    }
    if old_name.len() > 31 || new_name.len() > 31 {
        return Err(FsErr::NameTooLong);
    }
    Ok(())
}
