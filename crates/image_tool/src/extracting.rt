ghost use Rattle.std.specs.Prelude.{◌≡◌, ◌<◌, ◌≤◌, length, IfOk, IfErr, IsErrOf};
ghost use Rattle.std.specs.Option.{option_map, IfSome};
ghost use Rattle.geometry.specs.Numbers.{check_need};
ghost use Rattle.nor_core.specs.Count.{Rose};
ghost use Rattle.table_model.specs.Table.{file_above};
ghost use Rattle.image_model.specs.Tables.{table_of, damaged_of};
ghost use Rattle.flash_view.specs.Same.{IsSameView};
ghost use Rattle.file_find.specs.Marks.{IsMarked};
ghost use Rattle.image_tool.specs.Extracting.{IsApart, ExtractsTo};
ghost use Rattle.image_tool.specs.Lists.{list_of, next_record as the_next_record};
ghost use Rattle.image_tool.specs.Putting.{FolderGoes};
ghost use Rattle.image_tool.specs.Saying.{OnlySays};
ghost use Rattle.image_tool.specs.Texts.{list_if, record_lines};

use crate::error::ExtractErr;
use crate::listing::{Part, list_part};
use crate::putting::put_bytes;
use crate::records::say_next_record;
use file_find::survey;
use flash_view::View;
use folder_core::{Folder, FolderState};
use nor_core::{Board, Failed, NorState};

// Says the line of the file of the least id above one, puts the file into a folder, and answers that id.
#[tactic(auto, using(flash_view::proofs::Looking::same_then))]
fn extract_next<B: Board, F: Folder>(
    v: &mut View<'_, B>,
    marks: &[u8],
    after: u16,
    folder: &mut F,
    line: &mut [u8],
) -> Result<Option<u16>, ExtractErr>
    requires room { check_need v.old.geometry ≤ length marks.now }
    requires marked { B.tells v.old.nor.now → IsMarked v.old.geometry (B.bytes v.old.nor.now) marks.now }
    requires line { 12288 ≤ length line.old }
    ensures cause { IsErrOf result ExtractErr.BoardFault → Rose (B.faults v.old.nor.now) (B.faults v.new.nor.now) }
    ensures apart { IfErr result IsApart }
    ensures folder_cause { IsErrOf result ExtractErr.FolderFault → Rose (F.faults folder.old) (F.faults folder.new) }
    ensures same { IsSameView v.old v.new }
    ensures goes { FolderGoes F.FolderState folder.old folder.new }
    ensures above { IfOk result (λ found. IfSome found (λ id. after < id)) }
    ensures says { OnlySays B.NorState v.old.nor.now v.new.nor.now (the_next_record v.old.geometry (B.bytes v.old.nor.now) after) }
    ensures told { B.tells v.old.nor.now →
        ExtractsTo B.NorState F.FolderState (the_next_record v.old.geometry (B.bytes v.old.nor.now) after)
        (list_if (file_above after (table_of v.old.geometry (B.bytes v.old.nor.now)))) v.old.nor.now v.new.nor.now folder.old folder.new
        (λ found. found ≡ option_map (λ f. f.id) (file_above after (table_of v.old.geometry (B.bytes v.old.nor.now)))) result }
{
    let Ok(found) = say_next_record(v, marks, after, line) else {
        return Err(ExtractErr::BoardFault);
    };
    let Some((header, stat)) = found else {
        return Ok(None);
    };
    put_bytes(v, header, &stat, folder, line)?;
    Ok(Some(stat.id))
}

// Says the lines of the files of the table and puts these files into a folder, in order of ids.
#[tactic(auto, using(flash_view::proofs::Looking::same_then))]
fn extract_files<B: Board, F: Folder>(
    v: &mut View<'_, B>,
    marks: &[u8],
    folder: &mut F,
    line: &mut [u8],
) -> Result<(), ExtractErr>
    requires room { check_need v.old.geometry ≤ length marks.now }
    requires marked { B.tells v.old.nor.now → IsMarked v.old.geometry (B.bytes v.old.nor.now) marks.now }
    requires line { 12288 ≤ length line.old }
    ensures cause { IsErrOf result ExtractErr.BoardFault → Rose (B.faults v.old.nor.now) (B.faults v.new.nor.now) }
    ensures apart { IfErr result IsApart }
    ensures folder_cause { IsErrOf result ExtractErr.FolderFault → Rose (F.faults folder.old) (F.faults folder.new) }
    ensures same { IsSameView v.old v.new }
    ensures goes { FolderGoes F.FolderState folder.old folder.new }
    ensures says { OnlySays B.NorState v.old.nor.now v.new.nor.now (record_lines (table_of v.old.geometry (B.bytes v.old.nor.now))) }
    ensures told { B.tells v.old.nor.now →
        ExtractsTo B.NorState F.FolderState (record_lines (table_of v.old.geometry (B.bytes v.old.nor.now)))
        (table_of v.old.geometry (B.bytes v.old.nor.now)) v.old.nor.now v.new.nor.now folder.old folder.new (λ done. Unit {0}) result }
{
    let mut after = 0;
    while let Some(id) = extract_next(v, marks, after, folder, line)? {
        after = id;
    }
    Ok(())
}

// Says the list of a volume and puts its files into a folder, by right marks, and answers the number of damaged ids.
#[tactic(auto, using(flash_view::proofs::Looking::same_then))]
fn extract_marked<B: Board, F: Folder>(
    v: &mut View<'_, B>,
    marks: &[u8],
    folder: &mut F,
    line: &mut [u8],
) -> Result<u32, ExtractErr>
    requires room { check_need v.old.geometry ≤ length marks.now }
    requires marked { B.tells v.old.nor.now → IsMarked v.old.geometry (B.bytes v.old.nor.now) marks.now }
    requires line { 12288 ≤ length line.old }
    ensures cause { IsErrOf result ExtractErr.BoardFault → Rose (B.faults v.old.nor.now) (B.faults v.new.nor.now) }
    ensures apart { IfErr result IsApart }
    ensures folder_cause { IsErrOf result ExtractErr.FolderFault → Rose (F.faults folder.old) (F.faults folder.new) }
    ensures same { IsSameView v.old v.new }
    ensures goes { FolderGoes F.FolderState folder.old folder.new }
    ensures says { OnlySays B.NorState v.old.nor.now v.new.nor.now (list_of v.old.geometry (B.bytes v.old.nor.now)) }
    ensures told { B.tells v.old.nor.now →
        ExtractsTo B.NorState F.FolderState (list_of v.old.geometry (B.bytes v.old.nor.now))
        (table_of v.old.geometry (B.bytes v.old.nor.now)) v.old.nor.now v.new.nor.now folder.old folder.new
        (λ count. count ≡ length (damaged_of v.old.geometry (B.bytes v.old.nor.now))) result }
{
    extract_files(v, marks, folder, line)?;
    match list_part(v, marks, Part::Damaged, line) {
        Err(Failed) => Err(ExtractErr::BoardFault),
        Ok(count) => Ok(count),
    }
}

/// Says the list of a volume as `list` does, and puts each file of the table into a folder, in order of ids: the first
/// file of its name there gets its bytes, or it is added as the last one. A file's line is said before the file is put,
/// and its bytes go through the lent line buffer, which needs 12,288 bytes. Answers the number of damaged ids, whose
/// files aren't put. A fault of the board or of the folder ends it: the first files are whole then, and the next one is
/// as it was or has a front of its bytes. Nothing is written to the board. The volume is surveyed first: `marks` are
/// bytes for the check, and what they hold at first doesn't matter.
#[tactic(auto, using(flash_view::proofs::Looking::same_then))]
pub fn extract<B: Board, F: Folder>(
    v: &mut View<'_, B>,
    marks: &mut [u8],
    folder: &mut F,
    line: &mut [u8],
) -> Result<u32, ExtractErr>
    requires room { check_need v.old.geometry ≤ length marks.old }
    requires line { 12288 ≤ length line.old }
    ensures cause { IsErrOf result ExtractErr.BoardFault → Rose (B.faults v.old.nor.now) (B.faults v.new.nor.now) }
    ensures apart { IfErr result IsApart }
    ensures folder_cause { IsErrOf result ExtractErr.FolderFault → Rose (F.faults folder.old) (F.faults folder.new) }
    ensures same { IsSameView v.old v.new }
    ensures goes { FolderGoes F.FolderState folder.old folder.new }
    ensures says { OnlySays B.NorState v.old.nor.now v.new.nor.now (list_of v.old.geometry (B.bytes v.old.nor.now)) }
    ensures told { B.tells v.old.nor.now →
        ExtractsTo B.NorState F.FolderState (list_of v.old.geometry (B.bytes v.old.nor.now))
        (table_of v.old.geometry (B.bytes v.old.nor.now)) v.old.nor.now v.new.nor.now folder.old folder.new
        (λ count. count ≡ length (damaged_of v.old.geometry (B.bytes v.old.nor.now))) result }
{
    let Ok(()) = survey(v, marks) else {
        return Err(ExtractErr::BoardFault);
    };
    extract_marked(v, marks, folder, line)
}
