ghost use Rattle.std.specs.Prelude.{◌≡◌, ◌<◌, ◌≤◌, ◌++◌, length, IfOk, OnOk, OnErr};
ghost use Rattle.std.specs.Option.{option_map, IfSome};
ghost use Rattle.geometry.specs.Numbers.{check_need};
ghost use Rattle.nor_core.specs.Count.{Rose};
ghost use Rattle.image_model.specs.Tables.{damaged_of};
ghost use Rattle.flash_view.specs.Same.{IsSameView};
ghost use Rattle.file_find.specs.Marks.{IsMarked};
ghost use Rattle.image_tool.specs.Lists.{list_of};
ghost use Rattle.image_tool.specs.Parts.{lines_of, text_of, line_above, next_line};
ghost use Rattle.image_tool.specs.Saying.{OnlySays, SaysFront};

use crate::damaged::say_next_damaged;
use crate::error::ToolErr;
use crate::records::say_next_record;
use file_find::{none_damaged, survey};
use flash_view::View;
use nor_core::{Board, Failed, NorState};

/// A part of a list.
#[derive(Clone, Copy, Debug, PartialEq, Eq)]
pub(crate) enum Part {
    /// The files of the table.
    Files,
    /// The damaged ids.
    Damaged,
}

// Says the line of the least id above one in a part of a list, and answers that id.
#[tactic(auto, using(flash_view::proofs::Looking::same_then))]
fn say_next<B: Board>(
    v: &mut View<'_, B>,
    marks: &[u8],
    part: Part,
    after: u16,
    line: &mut [u8],
) -> Result<Option<u16>, Failed>
    requires room { check_need v.old.geometry ≤ length marks.now }
    requires marked { B.tells v.old.nor.now → IsMarked v.old.geometry (B.bytes v.old.nor.now) marks.now }
    requires line { 12288 ≤ length line.old }
    ensures cause { OnErr result (Rose (B.faults v.old.nor.now) (B.faults v.new.nor.now)) }
    ensures same { IsSameView v.old v.new }
    ensures above { IfOk result (λ found. IfSome found (λ id. after < id)) }
    ensures says { OnlySays B.NorState v.old.nor.now v.new.nor.now (next_line part v.old.geometry (B.bytes v.old.nor.now) after) }
    ensures found { B.tells v.old.nor.now →
        IfOk result (λ found. found ≡ option_map (λ l. l.0) (line_above part v.old.geometry (B.bytes v.old.nor.now) after)) }
    ensures whole { B.tells v.old.nor.now →
        OnOk result (B.said v.new.nor.now ≡ B.said v.old.nor.now ++ next_line part v.old.geometry (B.bytes v.old.nor.now) after) }
    ensures front { B.tells v.old.nor.now →
        OnErr result (SaysFront B.NorState v.old.nor.now v.new.nor.now (next_line part v.old.geometry (B.bytes v.old.nor.now) after)) }
{
    match part {
        Part::Files => match say_next_record(v, marks, after, line)? {
            Some((_, stat)) => Ok(Some(stat.id)),
            None => Ok(None),
        },
        Part::Damaged => say_next_damaged(v, marks, after, line),
    }
}

/// Says the lines of a part of a list in order of ids, by right marks, and answers their number.
#[tactic(auto, using(flash_view::proofs::Looking::same_then))]
pub(crate) fn list_part<B: Board>(
    v: &mut View<'_, B>,
    marks: &[u8],
    part: Part,
    line: &mut [u8],
) -> Result<u32, Failed>
    requires room { check_need v.old.geometry ≤ length marks.now }
    requires marked { B.tells v.old.nor.now → IsMarked v.old.geometry (B.bytes v.old.nor.now) marks.now }
    requires line { 12288 ≤ length line.old }
    ensures cause { OnErr result (Rose (B.faults v.old.nor.now) (B.faults v.new.nor.now)) }
    ensures same { IsSameView v.old v.new }
    ensures says { OnlySays B.NorState v.old.nor.now v.new.nor.now (text_of part v.old.geometry (B.bytes v.old.nor.now)) }
    ensures count { B.tells v.old.nor.now → IfOk result (λ count. count ≡ length (lines_of part v.old.geometry (B.bytes v.old.nor.now))) }
    ensures whole { B.tells v.old.nor.now → OnOk result (B.said v.new.nor.now ≡ B.said v.old.nor.now ++ text_of part v.old.geometry (B.bytes v.old.nor.now)) }
    ensures front { B.tells v.old.nor.now →
        OnErr result (SaysFront B.NorState v.old.nor.now v.new.nor.now (text_of part v.old.geometry (B.bytes v.old.nor.now))) }
{
    let mut after = 0;
    let mut count = 0;
    while let Some(id) = say_next(v, marks, part, after, line)? {
        after = id;
        count += 1;
    }
    Ok(count)
}

// Says the lines of the damaged ids in order, by right marks, and answers their number.
fn list_damaged<B: Board>(v: &mut View<'_, B>, marks: &[u8], line: &mut [u8]) -> Result<u32, Failed>
    requires room { check_need v.old.geometry ≤ length marks.now }
    requires marked { B.tells v.old.nor.now → IsMarked v.old.geometry (B.bytes v.old.nor.now) marks.now }
    requires line { 12288 ≤ length line.old }
    ensures cause { OnErr result (Rose (B.faults v.old.nor.now) (B.faults v.new.nor.now)) }
    ensures same { IsSameView v.old v.new }
    ensures says { OnlySays B.NorState v.old.nor.now v.new.nor.now (text_of Part.Damaged v.old.geometry (B.bytes v.old.nor.now)) }
    ensures count { B.tells v.old.nor.now → IfOk result (λ count. count ≡ length (lines_of Part.Damaged v.old.geometry (B.bytes v.old.nor.now))) }
    ensures whole { B.tells v.old.nor.now →
        OnOk result (B.said v.new.nor.now ≡ B.said v.old.nor.now ++ text_of Part.Damaged v.old.geometry (B.bytes v.old.nor.now)) }
    ensures front { B.tells v.old.nor.now →
        OnErr result (SaysFront B.NorState v.old.nor.now v.new.nor.now (text_of Part.Damaged v.old.geometry (B.bytes v.old.nor.now))) }
{
    if none_damaged(v, marks) {
        return Ok(0);
    }
    list_part(v, marks, Part::Damaged, line)
}

// Says the list of a volume, by right marks, and answers the number of damaged ids.
#[tactic(auto, using(flash_view::proofs::Looking::same_then))]
fn list_marked<B: Board>(v: &mut View<'_, B>, marks: &[u8], line: &mut [u8]) -> Result<u32, Failed>
    requires room { check_need v.old.geometry ≤ length marks.now }
    requires marked { B.tells v.old.nor.now → IsMarked v.old.geometry (B.bytes v.old.nor.now) marks.now }
    requires line { 12288 ≤ length line.old }
    ensures cause { OnErr result (Rose (B.faults v.old.nor.now) (B.faults v.new.nor.now)) }
    ensures same { IsSameView v.old v.new }
    ensures says { OnlySays B.NorState v.old.nor.now v.new.nor.now (list_of v.old.geometry (B.bytes v.old.nor.now)) }
    ensures count { B.tells v.old.nor.now → IfOk result (λ count. count ≡ length (damaged_of v.old.geometry (B.bytes v.old.nor.now))) }
    ensures whole { B.tells v.old.nor.now → OnOk result (B.said v.new.nor.now ≡ B.said v.old.nor.now ++ list_of v.old.geometry (B.bytes v.old.nor.now)) }
    ensures front { B.tells v.old.nor.now → OnErr result (SaysFront B.NorState v.old.nor.now v.new.nor.now (list_of v.old.geometry (B.bytes v.old.nor.now))) }
{
    list_part(v, marks, Part::Files, line)?;
    list_damaged(v, marks, line)
}

/// Says the list of a volume: a line `ID TYPE SIZE NAME` for each file of the table in order of ids, the name
/// printed as replies print it, then a line `damaged ID span S`, `damaged ID name` or `damaged ID same ID2` for each
/// damaged id in order. Each line ends with a newline. Answers the number of damaged ids. The lent line buffer needs 12,288
/// bytes. Nothing is written; a board fault ends it. The volume is surveyed first: `marks` are bytes for the check, and what
/// they hold at first doesn't matter.
#[tactic(auto, using(flash_view::proofs::Looking::same_then))]
pub fn list<B: Board>(
    v: &mut View<'_, B>,
    marks: &mut [u8],
    line: &mut [u8],
) -> Result<u32, ToolErr>
    requires room { check_need v.old.geometry ≤ length marks.old }
    requires line { 12288 ≤ length line.old }
    ensures cause { OnErr result (Rose (B.faults v.old.nor.now) (B.faults v.new.nor.now)) }
    ensures same { IsSameView v.old v.new }
    ensures says { OnlySays B.NorState v.old.nor.now v.new.nor.now (list_of v.old.geometry (B.bytes v.old.nor.now)) }
    ensures count { B.tells v.old.nor.now → IfOk result (λ count. count ≡ length (damaged_of v.old.geometry (B.bytes v.old.nor.now))) }
    ensures whole { B.tells v.old.nor.now → OnOk result (B.said v.new.nor.now ≡ B.said v.old.nor.now ++ list_of v.old.geometry (B.bytes v.old.nor.now)) }
    ensures front { B.tells v.old.nor.now → OnErr result (SaysFront B.NorState v.old.nor.now v.new.nor.now (list_of v.old.geometry (B.bytes v.old.nor.now))) }
{
    survey(v, marks)?;
    Ok(list_marked(v, marks, line)?)
}
