// Telling the files of the table.
ghost use Rattle.std.specs.Prelude.{◌≡◌, ◌<◌, ◌≤◌, ◌++◌, length, IfOk, OnOk, OnErr};
ghost use Rattle.std.specs.Option.{IfSome};
ghost use Rattle.geometry.specs.Numbers.{page_count, check_need};
ghost use Rattle.nor_core.specs.Count.{Rose};
ghost use Rattle.flash_view.specs.Same.{IsSameView, OnlyLooks};
ghost use Rattle.file_find.specs.Marks.{IsMarked};
ghost use Rattle.image_tool.specs.Texts.{stat_line};
ghost use Rattle.image_tool.specs.Lists.{NextRecord, next_record as the_next_record};
ghost use Rattle.image_tool.specs.Saying.{OnlySays, SaysFront};

use crate::lines::put_record;
use file_find::next_file;
use file_read::stat_at;
use flash_view::View;
use nor_core::{Board, Failed, Nor, NorState};
use table_model::Stat;

// The header page and the record of the file of the least id above one.
#[tactic(auto, using(flash_view::proofs::Looking::looks_then))]
fn next_record<N: Nor>(
    v: &mut View<'_, N>,
    marks: &[u8],
    after: u16,
) -> Result<Option<(u16, Stat)>, Failed>
    requires room { check_need v.old.geometry ≤ length marks.now }
    requires marked { N.tells v.old.nor.now → IsMarked v.old.geometry (N.bytes v.old.nor.now) marks.now }
    ensures cause { OnErr result (Rose (N.faults v.old.nor.now) (N.faults v.new.nor.now)) }
    ensures looks { OnlyLooks v.old v.new }
    ensures inside { IfOk result (λ found. IfSome found (λ next. next.0 < page_count v.old.geometry)) }
    ensures above { IfOk result (λ found. IfSome found (λ next. after < next.1.id)) }
    ensures told { N.tells v.old.nor.now → IfOk result (λ found. NextRecord v.old.geometry (N.bytes v.old.nor.now) after found) }
{
    let Some((id, header)) = next_file(v, marks, after)? else {
        return Ok(None);
    };
    match stat_at(v, id, header)? {
        Some(stat) => Ok(Some((header, stat))),
        None => Ok(None),
    }
}

// Says the line of a file.
fn say_record<B: Board>(v: &mut View<'_, B>, stat: &Stat, line: &mut [u8]) -> Result<(), Failed>
    requires { 12288 ≤ length line.old }
    ensures cause { OnErr result (Rose (B.faults v.old.nor.now) (B.faults v.new.nor.now)) }
    ensures same { IsSameView v.old v.new }
    ensures says { OnlySays B.NorState v.old.nor.now v.new.nor.now (stat_line stat.now) }
    ensures whole { B.tells v.old.nor.now → OnOk result (B.said v.new.nor.now ≡ B.said v.old.nor.now ++ stat_line stat.now) }
    ensures front { OnErr result (SaysFront B.NorState v.old.nor.now v.new.nor.now (stat_line stat.now)) }
{
    let end = put_record(line, stat);
    v.say(&line[..end])
}

/// Says the line of the file of the least id above one, and answers its header page and its record.
#[tactic(auto, using(flash_view::proofs::Looking::same_then))]
pub(crate) fn say_next_record<B: Board>(
    v: &mut View<'_, B>,
    marks: &[u8],
    after: u16,
    line: &mut [u8],
) -> Result<Option<(u16, Stat)>, Failed>
    requires room { check_need v.old.geometry ≤ length marks.now }
    requires marked { B.tells v.old.nor.now → IsMarked v.old.geometry (B.bytes v.old.nor.now) marks.now }
    requires line { 12288 ≤ length line.old }
    ensures cause { OnErr result (Rose (B.faults v.old.nor.now) (B.faults v.new.nor.now)) }
    ensures same { IsSameView v.old v.new }
    ensures inside { IfOk result (λ found. IfSome found (λ next. next.0 < page_count v.old.geometry)) }
    ensures above { IfOk result (λ found. IfSome found (λ next. after < next.1.id)) }
    ensures says { OnlySays B.NorState v.old.nor.now v.new.nor.now (the_next_record v.old.geometry (B.bytes v.old.nor.now) after) }
    ensures found { B.tells v.old.nor.now → IfOk result (λ found. NextRecord v.old.geometry (B.bytes v.old.nor.now) after found) }
    ensures whole { B.tells v.old.nor.now →
        OnOk result (B.said v.new.nor.now ≡ B.said v.old.nor.now ++ the_next_record v.old.geometry (B.bytes v.old.nor.now) after) }
    ensures front { B.tells v.old.nor.now →
        OnErr result (SaysFront B.NorState v.old.nor.now v.new.nor.now (the_next_record v.old.geometry (B.bytes v.old.nor.now) after)) }
{
    let Some((header, stat)) = next_record(v, marks, after)? else {
        return Ok(None);
    };
    say_record(v, &stat, line)?;
    Ok(Some((header, stat)))
}
