// Telling the damaged ids.
ghost use Rattle.std.specs.Prelude.{◌≡◌, ◌<◌, ◌≤◌, ◌++◌, length, IfOk, OnOk, OnErr};
ghost use Rattle.std.specs.Option.{option_map, IfSome};
ghost use Rattle.geometry.specs.Numbers.{check_need};
ghost use Rattle.nor_core.specs.Count.{Rose};
ghost use Rattle.flash_view.specs.Same.{IsSameView};
ghost use Rattle.file_find.specs.Marks.{IsMarked};
ghost use Rattle.image_tool.specs.Texts.{damage_line};
ghost use Rattle.file_find.specs.Listing.{damaged_above};
ghost use Rattle.image_tool.specs.Lists.{next_damage};
ghost use Rattle.image_tool.specs.Saying.{OnlySays, SaysFront};

use crate::lines::put_damaged;
use file_find::next_damaged;
use flash_view::View;
use image_model::Damage;
use nor_core::{Board, Failed, NorState};

// Says the line of a damaged id.
fn say_damaged<B: Board>(
    v: &mut View<'_, B>,
    id: u16,
    cause: Damage,
    line: &mut [u8],
) -> Result<(), Failed>
    requires { 12288 ≤ length line.old }
    ensures cause { OnErr result (Rose (B.faults v.old.nor.now) (B.faults v.new.nor.now)) }
    ensures same { IsSameView v.old v.new }
    ensures says { OnlySays B.NorState v.old.nor.now v.new.nor.now (damage_line id cause) }
    ensures whole { B.tells v.old.nor.now → OnOk result (B.said v.new.nor.now ≡ B.said v.old.nor.now ++ damage_line id cause) }
    ensures front { OnErr result (SaysFront B.NorState v.old.nor.now v.new.nor.now (damage_line id cause)) }
{
    let end = put_damaged(line, id, cause);
    v.say(&line[..end])
}

/// Says the line of the damaged id next above one, and answers that id.
#[tactic(auto, using(flash_view::proofs::Looking::same_then))]
pub(crate) fn say_next_damaged<B: Board>(
    v: &mut View<'_, B>,
    marks: &[u8],
    after: u16,
    line: &mut [u8],
) -> Result<Option<u16>, Failed>
    requires room { check_need v.old.geometry ≤ length marks.now }
    requires marked { B.tells v.old.nor.now → IsMarked v.old.geometry (B.bytes v.old.nor.now) marks.now }
    requires line { 12288 ≤ length line.old }
    ensures cause { OnErr result (Rose (B.faults v.old.nor.now) (B.faults v.new.nor.now)) }
    ensures same { IsSameView v.old v.new }
    ensures above { IfOk result (λ found. IfSome found (λ id. after < id)) }
    ensures says { OnlySays B.NorState v.old.nor.now v.new.nor.now (next_damage v.old.geometry (B.bytes v.old.nor.now) after) }
    ensures found { B.tells v.old.nor.now → IfOk result (λ found. found ≡ option_map (λ d. d.0) (damaged_above v.old.geometry (B.bytes v.old.nor.now) after)) }
    ensures whole { B.tells v.old.nor.now →
        OnOk result (B.said v.new.nor.now ≡ B.said v.old.nor.now ++ next_damage v.old.geometry (B.bytes v.old.nor.now) after) }
    ensures front { B.tells v.old.nor.now →
        OnErr result (SaysFront B.NorState v.old.nor.now v.new.nor.now (next_damage v.old.geometry (B.bytes v.old.nor.now) after)) }
{
    let Some((id, cause)) = next_damaged(v, marks, after)? else {
        return Ok(None);
    };
    say_damaged(v, id, cause, line)?;
    Ok(Some(id))
}
