// Lines of a list.
ghost use Rattle.std.specs.Prelude.{◌≡◌, ◌+◌, ◌<◌, ◌≤◌, length, take};
ghost use Rattle.call_script.specs.Pieces.{Puts};
ghost use Rattle.image_tool.specs.Texts.{stat_line, cause_text, damage_line};

use call_script::{put, put_behind_space, put_count, put_number};
use image_model::Damage;
use table_model::Stat;

// Writes the line of a file at the front, and answers its length.
#[tactic(auto, using(call_script::proofs::Putting::puts_more), unfolding(crate::specs::Texts::stat_line))]
pub(crate) fn put_record(into: &mut [u8], stat: &Stat) -> usize
    requires { 4096 ≤ length into.old }
    ensures bound { result ≤ 4096 }
    ensures put { Puts into.old 0 (stat_line stat.now) into.new result }
{
    let at = put_number(into, 0, u32::from(stat.id));
    let at = put_count(into, at, b" ", u32::from(stat.kind));
    let at = put_count(into, at, b" ", stat.size);
    let at = put_behind_space(into, at, stat.name.as_slice());
    put(into, at, b"\n")
}

// Writes why an id is damaged.
fn put_cause(into: &mut [u8], at: usize, cause: Damage) -> usize
    requires { at + 20 ≤ length into.old }
    ensures put { Puts into.old at (cause_text cause) into.new result }
    ensures bound { result ≤ at + 20 }
{
    match cause {
        Damage::Missing(span) => put_count(into, at, b" span ", span),
        Damage::BadName => put(into, at, b" name"),
        Damage::SameName(id) => put_count(into, at, b" same ", u32::from(id)),
    }
}

// Writes the line of a damaged id at the front, and answers its length.
#[tactic(auto, using(call_script::proofs::Putting::puts_more), unfolding(crate::specs::Texts::damage_line))]
pub(crate) fn put_damaged(into: &mut [u8], id: u16, cause: Damage) -> usize
    requires { 4096 ≤ length into.old }
    ensures bound { result ≤ 4096 }
    ensures put { Puts into.old 0 (damage_line id cause) into.new result }
{
    let at = put_count(into, 0, b"damaged ", u32::from(id));
    let at = put_cause(into, at, cause);
    put(into, at, b"\n")
}
