ghost use Rattle.std.specs.Prelude.{◌≡◌, ◌≤◌, length, OnErr, OnOk, IsErrOf, IfOk, IfErr, IfSome, Err, None};
ghost use Rattle.geometry.specs.Numbers.{usable, write_refusal, check_need};
ghost use Rattle.nor_core.specs.Count.{Rose};
ghost use Rattle.nor_core.specs.Device.{Changes, OnlyReads};
ghost use Rattle.image_model.specs.Sound.{HasMagics};
ghost use Rattle.image_model.specs.Tidy.{IsTidy};
ghost use Rattle.flash_view.specs.Same.{IsSameView};
ghost use Rattle.vol_check.specs.Checks.{IsWritable, IsRefusal, IsOfStages, Checked};
ghost use Rattle.vol_check.specs.Owned.{OwnIf};
ghost use Rattle.vol_check.specs.Works.{Worked, StageCut, culling_pages, checking};

use crate::damaged::cull_damaged;
use crate::doubled::cull_doubles;
use crate::entries::clean_entries;
use crate::spoiled::make_fresh;
use crate::unwanted::cull_rest;
use crate::{CheckErr, Report};
use flash_view::View;
use free_search::{count_all, free_blocks};
use nor_core::{Failed, Nor, NorState};

// How many live pages were killed, and how many files were damaged.
#[derive(Clone, Copy)]
struct Culled {
    pages: u32,
    damaged: u32,
}

// Kills the live pages that the table doesn't need: doubled ones, then the header pages of damaged files, then the rest.
fn cull_pages<N: Nor>(v: &mut View<'_, N>, marks: &mut [u8]) -> Result<Culled, Failed>
    requires room { check_need v.old.geometry ≤ length marks.old }
    requires magics { N.tells v.old.nor.now → HasMagics v.old.geometry (N.bytes v.old.nor.now) }
    ensures most { IfOk result (λ culled. culled.pages ≤ 196605) }
    ensures work { Worked v.old v.new result culling_pages }
{
    let doubled = cull_doubles(v, marks)?;
    let damaged = cull_damaged(v, marks)?;
    let rest = cull_rest(v, marks)?;
    Ok(Culled {
        pages: doubled + damaged + rest,
        damaged,
    })
}

// Makes the block without its magic fresh, and kills what is to be killed. Once the entries are cleaned they tell what is free, and the
// blocks are counted.
fn clean<N: Nor>(v: &mut View<'_, N>, marks: &mut [u8], own: bool) -> Result<Report, Failed>
    requires room { check_need v.old.geometry ≤ length marks.old }
    requires magics { N.tells v.old.nor.now → HasMagics v.old.geometry (N.bytes v.old.nor.now) }
    requires owned { N.tells v.old.nor.now → OwnIf own v.old.geometry (N.bytes v.old.nor.now) }
    ensures { Worked v.old v.new result (checking own) }
{
    let erased = make_fresh(v)?;
    let dead = clean_entries(v, own)?;
    count_all(v)?;
    let culled = cull_pages(v, marks)?;
    Ok(Report {
        erased,
        killed: dead + culled.pages,
        damaged: culled.damaged,
        free_blocks: free_blocks(v)?,
    })
}

/// The stages of the check of a mounted volume before its cleaning, in whatever state a cut or another program left it. The block
/// without its magic is made fresh, if there is one; then every entry is killed that is neither deleted, free nor that
/// of a page that a file of the table needs: first those over pages that aren't live, then doubled index pages, then the
/// header pages of damaged files, then the rest. So damaged files go, and the table stays, also at a cut. Blocks that hold
/// wanted pages of both kinds are left as they are, and they find the same places: whether the image fits over can be told
/// before. Refused, with nothing written, is only a volume that may not be written (`Wrong`). Where the device fails, what
/// was done stays, and the check can be called again. The marks are bytes for notes, at least `Geometry::check_need`. `own` tells that this
/// engine alone wrote the volume: then pages whose entry is 0xFFFF aren't read.
#[tactic(auto, using(flash_view::proofs::Looking::same_then))]
pub fn check_stages<N: Nor>(
    v: &mut View<'_, N>,
    marks: &mut [u8],
    own: bool,
) -> Result<Report, CheckErr>
    requires room { check_need v.old.geometry ≤ length marks.old }
    requires magics { N.tells v.old.nor.now → HasMagics v.old.geometry (N.bytes v.old.nor.now) }
    requires owned { N.tells v.old.nor.now → OwnIf own v.old.geometry (N.bytes v.old.nor.now) }
    ensures wrong { IfSome (write_refusal v.old.geometry) (λ why. result ≡ Err (CheckErr.Wrong why)) }
    ensures writable { write_refusal v.old.geometry ≡ None → IfErr result IsWritable }
    ensures among { IfErr result IsOfStages }
    ensures few { OnOk result (usable v.old.geometry ≤ 32766) }
    ensures cause { IsErrOf result CheckErr.DeviceFault → Rose (N.faults v.old.nor.now) (N.faults v.new.nor.now) }
    ensures same { IsSameView v.old v.new }
    ensures changes { Changes N.NorState v.old.nor.now v.new.nor.now (StageCut v.old.geometry) }
    ensures refused { IfErr result (λ why. IsRefusal why → OnlyReads N.NorState v.old.nor.now v.new.nor.now) }
    ensures done { N.tells v.old.nor.now → IfOk result (λ report. Checked v.old.geometry (N.bytes v.old.nor.now) (N.bytes v.new.nor.now) report) }
    ensures idle { N.tells v.old.nor.now → IsTidy v.old.geometry (N.bytes v.old.nor.now) → OnlyReads N.NorState v.old.nor.now v.new.nor.now }
{
    if let Err(why) = v.geometry.writable() {
        return Err(CheckErr::Wrong(why));
    }
    Ok(clean(v, marks, own)?)
}
