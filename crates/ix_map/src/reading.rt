ghost use Rattle.std.specs.Prelude.{◌≡◌, ℕ, ◌+◌, ◌-◌, ◌*◌, ◌/◌, ◌%◌, ◌^◌, ◌<◌, ◌≤◌, length, true, IfOk, IfErr, IsErrOf};
ghost use Rattle.geometry.specs.Numbers.{body};
ghost use Rattle.nor_core.specs.Count.{Rose};
ghost use Rattle.table_model.specs.Table.{File};
ghost use Rattle.table_model.specs.Files.{bytes_at};
ghost use Rattle.flash_view.specs.Same.{OnlyLooks};
ghost use Rattle.file_read.specs.Whole.{IsFileOf, IsRead, Reading};
ghost use Rattle.file_read.specs.Missing.{IsMissing, HoldsOrFault};
ghost use Rattle.ix_map.specs.Maps.{IsMapOf};
ghost use Rattle.ix_map.specs.Covers.{given, covers, pages_met, Covered, ReadsTo};

use crate::map::IxMap;
use file_read::no_data;
use flash_view::{StepErr, View};
use nor_core::{Nor, NorState};
use page_layout::BODY_AT;

// Reads on to the end of a data page, or of what is asked: one page of the device. The answer is how many bytes there are now.
#[tactic(auto, using(flash_view::proofs::Looking::looks_none))]
fn read_piece<N: Nor>(
    v: &mut View<'_, N>,
    map: IxMap,
    numbers: &[u8],
    at: u32,
    done: usize,
    into: &mut [u8],
) -> Result<usize, StepErr>
    requires some { done < length into.old }
    requires fits { at + length into.old < 2 ^ 32 }
    requires covered { Covered v.old.geometry map numbers.now at (length into.old) }
    ensures cause { IsErrOf result StepErr.DeviceFault → Rose (N.faults v.old.nor.now) (N.faults v.new.nor.now) }
    ensures looks { OnlyLooks v.old v.new }
    ensures once { N.device_reads v.new.nor.now ≤ N.device_reads v.old.nor.now + 1 }
    ensures missing { IfErr result (IsMissing map.id) }
    ensures to { IfOk result (ReadsTo v.old.geometry at (length into.old) done) }
    ensures told { N.tells v.old.nor.now → (f : File) → IsMapOf v.old.geometry (N.bytes v.old.nor.now) map numbers.now →
        Reading v.old.geometry (N.bytes v.old.nor.now) map.id f at done into.old →
        HoldsOrFault result (λ n. Reading v.old.geometry (N.bytes v.old.nor.now) map.id f at n into.new) }
{
    let body = v.geometry.body();
    let place = at + done as u32;
    let from = place % body;
    let len = (into.len() - done).min((body - from) as usize);
    let page = map.page(numbers, place / body - u32::from(map.first));
    if u32::from(page) >= v.geometry.pages() {
        return Err(StepErr::Damaged(no_data(map.id, place / body)));
    }
    v.hold(page)?;
    let start = (BODY_AT + from) as usize;
    into[done..done + len].copy_from_slice(&v.held(page)[start..start + len]);
    Ok(done + len)
}

// Reads bytes that lie inside the file, each data page once.
#[tactic(auto, using(flash_view::proofs::Looking::looks_then, flash_view::proofs::Looking::looks_none))]
fn read_covered<N: Nor>(
    v: &mut View<'_, N>,
    map: IxMap,
    numbers: &[u8],
    at: u32,
    into: &mut [u8],
) -> Result<(), StepErr>
    requires some { 0 < length into.old }
    requires fits { at + length into.old < 2 ^ 32 }
    requires covered { Covered v.old.geometry map numbers.now at (length into.old) }
    ensures cause { IsErrOf result StepErr.DeviceFault → Rose (N.faults v.old.nor.now) (N.faults v.new.nor.now) }
    ensures looks { OnlyLooks v.old v.new }
    ensures few { N.device_reads v.new.nor.now ≤ N.device_reads v.old.nor.now + pages_met (body v.old.geometry) at (length into.old) }
    ensures missing { IfErr result (IsMissing map.id) }
    ensures told { N.tells v.old.nor.now → (f : File) → IsMapOf v.old.geometry (N.bytes v.old.nor.now) map numbers.now →
        IsFileOf v.old.geometry (N.bytes v.old.nor.now) map.id f → at + length into.old ≤ length f.bytes →
        HoldsOrFault result (λ done. into.new ≡ bytes_at (length into.old) at f) }
{
    let mut done = 0;
    while done < into.len() {
        done = read_piece(v, map, numbers, at, done, into)?;
    }
    Ok(())
}

/// The bytes of a map's file from byte `at` on, as many as there are and fit; none at the file's end and past it. The answer is how many
/// bytes were read. Each data page in which they lie is read once, and no other page of the device. What is refused beside a fault
/// (`Damaged`) is a number that is no page's.
#[tactic(auto, using(flash_view::proofs::Looking::looks_none))]
pub fn read_mapped<N: Nor>(
    v: &mut View<'_, N>,
    map: IxMap,
    numbers: &[u8],
    at: u32,
    into: &mut [u8],
) -> Result<u32, StepErr>
    requires { covers v.old.geometry map numbers.now at (length into.old) ≡ true }
    ensures cause { IsErrOf result StepErr.DeviceFault → Rose (N.faults v.old.nor.now) (N.faults v.new.nor.now) }
    ensures looks { OnlyLooks v.old v.new }
    ensures few { N.device_reads v.new.nor.now ≤ N.device_reads v.old.nor.now + pages_met (body v.old.geometry) at (given map.size at (length into.old)) }
    ensures missing { IfErr result (IsMissing map.id) }
    ensures count { IfOk result (λ n. n ≡ given map.size at (length into.old)) }
    ensures told { N.tells v.old.nor.now → (f : File) → IsMapOf v.old.geometry (N.bytes v.old.nor.now) map numbers.now →
        IsFileOf v.old.geometry (N.bytes v.old.nor.now) map.id f → HoldsOrFault result (λ n. IsRead f at into.old into.new n) }
{
    let count = map.given(at, into.len());
    if count == 0 {
        return Ok(0);
    }
    read_covered(v, map, numbers, at, &mut into[..count as usize])?;
    Ok(count)
}
