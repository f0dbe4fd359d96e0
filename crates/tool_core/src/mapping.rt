ghost use Rattle.std.specs.Prelude.{ℕ, ◌≡◌, ◌≢◌, ◌≤◌, ◌<◌, length, IfErr, OnOk, OnErr, Err, None, true, false};
ghost use Rattle.geometry.specs.Numbers.{write_refusal, work_need, cache_need, check_need};
ghost use Rattle.nor_core.specs.Count.{Rose};
ghost use Rattle.image_model.specs.Tidy.{IsTidy};
ghost use Rattle.flash_view.specs.Same.{StaysBehind};
ghost use Rattle.volume.specs.Holds.{memory};
ghost use Rattle.volume.specs.Stages.{takes_calls};
ghost use Rattle.volume.specs.Same.{IsSameVolume};
ghost use Rattle.volume.specs.Mapping.{is_attached};
ghost use Rattle.tool_parts.specs.Among.{EndsAmong};
ghost use Rattle.tool_parts.specs.Fits.{IsFitting, HasLengths};
ghost use Rattle.tool_parts.specs.Later.{IsLater, IsLaterStatus};
ghost use Rattle.tool_parts.specs.Lent.{lengths_of};
ghost use Rattle.tool_parts.specs.Begins.{closed_memory};
ghost use Rattle.tool_parts.specs.Reads.{ReadsOnce};
ghost use Rattle.tool_core.specs.Among.{MayEndMap};
ghost use Rattle.tool_core.specs.Mapping.{page_line, unmapped_as, collected_as, AttachesTo, CollectsTo, MapsAgain, TellsPages, SaysSpan, SaysSpans, MapEnds};
ghost use Rattle.tool_core.specs.Mapping.{MapsTo, DoesMap};

use crate::finishing::unsettled;
use geometry::Geometry;
use nor_core::{Board, Failed, Nor, NorState};
use table_model::FsErr;
use tool_parts::{Buffers, Closing, Ending, conclude, mount_and_check, put, put_count};
use vol_mount::Lent;
use volume::{MapErr, Volume};

/// How many spans a map may tell: their numbers take two bytes each.
const SPANS: u32 = 4096;

/// Bytes for the numbers of a map.
const NUMBERS: usize = 8192;

// The line of a span: its number and that of its data page.
fn span_line(span: u32, page: u16) -> Closing
    ensures { result.items ≡ page_line span page }
{
    let mut line = Closing::new();
    put_count(&mut line, b"", u64::from(span));
    put_count(&mut line, b" ", u64::from(page));
    put(&mut line, b"\n");
    line
}

// How a command ends that can't map the file of an id.
fn unmapped(why: MapErr, id: u16) -> Ending
    ensures ends { result ≡ unmapped_as id why }
    ensures later { IsLater result }
    ensures no_script { result ≢ Ending.SourceFault }
    ensures fault { result ≡ Ending.BoardFault → why ≡ MapErr.Call FsErr.DeviceFault }
{
    match why {
        MapErr::Call(FsErr::NotFound) => Ending::NoSuchId(id),
        MapErr::Call(why) => unsettled(why),
        MapErr::NoMap | MapErr::NotMapped | MapErr::MapBusy => Ending::Tight(0),
    }
}

// Attaches a map of the file of an id, from span 0 on.
fn attach<'b, B: Board>(
    volume: &mut Volume<'b, B>,
    id: u16,
    numbers: &'b mut [u8],
) -> Result<(), Ending>
    requires takes { takes_calls volume.old ≡ true }
    requires free { is_attached volume.old ≡ false }
    ensures later { IfErr result IsLater }
    ensures no_script { ¬ (result ≡ Err Ending.SourceFault) }
    ensures among { IfErr result (MayEndMap id) }
    ensures cause { result ≡ Err Ending.BoardFault → Rose (B.faults volume.old.nor.now) (B.faults volume.new.nor.now) }
    ensures same { IsSameVolume volume.old volume.new }
    ensures taken { OnOk result (takes_calls volume.new ≡ true) }
    ensures attaches { (slots : ℕ) → AttachesTo slots id (length numbers.old) volume.old volume.new result }
{
    match volume.attach_map_of(id, 0, numbers) {
        Ok(()) => Ok(()),
        Err(refusal) => Err(unmapped(refusal.why, id)),
    }
}

// How a command goes on that collected garbage: it doesn't matter that collection is stuck.
fn collected(told: Result<(), FsErr>) -> Result<(), Ending>
    ensures ends { result ≡ collected_as told }
    ensures later { IfErr result IsLater }
    ensures no_script { ¬ (result ≡ Err Ending.SourceFault) }
    ensures fault { result ≡ Err Ending.BoardFault → told ≡ Err FsErr.DeviceFault }
{
    match told {
        Ok(()) | Err(FsErr::Tight) => Ok(()),
        Err(why) => Err(unsettled(why)),
    }
}

// Cleans blocks until none is worth cleaning, or collection is stuck.
fn collect<B: Board>(volume: &mut Volume<'_, B>) -> Result<(), Ending>
    requires takes { takes_calls volume.old ≡ true }
    ensures later { IfErr result IsLater }
    ensures no_script { ¬ (result ≡ Err Ending.SourceFault) }
    ensures among { (id : ℕ) → IfErr result (MayEndMap id) }
    ensures cause { result ≡ Err Ending.BoardFault → Rose (B.faults volume.old.nor.now) (B.faults volume.new.nor.now) }
    ensures same { IsSameVolume volume.old volume.new }
    ensures taken { OnOk result (takes_calls volume.new ≡ true) }
    ensures collects { (slots : ℕ) → CollectsTo slots volume.old volume.new result }
{
    collected(volume.gc())
}

// Attaches a map again that was lost: a fault came as it was read again.
#[tactic(auto, using(volume::proofs::Staying::same_then))]
fn remap<B: Board>(volume: &mut Volume<'_, B>, id: u16) -> Result<(), Ending>
    requires takes { takes_calls volume.old ≡ true }
    ensures later { IfErr result IsLater }
    ensures no_script { ¬ (result ≡ Err Ending.SourceFault) }
    ensures among { IfErr result (MayEndMap id) }
    ensures cause { result ≡ Err Ending.BoardFault → Rose (B.faults volume.old.nor.now) (B.faults volume.new.nor.now) }
    ensures same { IsSameVolume volume.old volume.new }
    ensures maps { (slots : ℕ) → MapsAgain slots id volume.old volume.new result }
{
    if volume.map.used {
        return Ok(());
    }
    match volume.detach_map() {
        Some(numbers) => attach(volume, id, numbers),
        None => Err(Ending::Tight(0)),
    }
}

// Says the line of a span, where the map tells a data page for it: whether it does.
fn say_span<B: Board>(volume: &mut Volume<'_, B>, span: u32) -> Result<bool, Failed>
    requires { span < 4096 }
    ensures cause { OnErr result (Rose (B.faults volume.old.nor.now) (B.faults volume.new.nor.now)) }
    ensures same { IsSameVolume volume.old volume.new }
    ensures says { (id count : ℕ) → (B.tells volume.old.nor.now → TellsPages id count volume.old × (span ≤ count)) →
        SaysSpan id count span volume.old volume.new result }
{
    let page = match volume.map_page(span) {
        Some(page) => page,
        None => return Ok(false),
    };
    if page == 0xFFFF {
        return Ok(false);
    }
    volume.say(span_line(span, page).as_slice())?;
    Ok(true)
}

// Says the lines of the spans that the map tells data pages for.
#[tactic(auto, using(volume::proofs::Staying::same_then))]
fn say_spans<B: Board>(volume: &mut Volume<'_, B>) -> Result<(), Failed>
    ensures cause { OnErr result (Rose (B.faults volume.old.nor.now) (B.faults volume.new.nor.now)) }
    ensures same { IsSameVolume volume.old volume.new }
    ensures says { (id count : ℕ) → (B.tells volume.old.nor.now → TellsPages id count volume.old) →
        SaysSpans B.NorState volume.old.geometry id count volume.old.nor.now volume.new.nor.now result }
{
    let mut span = 0;
    'spans: while span < SPANS {
        if say_span(volume, span)? {
            span += 1;
        } else {
            return Ok(());
        }
    }
    Ok(())
}

// Maps the file of an id on a checked volume, collects garbage, and says the lines of the file's spans.
#[tactic(auto, using(volume::proofs::Staying::same_then))]
fn map_checked<'b, B: Board>(volume: &mut Volume<'b, B>, id: u16, numbers: &'b mut [u8]) -> Ending
    requires takes { takes_calls volume.old ≡ true }
    requires free { is_attached volume.old ≡ false }
    requires room { length numbers.old ≡ 8192 }
    requires tidy { B.tells volume.old.nor.now → IsTidy volume.old.geometry (B.bytes volume.old.nor.now) }
    ensures later { IsLater result }
    ensures no_script { result ≢ Ending.SourceFault }
    ensures among { MayEndMap id result }
    ensures cause { result ≡ Ending.BoardFault → Rose (B.faults volume.old.nor.now) (B.faults volume.new.nor.now) }
    ensures same { IsSameVolume volume.old volume.new }
    ensures maps { (slots : ℕ) → memory volume.old ≡ closed_memory slots →
        MapEnds B.NorState volume.old.geometry id volume.old.nor.now volume.new.nor.now result }
{
    if let Err(ending) = attach(volume, id, numbers) {
        return ending;
    }
    if let Err(ending) = collect(volume) {
        return ending;
    }
    if let Err(ending) = remap(volume, id) {
        return ending;
    }
    match say_spans(volume) {
        Ok(()) => Ending::Done,
        Err(Failed) => Ending::BoardFault,
    }
}

// Mounts and checks a volume, maps the file of an id, collects garbage, and says the lines of the file's spans.
#[tactic(auto, using(volume::proofs::Staying::same_then))]
fn map_volume<'b, B: Board>(
    volume: &mut Volume<'b, B>,
    id: u16,
    numbers: &'b mut [u8],
    marks: &mut [u8],
) -> Ending
    requires writable { write_refusal volume.old.geometry ≡ None }
    requires marks { check_need volume.old.geometry ≤ length marks.old }
    requires free { is_attached volume.old ≡ false }
    requires room { length numbers.old ≡ 8192 }
    ensures later { IsLater result }
    ensures no_script { result ≢ Ending.SourceFault }
    ensures among { MayEndMap id result }
    ensures cause { result ≡ Ending.BoardFault → Rose (B.faults volume.old.nor.now) (B.faults volume.new.nor.now) }
    ensures same { IsSameVolume volume.old volume.new }
    ensures maps { (slots : ℕ) → memory volume.old ≡ closed_memory slots →
        MapsTo B.NorState volume.old.geometry id volume.old.nor.now volume.new.nor.now result }
{
    match mount_and_check(volume, marks) {
        Ok(_) => map_checked(volume, id, numbers),
        Err(ending) => ending,
    }
}

// Mounts and checks the volume of a board, maps the file of an id, collects garbage, and says the lines of the file's spans.
fn map_board<'b, B: Board>(
    g: Geometry,
    id: u16,
    board: &'b mut B,
    lent: Lent<'b>,
    numbers: &'b mut [u8],
    marks: &mut [u8],
) -> Ending
    requires fits { IsFitting g (B.unit board.old) (B.size board.old) }
    requires work { work_need g ≤ length lent.work.now }
    requires cache { cache_need g ≤ length lent.cache.now }
    requires window { g.page ≤ length lent.window.now }
    requires marks { check_need g ≤ length marks.old }
    requires room { length numbers.old ≡ 8192 }
    ensures later { IsLater result }
    ensures no_script { result ≢ Ending.SourceFault }
    ensures among { MayEndMap id result }
    ensures cause { result ≡ Ending.BoardFault → Rose (B.faults board.old) (B.faults board.new) }
    ensures maps { MapsTo B.NorState g id board.old board.new result }
    ensures behind { StaysBehind B.NorState g board.old board.new }
    ensures few { ReadsOnce B.NorState g (length lent.entry.cache.now) board.old board.new }
{
    let mut volume = Volume::new(g, board, lent);
    map_volume(&mut volume, id, numbers, marks)
}

/// Mounts and checks the volume of a board in the lent memory, maps the file of an id from span 0 on in the first 8,192 bytes for lines,
/// collects garbage, and says for each span which page of the volume has it.
pub(crate) fn map_on<B: Board>(g: Geometry, id: u16, board: &mut B, bufs: &mut Buffers<'_>) -> u8
    requires fits { IsFitting g (B.unit board.old) (B.size board.old) }
    requires room { HasLengths g (lengths_of bufs.old) }
    ensures later { IsLaterStatus result }
    ensures board_fault { result ≡ 7 → Rose (B.faults board.old) (B.faults board.new) }
    ensures no_script { result ≢ 8 }
    ensures no_folder { result ≢ 9 }
    ensures ends { EndsAmong B.NorState (MayEndMap id) board.old board.new result }
    ensures does { DoesMap B.NorState g (length bufs.old.cache.now) id board.old board.new result }
{
    let lent = Lent {
        work: &mut *bufs.work,
        slots: &mut *bufs.slots,
        cache: &mut *bufs.cache,
        window: &mut *bufs.window,
    };
    let line = &mut *bufs.line;
    let (numbers, _) = line.split_at_mut(NUMBERS);
    let ending = map_board(g, id, board, lent, numbers, bufs.check);
    conclude(board, ending)
}
