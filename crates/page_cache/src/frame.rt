//! One frame: the number of a page, three numbers that tell where other pages are, all of two bytes, little endian, and the
//! page's bytes.
ghost use Rattle.std.specs.Prelude.{◌≡◌, ◌≢◌, ℕ, ◌+◌, ◌*◌, ◌^◌, ◌<◌, ◌≤◌, ◌⊎◌, length, slice_index, slice_range, bit_and, OnOk, OnErr};
ghost use Rattle.nor_core.specs.Count.{Rose};
ghost use Rattle.nor_core.specs.Device.{OnlyReads};
ghost use Rattle.page_cache.specs.Frames.{number_of as the_number_of, word_in, SameHead, Widened, Bounded, IsFree, IsCopy, GoesWithProgram, GoesWithErase};
ghost use Rattle.page_cache.specs.Frames.{GivenUp, span_of, Follows};

use nor_core::{Failed, Nor, NorState};

// What happened to bytes of the device, from one of them on.
#[derive(Clone, Copy)]
pub(crate) enum Event<'a> {
    // These bytes were programmed.
    Program(&'a [u8]),
    // So many bytes were erased.
    Erase(usize),
    // A program or an erase of so many bytes failed.
    Failure(usize),
}

// How many bytes of the device an event meets.
pub(crate) fn span(event: Event<'_>) -> usize
    ensures { result ≡ span_of event.entry }
{
    match event {
        Event::Program(from) => from.len(),
        Event::Erase(count) | Event::Failure(count) => count,
    }
}

// Bytes before the page's.
pub(crate) const HEAD: usize = 8;

// The number that tells that a frame is free. No volume has a page of this number.
const FREE: u16 = 0xFFFF;

// Where a frame tells from which frame on, and before which, pages stand whose home it is and that aren't there.
const SINCE: usize = 2;

const UNTIL: usize = 4;

// Where the first frame tells below which frame none is free.
const USED: usize = 6;

// The number in a frame.
pub(crate) fn number_of(frame: &[u8]) -> u16
    requires { 8 ≤ length frame.now }
    ensures { result ≡ the_number_of frame.now }
{
    u16::from(frame[0]) + 256 * u16::from(frame[1])
}

// Puts a number into a frame.
fn put_number(frame: &mut [u8], number: u16)
    requires { 8 ≤ length frame.old }
    ensures number { the_number_of frame.new ≡ number }
    ensures head { SameHead frame.old frame.new }
    ensures rest { (k : ℕ) → 8 ≤ k → slice_index frame.new k ≡ slice_index frame.old k }
{
    frame[0] = (number % 256) as u8;
    frame[1] = (number / 256) as u8;
}

// Gives up what a frame holds.
pub(crate) fn give_up(frame: &mut [u8])
    requires { 8 ≤ length frame.old }
    ensures number { the_number_of frame.new ≡ 65535 }
    ensures head { SameHead frame.old frame.new }
{
    put_number(frame, FREE);
}

// A number of two bytes in a frame.
fn word(frame: &[u8], at: usize) -> u16
    requires { at + 2 ≤ length frame.now }
    ensures { result ≡ word_in frame.now at }
{
    u16::from(frame[at]) + 256 * u16::from(frame[at + 1])
}

// Puts a number of two bytes into a frame.
fn put_word(frame: &mut [u8], at: usize, number: u16)
    requires { at + 2 ≤ length frame.old }
    ensures word { word_in frame.new at ≡ number }
    ensures rest { (k : ℕ) → k ≢ at → k ≢ at + 1 → slice_index frame.new k ≡ slice_index frame.old k }
{
    frame[at] = (number % 256) as u8;
    frame[at + 1] = (number / 256) as u8;
}

// From which frame on pages stand whose home this one is, and before which.
pub(crate) fn strays(frame: &[u8]) -> (usize, usize)
    requires { 8 ≤ length frame.now }
    ensures since { result.0 ≡ word_in frame.now 2 }
    ensures until { result.1 ≡ word_in frame.now 4 }
{
    (
        usize::from(word(frame, SINCE)),
        usize::from(word(frame, UNTIL)),
    )
}

// Below which frame none is free, as the first frame tells it.
pub(crate) fn used(frame: &[u8]) -> usize
    requires { 8 ≤ length frame.now }
    ensures { result ≡ word_in frame.now 6 }
{
    usize::from(word(frame, USED))
}

// Makes a frame free, and lets it tell of no other.
pub(crate) fn empty(frame: &mut [u8])
    requires { 8 ≤ length frame.old }
    ensures { IsFree frame.old frame.new }
{
    put_word(frame, SINCE, 0);
    put_word(frame, UNTIL, 0);
    put_word(frame, USED, 0);
    give_up(frame);
}

// A home tells of one more frame.
pub(crate) fn widen(frame: &mut [u8], stray: u16)
    requires size { 8 ≤ length frame.old }
    requires small { stray < 65535 }
    ensures { Widened stray frame.old frame.new }
{
    let since = word(frame, SINCE);
    let until = word(frame, UNTIL);
    if since < until {
        put_word(frame, SINCE, since.min(stray));
        put_word(frame, UNTIL, until.max(stray + 1));
    } else {
        put_word(frame, SINCE, stray);
        put_word(frame, UNTIL, stray + 1);
    }
}

// The first frame tells that none is free below that number.
pub(crate) fn bound(frame: &mut [u8], count: u16)
    requires { 8 ≤ length frame.old }
    ensures { Bounded count frame.old frame.new }
{
    put_word(frame, USED, count);
}

// A frame gets a page from the device.
pub(crate) fn fill<N: Nor>(nor: &mut N, frame: &mut [u8], len: u32, page: u16) -> Result<(), Failed>
    requires size { length frame.old ≡ len + 8 }
    requires some { 0 < len }
    requires inside { page * len + len ≤ N.size nor.old }
    ensures cause { OnErr result (Rose (N.faults nor.old) (N.faults nor.new)) }
    ensures reads { OnlyReads N.NorState nor.old nor.new }
    ensures once { N.device_reads nor.new ≤ N.device_reads nor.old + 1 }
    ensures number { OnOk result (the_number_of frame.new ≡ page) }
    ensures free { OnErr result (the_number_of frame.new ≡ 65535) }
    ensures head { SameHead frame.old frame.new }
    ensures copy { N.tells nor.old → OnOk result (IsCopy len (N.bytes nor.old) frame.new) }
{
    give_up(frame);
    let at = u32::from(page) * len;
    nor.read(at, &mut frame[HEAD..])?;
    put_number(frame, page);
    Ok(())
}

// Clears the bits of these bytes that others don't have.
fn and_bytes(bytes: &mut [u8], others: &[u8])
    requires { length bytes.old ≡ length others.now }
    ensures { (k : ℕ) → k < length others.now → slice_index bytes.new k ≡ bit_and (slice_index bytes.old k) (slice_index others.now k) }
{
    for k in 0..others.len() {
        bytes[k] &= others[k];
    }
}

// A frame goes with a program of bytes from byte `at` of the device on.
fn program_copy(frame: &mut [u8], page: usize, at: usize, from: &[u8])
    requires size { length frame.old ≡ page + 8 }
    requires page { page ≤ 4096 }
    requires fits { at + length from.now < 2 ^ 32 }
    ensures { GoesWithProgram page at from.now frame.old frame.new }
{
    let start = usize::from(number_of(frame)) * page;
    let low = start.max(at);
    let high = (start + page).min(at + from.len());
    if low < high {
        and_bytes(
            &mut frame[HEAD + low - start..HEAD + high - start],
            &from[low - at..high - at],
        );
    }
}

// Makes these bytes 0xFF.
fn blank(bytes: &mut [u8])
    ensures { (k : ℕ) → k < length bytes.old → slice_index bytes.new k ≡ 255 }
{
    bytes.fill(0xFF);
}

// A frame goes with an erase of bytes from byte `at` of the device on.
fn erase_copy(frame: &mut [u8], page: usize, at: usize, count: usize)
    requires size { length frame.old ≡ page + 8 }
    requires page { page ≤ 4096 }
    requires fits { at + count < 2 ^ 32 }
    ensures { GoesWithErase page at count frame.old frame.new }
{
    let start = usize::from(number_of(frame)) * page;
    let low = start.max(at);
    let high = (start + page).min(at + count);
    if low < high {
        blank(&mut frame[HEAD + low - start..HEAD + high - start]);
    }
}

// Gives up what a frame holds, if a range of the device meets its page.
fn give_up_met(frame: &mut [u8], page: usize, at: usize, count: usize)
    requires size { length frame.old ≡ page + 8 }
    requires page { page ≤ 4096 }
    requires fits { at + count < 2 ^ 32 }
    ensures { GivenUp page at count frame.old frame.new }
{
    let start = usize::from(number_of(frame)) * page;
    if at < start + page && start < at + count {
        give_up(frame);
    }
}

// A frame goes with an event from byte `at` of the device on.
pub(crate) fn follow(frame: &mut [u8], page: usize, at: usize, event: Event<'_>)
    requires size { length frame.old ≡ page + 8 }
    requires page { page ≤ 4096 }
    requires fits { at + span_of event < 2 ^ 32 }
    ensures { Follows page at event.entry frame.old frame.new }
{
    match event {
        Event::Program(from) => program_copy(frame, page, at, from),
        Event::Erase(count) => erase_copy(frame, page, at, count),
        Event::Failure(count) => give_up_met(frame, page, at, count),
    }
}
