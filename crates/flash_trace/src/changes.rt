// Whether an event is a right one, and the image after it.
ghost use Rattle.std.specs.Prelude.{◌≡◌, ◌+◌, ◌*◌, ◌/◌, ◌<◌, ◌≤◌, ◌↔◌, length, IfOk, OnOk, IsTrue};
ghost use Rattle.nor_core.specs.Flash.{programmed, erased};
ghost use Rattle.nor_memory.specs.Picks.{put};
ghost use Rattle.flash_trace.specs.Events.{IsInside, HasRightBits, image_after};

use crate::event::{Bytes, Event};
use nor_memory::cleared_bytes;
use std::alloc::{AllocError, Global};

// Whether an event is inside a device of so many bytes, in erase units of `unit` bytes.
#[tactic(auto, unfolding(crate::specs::Events::IsInside))]
pub(crate) fn is_inside(event: &Event, size: usize, unit: u32) -> bool
    requires { 0 < unit }
    ensures { IsTrue result ↔ IsInside size unit event.now }
{
    match event {
        Event::Program { at, asked, got } => are_inside(*at, asked, got, size),
        Event::Erase { unit_ix } => (*unit_ix as usize) < size / unit as usize,
        Event::Say { piece: _ } => true,
    }
}

// Whether a program asked for some bytes, got as many, and is inside so many bytes.
fn are_inside(at: u32, asked: &Bytes, got: &Bytes, size: usize) -> bool
    ensures { IsTrue result
        ↔ ((0 < length asked.now.bytes.items) × (length got.now.bytes.items ≡ length asked.now.bytes.items) × (at + length asked.now.bytes.items ≤ size)) }
{
    let count = asked.as_slice().len();
    count > 0 && got.as_slice().len() == count && at as usize <= size && count <= size - at as usize
}

// Whether what a program got is the old and the asked bytes, bit by bit. Wants memory for as many bytes.
#[tactic(auto, unfolding(crate::specs::Events::IsInside, crate::specs::Events::HasRightBits))]
pub(crate) fn has_right_bits(
    alloc: Global,
    image: &[u8],
    event: &Event,
    unit: u32,
) -> Result<bool, AllocError>
    requires { IsInside (length image.now) unit event.now }
    ensures { IfOk result (λ yes. IsTrue yes ↔ HasRightBits event.now image.now) }
{
    match event {
        Event::Program { at, asked, got } => {
            has_got(alloc, image, *at, asked.as_slice(), got.as_slice())
        }
        _ => Ok(true),
    }
}

// Whether two pieces hold the same bytes.
fn is_same(a: &[u8], b: &[u8]) -> bool
    ensures { IsTrue result ↔ a.now ≡ b.now }
{
    a == b
}

// Whether a program of these bytes left those.
fn has_got(
    alloc: Global,
    image: &[u8],
    at: u32,
    asked: &[u8],
    got: &[u8],
) -> Result<bool, AllocError>
    requires inside { at + length asked.now ≤ length image.now }
    requires same { length got.now ≡ length asked.now }
    ensures { IfOk result (λ yes. IsTrue yes ↔ put image.now at got.now ≡ programmed image.now at asked.now) }
{
    let start = at as usize;
    let left = cleared_bytes(alloc, &image[start..start + asked.len()], asked)?;
    Ok(is_same(left.as_slice(), got))
}

// Writes bytes over what stands there.
fn put_at(image: &mut [u8], at: usize, bytes: &[u8])
    requires { at + length bytes.now ≤ length image.old }
    ensures { image.new ≡ put image.old at bytes.now }
{
    image[at..at + bytes.len()].copy_from_slice(bytes);
}

// Erases a unit. Wants memory for one.
fn erase_unit(alloc: Global, image: &mut [u8], unit_ix: u32, unit: u32) -> Result<(), AllocError>
    requires unit { 0 < unit }
    requires inside { unit_ix < length image.old / unit }
    ensures { OnOk result (image.new ≡ erased image.old (unit_ix * unit) unit) }
{
    let blank = vec![in alloc; 0xff; unit as usize]?;
    put_at(image, unit_ix as usize * unit as usize, blank.as_slice());
    Ok(())
}

// Makes the image that which stands after an event.
#[tactic(auto, unfolding(crate::specs::Events::IsInside, crate::specs::Events::image_after))]
pub(crate) fn change_image(
    alloc: Global,
    image: &mut [u8],
    event: &Event,
    unit: u32,
) -> Result<(), AllocError>
    requires unit { 0 < unit }
    requires inside { IsInside (length image.old) unit event.now }
    ensures { OnOk result (image.new ≡ image_after unit event.now image.old) }
{
    match event {
        Event::Program { at, asked: _, got } => {
            put_at(image, *at as usize, got.as_slice());
            Ok(())
        }
        Event::Erase { unit_ix } => erase_unit(alloc, image, *unit_ix, unit),
        Event::Say { piece: _ } => Ok(()),
    }
}
