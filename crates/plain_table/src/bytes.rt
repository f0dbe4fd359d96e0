// Pieces of bytes, with memory of their own.
ghost use Rattle.std.specs.Prelude.{◌≡◌, ◌+◌, ◌++◌, ◌<◌, ◌^◌, length, take, drop, IfOk};

use crate::counts::counted;
use std::alloc::{AllocError, Global};

// The first bytes, at most so many.
#[tactic(auto, using(crate::proofs::Pieces::take_least))]
pub(crate) fn front(alloc: Global, bytes: &[u8], n: usize) -> Result<Vec<u8>, AllocError>
    ensures { IfOk result (λ v. v.items ≡ take n bytes.now) }
{
    let (front, _) = bytes.split_at(n.min(bytes.len()));
    Vec::from_slice(alloc, front)
}

// The bytes behind the first ones.
#[tactic(auto, using(crate::proofs::Pieces::drop_least))]
pub(crate) fn behind(alloc: Global, bytes: &[u8], n: usize) -> Result<Vec<u8>, AllocError>
    ensures { IfOk result (λ v. v.items ≡ drop n bytes.now) }
{
    let (_, back) = bytes.split_at(n.min(bytes.len()));
    Vec::from_slice(alloc, back)
}

// Bytes with others written over them at a place.
#[tactic(auto, using(std::proofs::lemmas::List::append_assoc))]
pub(crate) fn written(
    alloc: Global,
    bytes: &[u8],
    at: u32,
    new: &[u8],
) -> Result<Vec<u8>, AllocError>
    ensures { IfOk result (λ v. v.items ≡ take at bytes.now ++ new.now ++ drop (at + length new.now) bytes.now) }
{
    let len = counted(new.len() as u64)?;
    let back = behind(alloc, bytes, (u64::from(at) + len) as usize)?;
    let mut whole = front(alloc, bytes, at as usize)?;
    whole.extend_from_slice(new)?;
    whole.extend_from_slice(back.as_slice())?;
    Ok(whole)
}
