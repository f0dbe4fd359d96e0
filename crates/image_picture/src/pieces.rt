// The pieces of a picture, put into a line.
ghost use Rattle.std.specs.Prelude.{◌≡◌, ◌+◌, ◌/◌, ◌%◌, ◌^◌, ◌<◌, ◌≤◌, ◌∷◌, ◌++◌, [], length, nat_lt, if◌then◌else◌};
ghost use Rattle.call_script.specs.Pieces.{Puts};
ghost use Rattle.geometry.specs.Numbers.{page_count};
ghost use Rattle.image_picture.specs.Pieces.{lead, five, count_text, magic_text, label, opening, closing, page_piece};
ghost use Rattle.image_picture.specs.Picture.{top_of, legend_of};

use crate::signs::{Sign, letter};
use crate::style::Style;
use crate::svg;
use call_script::put;
use geometry::Geometry;

// The digit of a number that stands for a power of ten, a space where the number is smaller.
fn digit(n: u32, power: u32) -> u8
    requires { 0 < power }
    ensures { result ≡ lead n power }
{
    if n < power {
        b' '
    } else {
        b'0' + (n / power % 10) as u8
    }
}

// Writes a number below 100,000 in five places.
fn put_five(into: &mut [u8], at: usize, n: u32) -> usize
    requires { at + 5 ≤ length into.old }
    ensures put { Puts into.old at (five n) into.new result }
    ensures bound { result ≡ at + 5 }
{
    let places = [
        digit(n, 10000),
        digit(n, 1000),
        digit(n, 100),
        digit(n, 10),
        b'0' + (n % 10) as u8,
    ];
    put(into, at, &places)
}

// Writes what the slot of an erase count tells.
fn put_erases(into: &mut [u8], at: usize, raw: u16) -> usize
    requires { at + 5 ≤ length into.old }
    ensures put { Puts into.old at (count_text raw) into.new result }
    ensures bound { result ≡ at + 5 }
{
    if raw < 0x8000 {
        put_five(into, at, u32::from(raw))
    } else {
        put(into, at, b"    -")
    }
}

// What tells whether a block has its magic.
fn magic_mark(has: bool) -> &'static [u8]
    ensures text { result.now ≡ magic_text has }
    ensures short { length result.now ≡ 1 }
{
    if has { b" " } else { b"!" }
}

/// Writes a block's number, its erase count, and whether it has its magic.
#[tactic(auto, using(call_script::proofs::Putting::puts_more), unfolding(crate::specs::Pieces::label))]
pub(crate) fn put_label(into: &mut [u8], at: usize, block: u32, raw: u16, has: bool) -> usize
    requires { at + 13 ≤ length into.old }
    ensures put { Puts into.old at (label block raw has) into.new result }
    ensures bound { result ≡ at + 13 }
{
    let at = put_five(into, at, block);
    let at = put(into, at, b" ");
    let at = put_erases(into, at, raw);
    let at = put(into, at, b" ");
    put(into, at, magic_mark(has))
}

/// Writes what stands before the pages of a block, at the front. Answers where it ends.
#[tactic(auto, using(call_script::proofs::Putting::puts_more), unfolding(crate::specs::Pieces::opening))]
pub(crate) fn put_opening(into: &mut [u8], style: Style, block: u32, raw: u16, has: bool) -> usize
    requires room { 4096 ≤ length into.old }
    requires block { block < 2 ^ 16 }
    ensures put { Puts into.old 0 (opening style block (label block raw has)) into.new result }
    ensures bound { result ≤ 4096 }
{
    match style {
        Style::Text => {
            let at = put_label(into, 0, block, raw, has);
            put(into, at, b" ")
        }
        Style::Svg => svg::put_opening(into, block, raw, has),
    }
}

/// What stands behind the pages of a block.
pub(crate) fn closing_text(style: Style) -> &'static [u8]
    ensures { result.now ≡ closing style }
{
    match style {
        Style::Text => b"\n",
        Style::Svg => b"",
    }
}

/// Writes what is written for a page, at the front. Answers where it ends.
#[tactic(auto, unfolding(crate::specs::Pieces::page_piece))]
pub(crate) fn put_page(into: &mut [u8], style: Style, g: &Geometry, p: u32, sign: Sign) -> usize
    requires room { 4096 ≤ length into.old }
    requires page { p < page_count g.now }
    ensures put { Puts into.old 0 (page_piece style g.now p sign) into.new result }
    ensures bound { result ≤ 4096 }
{
    match style {
        Style::Text => put(into, 0, letter(sign)),
        Style::Svg => svg::put_page(into, g, p, sign),
    }
}

/// Writes what stands above the blocks, at the front. Answers where it ends.
#[tactic(auto, unfolding(crate::specs::Picture::top_of))]
pub(crate) fn put_top(into: &mut [u8], style: Style, g: &Geometry) -> usize
    requires { 4096 ≤ length into.old }
    ensures put { Puts into.old 0 (top_of style g.now) into.new result }
    ensures bound { result ≤ 4096 }
{
    match style {
        Style::Text => put(into, 0, b"block erase   pages\n"),
        Style::Svg => svg::put_top(into, g),
    }
}

/// Writes what stands below them, at the front. Answers where it ends.
#[tactic(auto, unfolding(crate::specs::Picture::legend_of))]
pub(crate) fn put_legend(into: &mut [u8], style: Style, g: &Geometry) -> usize
    requires { 4096 ≤ length into.old }
    ensures put { Puts into.old 0 (legend_of style g.now) into.new result }
    ensures bound { result ≤ 4096 }
{
    match style {
        Style::Text => put(
            into,
            0,
            b"L lookup  . free  x deleted  H object index header  i further index  d data  ? neither  ! no magic\n",
        ),
        Style::Svg => svg::put_legend(into, g),
    }
}
