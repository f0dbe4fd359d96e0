// The pieces of an SVG picture.
ghost use Rattle.std.specs.Prelude.{◌≡◌, ◌+◌, ◌*◌, ◌<◌, ◌≤◌, ◌^◌, ◌++◌, length};
ghost use Rattle.call_script.specs.Pieces.{Puts};
ghost use Rattle.geometry.specs.Numbers.{page_count};
ghost use Rattle.image_picture.specs.declared.style.Style.TheVariants.{Svg};
ghost use Rattle.image_picture.specs.Pieces.{label, row_top as the_row_top, opening, fill_text, whose_text, place_text, title_text, page_piece};
ghost use Rattle.image_picture.specs.Picture.{top_of, legend_of};

use crate::looking::block_of;
use crate::pieces::put_label;
use crate::signs::{Sign, hue, word};
use call_script::{put, put_count, put_number};
use geometry::Geometry;

// Where the row of a block begins, from the top.
#[tactic(auto, unfolding(crate::specs::Pieces::row_top))]
fn row_top(block: u32) -> u32
    requires { block < 2 ^ 16 }
    ensures top { result ≡ the_row_top block }
    ensures bound { result < 2 ^ 20 }
{
    12 * block + 14
}

// A place so far below the last row.
fn bottom(g: &Geometry, below: u32) -> u32
    requires { below < 2 ^ 10 }
    ensures { result ≡ the_row_top g.now.blocks + below }
{
    row_top(g.blocks()) + below
}

/// Writes the label of a block.
#[tactic(auto, using(call_script::proofs::Putting::puts_more), unfolding(crate::specs::Pieces::opening))]
pub(crate) fn put_opening(into: &mut [u8], block: u32, raw: u16, has: bool) -> usize
    requires room { 4096 ≤ length into.old }
    requires block { block < 2 ^ 16 }
    ensures put { Puts into.old 0 (opening Svg block (label block raw has)) into.new result }
    ensures bound { result ≤ 64 }
{
    let at = put_count(into, 0, b"<text y='", row_top(block) + 9);
    let at = put(into, at, b"'>");
    let at = put_label(into, at, block, raw, has);
    put(into, at, b"</text>\n")
}

// Writes the colour of a live page.
#[tactic(auto, using(call_script::proofs::Putting::puts_more, call_script::proofs::Putting::puts_none))]
fn put_fill(into: &mut [u8], at: usize, sign: Sign) -> usize
    requires { at + 40 ≤ length into.old }
    ensures put { Puts into.old at (fill_text sign) into.new result }
    ensures bound { result ≤ at + 40 }
{
    match sign {
        Sign::Live(head) => {
            let at = put_count(into, at, b" fill='hsl(", hue(&head));
            put(into, at, b",65%,60%)'")
        }
        Sign::Lookup | Sign::Free | Sign::Deleted | Sign::Neither => at,
    }
}

// Writes the id and the span index of a live page.
#[tactic(auto, using(call_script::proofs::Putting::puts_more, call_script::proofs::Putting::puts_none))]
fn put_whose(into: &mut [u8], at: usize, sign: Sign) -> usize
    requires { at + 40 ≤ length into.old }
    ensures put { Puts into.old at (whose_text sign) into.new result }
    ensures bound { result ≤ at + 40 }
{
    match sign {
        Sign::Live(head) => {
            let at = put_count(into, at, b" id ", u32::from(head.object()));
            put_count(into, at, b" span ", u32::from(head.span))
        }
        Sign::Lookup | Sign::Free | Sign::Deleted | Sign::Neither => at,
    }
}

// Writes where the rectangle of a page stands, its class and its colour.
#[tactic(auto, using(call_script::proofs::Putting::puts_more), unfolding(crate::specs::Pieces::place_text))]
fn put_place(into: &mut [u8], g: &Geometry, p: u32, sign: Sign) -> usize
    requires room { 4096 ≤ length into.old }
    requires page { p < page_count g.now }
    ensures put { Puts into.old 0 (place_text g.now p sign) into.new result }
    ensures bound { result ≤ 200 }
{
    let across = 12 * (p % g.per_block()) + 90;
    let at = put_count(into, 0, b"<rect x='", across);
    let at = put_count(into, at, b"' y='", row_top(block_of(g, p)));
    let at = put(into, at, b"' width='9' height='9' class='");
    let at = put(into, at, word(sign));
    let at = put(into, at, b"'");
    put_fill(into, at, sign)
}

// Writes the title of a page.
#[tactic(auto, using(call_script::proofs::Putting::puts_more), unfolding(crate::specs::Pieces::title_text))]
fn put_title(into: &mut [u8], at: usize, p: u32, sign: Sign) -> usize
    requires { at + 200 ≤ length into.old }
    ensures put { Puts into.old at (title_text p sign) into.new result }
    ensures bound { result ≤ at + 200 }
{
    let at = put_count(into, at, b"><title>page ", p);
    let at = put(into, at, b" ");
    let at = put(into, at, word(sign));
    let at = put_whose(into, at, sign);
    put(into, at, b"</title></rect>\n")
}

/// Writes the rectangle of a page.
#[tactic(auto, using(call_script::proofs::Putting::puts_more), unfolding(crate::specs::Pieces::page_piece))]
pub(crate) fn put_page(into: &mut [u8], g: &Geometry, p: u32, sign: Sign) -> usize
    requires room { 4096 ≤ length into.old }
    requires page { p < page_count g.now }
    ensures put { Puts into.old 0 (page_piece Svg g.now p sign) into.new result }
    ensures bound { result ≤ 400 }
{
    let at = put_place(into, g, p, sign);
    put_title(into, at, p, sign)
}

/// Writes what stands above the blocks.
#[tactic(auto, using(call_script::proofs::Putting::puts_more), unfolding(crate::specs::Picture::top_of))]
pub(crate) fn put_top(into: &mut [u8], g: &Geometry) -> usize
    requires { 4096 ≤ length into.old }
    ensures put { Puts into.old 0 (top_of Svg g.now) into.new result }
    ensures bound { result ≤ 4096 }
{
    let wide = 12 * g.per_block() + 400;
    let at = put_count(
        into,
        0,
        b"<svg xmlns='http://www.w3.org/2000/svg' viewBox='0 0 ",
        wide,
    );
    let at = put(into, at, b" ");
    let at = put_number(into, at, bottom(g, 60));
    let at = put(
        into,
        at,
        b"' font-family='monospace' font-size='10' xml:space='preserve'>\n",
    );
    let at = put(
        into,
        at,
        b"<style>.lookup{fill:#777}.free{fill:#fff;stroke:#ccc}.deleted{fill:#ccc}.neither{fill:#000}",
    );
    put(
        into,
        at,
        b".header{stroke:#000;stroke-width:2}.index{stroke:#000}</style>\n<text y='9'>block erase   pages</text>\n",
    )
}

/// Writes what stands below them.
#[tactic(auto, using(call_script::proofs::Putting::puts_more), unfolding(crate::specs::Picture::legend_of))]
pub(crate) fn put_legend(into: &mut [u8], g: &Geometry) -> usize
    requires { 4096 ≤ length into.old }
    ensures put { Puts into.old 0 (legend_of Svg g.now) into.new result }
    ensures bound { result ≤ 4096 }
{
    let at = put_count(into, 0, b"<text y='", bottom(g, 16));
    let at = put(
        into,
        at,
        b"'>grey: lookup, pale: deleted, white: free, black: neither, ! no magic</text>\n",
    );
    let at = put(into, at, b"<text y='");
    let at = put_number(into, at, bottom(g, 30));
    put(
        into,
        at,
        b"'>a colour: a file; thick border: header, thin: further index</text>\n</svg>\n",
    )
}
