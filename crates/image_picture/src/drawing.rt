// Drawing a chip: pieces are said one after the other.
ghost use Rattle.std.specs.Prelude.{◌≡◌, ◌+◌, ◌*◌, ◌<◌, ◌≤◌, ◌++◌, length, OnOk, OnErr, IfOk};
ghost use Rattle.std.specs.List.{flat_map, range_with_len};
ghost use Rattle.geometry.specs.Numbers.{page_count, per_block};
ghost use Rattle.image_model.specs.Places.{has_magic, block_of};
ghost use Rattle.image_picture.specs.Drawing.{Drawn, Stopped};
ghost use Rattle.image_picture.specs.Pieces.{opening, closing};
ghost use Rattle.image_picture.specs.Picture.{top_of, legend_of, label_at, piece_at, pages_of, row_of, picture_of};

use crate::looking::{count_on, magic_on, sign_on};
use crate::pieces::{closing_text, put_legend, put_opening, put_page, put_top};
use crate::style::Style;
use geometry::Geometry;
use nor_core::{Board, Failed, Nor, NorState};

// Says a piece.
fn say_piece<B: Board>(board: &mut B, piece: &[u8]) -> Result<(), Failed>
    ensures drawn { OnOk result (Drawn B.NorState board.old board.new piece.now) }
    ensures stopped { OnErr result (Stopped B.NorState board.old board.new piece.now) }
{
    board.say(piece)
}

// Says what is written for a page.
fn draw_page<B: Board>(
    board: &mut B,
    style: Style,
    g: &Geometry,
    p: u32,
    has: bool,
    work: &mut [u8],
) -> Result<(), Failed>
    requires volume { g.now.blocks * g.now.block ≤ B.size board.old }
    requires page { p < page_count g.now }
    requires work { 4096 ≤ length work.old }
    requires magic { B.tells board.old → has ≡ has_magic g.now (B.bytes board.old) (block_of g.now p) }
    ensures drawn { OnOk result (Drawn B.NorState board.old board.new (piece_at style g.now (B.bytes board.old) p)) }
    ensures stopped { OnErr result (Stopped B.NorState board.old board.new (piece_at style g.now (B.bytes board.old) p)) }
{
    let sign = sign_on(board, g, p, has, work)?;
    let end = put_page(work, style, g, p, sign);
    say_piece(board, &work[..end])
}

// The first page of a block.
#[tactic(auto, unfolding(geometry::specs::Numbers::page_count))]
fn first_page(g: &Geometry, block: u32) -> u32
    requires { block < g.now.blocks }
    ensures { result ≡ block * per_block g.now }
{
    block * g.per_block()
}

// Says what is written for the pages of a block.
fn draw_pages<B: Board>(
    board: &mut B,
    style: Style,
    g: &Geometry,
    block: u32,
    has: bool,
    work: &mut [u8],
) -> Result<(), Failed>
    requires volume { g.now.blocks * g.now.block ≤ B.size board.old }
    requires block { block < g.now.blocks }
    requires work { 4096 ≤ length work.old }
    requires magic { B.tells board.old → has ≡ has_magic g.now (B.bytes board.old) block }
    ensures drawn { OnOk result (Drawn B.NorState board.old board.new (pages_of style g.now (B.bytes board.old) block)) }
    ensures stopped { OnErr result (Stopped B.NorState board.old board.new (pages_of style g.now (B.bytes board.old) block)) }
{
    let first = first_page(g, block);
    for p in first..first + g.per_block() {
        draw_page(board, style, g, p, has, work)?;
    }
    Ok(())
}

// Says what stands before the pages of a block, and answers whether it has its magic.
fn draw_opening<B: Board>(
    board: &mut B,
    style: Style,
    g: &Geometry,
    block: u32,
    work: &mut [u8],
) -> Result<bool, Failed>
    requires volume { g.now.blocks * g.now.block ≤ B.size board.old }
    requires block { block < g.now.blocks }
    requires work { 4096 ≤ length work.old }
    ensures drawn { OnOk result (Drawn B.NorState board.old board.new (opening style block (label_at g.now (B.bytes board.old) block))) }
    ensures stopped { OnErr result (Stopped B.NorState board.old board.new (opening style block (label_at g.now (B.bytes board.old) block))) }
    ensures magic { B.tells board.old → IfOk result (λ has. has ≡ has_magic g.now (B.bytes board.old) block) }
{
    let has = magic_on(board, g, block)?;
    let raw = count_on(board, g, block)?;
    let end = put_opening(work, style, block, raw, has);
    say_piece(board, &work[..end])?;
    Ok(has)
}

// Says the row of a block.
fn draw_row<B: Board>(
    board: &mut B,
    style: Style,
    g: &Geometry,
    block: u32,
    work: &mut [u8],
) -> Result<(), Failed>
    requires volume { g.now.blocks * g.now.block ≤ B.size board.old }
    requires block { block < g.now.blocks }
    requires work { 4096 ≤ length work.old }
    ensures drawn { OnOk result (Drawn B.NorState board.old board.new (row_of style g.now (B.bytes board.old) block)) }
    ensures stopped { OnErr result (Stopped B.NorState board.old board.new (row_of style g.now (B.bytes board.old) block)) }
{
    let has = draw_opening(board, style, g, block, work)?;
    draw_pages(board, style, g, block, has, work)?;
    say_piece(board, closing_text(style))
}

// Says the row of each block.
fn draw_rows<B: Board>(
    board: &mut B,
    style: Style,
    g: &Geometry,
    work: &mut [u8],
) -> Result<(), Failed>
    requires volume { g.now.blocks * g.now.block ≤ B.size board.old }
    requires work { 4096 ≤ length work.old }
    ensures drawn { OnOk result (Drawn B.NorState board.old board.new (flat_map (row_of style g.now (B.bytes board.old)) (range_with_len 0 g.now.blocks))) }
    ensures stopped { OnErr result
        (Stopped B.NorState board.old board.new (flat_map (row_of style g.now (B.bytes board.old)) (range_with_len 0 g.now.blocks))) }
{
    for block in 0..g.blocks() {
        draw_row(board, style, g, block, work)?;
    }
    Ok(())
}

/// Says the picture of a volume: a line a block with a sign a page, and a legend; or the same as SVG. The volume is the
/// first bytes of the chip, and may be any bytes. `work` has 4,096 bytes or more; what they hold doesn't matter. It reads a page at a
/// time, says a piece a page, and writes nothing to the chip. It fails only where the board failed, and has said a front then.
pub fn draw<B: Board>(
    board: &mut B,
    style: Style,
    g: &Geometry,
    work: &mut [u8],
) -> Result<(), Failed>
    requires volume { g.now.blocks * g.now.block ≤ B.size board.old }
    requires work { 4096 ≤ length work.old }
    ensures drawn { OnOk result (Drawn B.NorState board.old board.new (picture_of style g.now (B.bytes board.old))) }
    ensures stopped { OnErr result (Stopped B.NorState board.old board.new (picture_of style g.now (B.bytes board.old))) }
{
    let end = put_top(work, style, g);
    say_piece(board, &work[..end])?;
    draw_rows(board, style, g, work)?;
    let end = put_legend(work, style, g);
    say_piece(board, &work[..end])
}
