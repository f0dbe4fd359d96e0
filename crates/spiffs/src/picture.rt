//! The word `picture`: what a chip looks like, a line a block.
use crate::give::{chip_file, end_by, explain_image, print_bytes, row_of, trouble_of};
use crate::meant::Meant;
use crate::stop::Stop;
use crate::{BOARD_FAULT, USAGE, tell};
use host_edge::StdBoard;
use image_picture::{Style, draw};
use nor_core::{Failed, Nor};
use tool_parts::{Ending, read_geometry, read_numbers};

// How a picture is asked for.
fn style_of(meant: &Meant<'_>) -> Style {
    if meant.asked.is_svg {
        Style::Svg
    } else {
        Style::Text
    }
}

/// Draws the volume, whatever it holds: as text, or as SVG. Nothing is written.
pub fn picture(rt: &HostRuntime, meant: &Meant<'_>) -> Result<u8, Stop> {
    let Some(numbers) = read_numbers(&meant.top) else {
        return Ok(tell(rt, "! usage\n", USAGE));
    };
    let row = row_of(rt, meant, chip_file(meant)?)?;
    let mut board = StdBoard::new(row, Vec::new(rt.alloc()));
    let g = match read_geometry(numbers, board.unit(), board.size()) {
        Ok(g) => g,
        Err(why) => return Ok(end_by(rt, Ending::Geometry(why))),
    };
    let mut work = [0u8; 4096];
    let drawn = draw(&mut board, style_of(meant), &g, &mut work);
    let (row, said) = board.give_back();
    if !print_bytes(rt, said.as_slice()) {
        return Ok(BOARD_FAULT);
    }
    match drawn {
        Ok(()) => Ok(0),
        Err(Failed) => {
            explain_image(rt, meant, trouble_of(&row));
            Ok(BOARD_FAULT)
        }
    }
}
