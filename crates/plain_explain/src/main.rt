//! The program `plain_explain`: prints what the definitions say of a chip file. Its words are
//! `PAGE BLOCK BLOCKS META MAGIC CHIP`.
#![tactic(auto)]

mod report;
mod shape;
mod text;

use geometry::Geometry;
use report::explained;
use shape::{Shape, shape_of};
use std::alloc::{AllocError, Global};
use std::process::ExitCode;
use std::rt::Env;
use std::{env, fs, io};

// The words of the command line, without the program's own name. None where one isn't text.
fn words_of<R: Env + Alloc<A = Global>>(rt: &R) -> Option<Result<Vec<String>, AllocError>> {
    let args = env::args(rt).ok()?;
    Some(args.skip(1).collect(rt.alloc()))
}

// Prints a text, and answers the status.
fn tell(rt: &impl Print, text: &str, status: u8) -> u8 {
    match rt.print(text) {
        Ok(()) => status,
        Err(_) => 7,
    }
}

// Tells why a chip can't be read.
fn tell_unread(rt: &impl Print, why: &io::Error) -> u8 {
    if why.kind() == io::ErrorKind::OutOfMemory {
        tell(rt, "! memory\n", 15)
    } else {
        7
    }
}

// Prints what an image means.
fn explain(rt: &HostRuntime, g: &Geometry, image: &[u8]) -> u8 {
    match explained(rt.alloc(), g, image) {
        Ok(Some(text)) => tell(rt, text.as_str(), 0),
        Ok(None) => 7,
        Err(_) => tell(rt, "! memory\n", 15),
    }
}

// Reads the chip, and explains it as a volume of that shape.
fn run(rt: &HostRuntime, shape: &Shape, chip: &str) -> u8 {
    match Geometry::new(
        shape.page,
        shape.block,
        shape.blocks,
        shape.block,
        shape.meta,
        shape.magic,
    ) {
        Ok(g) => match fs::read(rt, chip) {
            Ok(image) => explain(rt, &g, image.as_slice()),
            Err(why) => tell_unread(rt, &why),
        },
        Err(why) => match text::geometry_text(rt.alloc(), why.code()) {
            Ok(text) => tell(rt, text.as_str(), 2),
            Err(_) => tell(rt, "! memory\n", 15),
        },
    }
}

fn start(rt: &HostRuntime) -> u8 {
    let words = match words_of(rt) {
        Some(Ok(words)) => words,
        Some(Err(_)) => return tell(rt, "! memory\n", 15),
        None => return tell(rt, "! usage\n", 1),
    };
    match shape_of(&words) {
        Some(shape) => run(rt, &shape, words[5].as_str()),
        None => tell(rt, "! usage\n", 1),
    }
}

fn main(rt: HostRuntime) -> ExitCode {
    ExitCode::from(start(&rt))
}
