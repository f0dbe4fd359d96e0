ghost use Rattle.geometry.specs.declared.geometry.Geometry.{Geometry};
ghost use Rattle.script_run.specs.Taken.{CutsMount, CutsAreTaken, CutCallsMend, CutRunsMend};

use nor_core::{Board, NorState};

/// What a power cut leaves of a chip that mounts, mounts; and of one that fits over with an entry to spare, the check takes.
pub fn cuts_are_taken()
    ensures mounts { (g : Geometry) → CutsMount g }
    ensures takes { (g : Geometry) → CutsAreTaken g }
{}

/// What a power cut in a run leaves, once a byte was said, is a chip that an uncut check gives two free blocks.
pub fn cut_runs_are_mended<B: Board>()
    ensures calls { (g : Geometry) → CutCallsMend B.NorState g }
    ensures run { (g : Geometry) → CutRunsMend B.NorState g }
{}
