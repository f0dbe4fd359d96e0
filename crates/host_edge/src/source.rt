ghost use Rattle.std.specs.Prelude.{[]};

use crate::Trouble;
use crate::trouble::note;
use nor_core::{Failed, Source};
use std::io::Read;

/// A script that is read from a reader of the host. It tells nothing.
#[derive(Drop)]
pub struct StdSource<R: Read + Drop> {
    input: R,
    faults: u64,
    trouble: Option<Trouble>,
}

impl<R: Read + Drop> StdSource<R> {
    /// The script that this reader gives.
    pub fn new(input: R) -> StdSource<R> {
        StdSource {
            input,
            faults: 0,
            trouble: None,
        }
    }

    /// What failed first, if anything did.
    pub fn trouble(&self) -> Option<&Trouble> {
        self.trouble.as_ref()
    }
}

impl<R: Read + Drop> Source for StdSource<R> {
    ghost tells = { λ _. ⊥ };

    ghost left = { λ _. [] };

    ghost faults = { λ s. s.faults };

    fn read(&mut self, into: &mut [u8]) -> Result<usize, Failed> {
        match self.input.read(into) {
            Ok(count) => Ok(count),
            Err(why) => {
                note(&mut self.trouble, Trouble::Script(why));
                self.faults = self.faults.saturating_add(1);
                Err(Failed)
            }
        }
    }
}
