//! Devices in memory, and the commands on them.
use crate::Trouble;
use fd_table::FdSlot;
use folder_core::MemFolder;
use geometry::{Geometry, MagicKind};
use nor_memory::{CallKind, MemBoard, MemSource};
use rehearse_tool::rehearse_tool;
use std::alloc::{AllocError, Global};
use tool_core::spiffs_tool;
use tool_parts::Buffers;
use trace_tool::trace_tool;
use vol_mount::format;

/// How much memory a command is lent, in bytes and slots.
#[derive(Clone, Copy)]
pub struct Lends {
    pub work: usize,
    pub slots: usize,
    pub cache: usize,
    pub check: usize,
    pub window: usize,
    pub line: usize,
}

/// What is to fail in a command.
#[derive(Clone, Copy)]
pub enum Fault {
    /// Nothing.
    Nothing,
    /// The call of that kind and number, from 1 on.
    Call { kind: CallKind, nth: u64 },
    /// The read of the script of that number, from 1 on.
    Script { nth: u64 },
    /// The call of the folder of that number, from 1 on.
    Folder { nth: u64 },
    /// All from the power cut inside the call behind so many programs, erases and says, done as the pick says.
    Power { passed: u64, pick: u64 },
}

/// A volume, the erase unit of the devices that it stands on, and the memory that commands on it are lent.
#[derive(Clone, Copy)]
pub struct Bench {
    pub alloc: Global,
    pub g: Geometry,
    /// Bytes of an erase unit.
    pub unit: u32,
    pub lends: Lends,
}

/// What a command did: its status, what it said, and the image that it left.
#[derive(Drop)]
pub struct Told {
    pub status: u8,
    pub said: Vec<u8>,
    pub image: Vec<u8>,
}

impl Told {
    /// Whether it ended with that status and said that.
    pub fn is(&self, status: u8, said: &str) -> bool {
        self.status == status && self.said.as_slice() == said.as_bytes()
    }

    /// How many lines were said whole.
    pub fn lines(&self) -> usize {
        self.said.iter().filter(|byte| **byte == b'\n').count()
    }
}

/// The memory that a command is lent.
#[derive(Drop)]
pub(crate) struct Loan {
    work: Vec<u8>,
    slots: Vec<FdSlot>,
    cache: Vec<u8>,
    check: Vec<u8>,
    window: Vec<u8>,
    line: Vec<u8>,
}

impl Loan {
    /// The parts as the buffers of a command.
    pub(crate) fn bufs(&mut self) -> Buffers<'_> {
        Buffers {
            work: &mut self.work,
            slots: &mut self.slots,
            cache: &mut self.cache,
            check: &mut self.check,
            window: &mut self.window,
            line: &mut self.line,
        }
    }
}

/// The words of a text that are parted by single spaces.
pub(crate) fn words_of(alloc: Global, text: &str) -> Result<Vec<String>, AllocError> {
    let mut words = Vec::new(alloc);
    for word in text.split(' ') {
        words.push(String::from_str(alloc, word)?)?;
    }
    Ok(words)
}

impl Bench {
    /// A volume on a device of its own units, whose commands are lent enough, three descriptors, and copies of 64 pages.
    pub fn new(alloc: Global, g: Geometry) -> Bench {
        Bench {
            alloc,
            g,
            unit: g.phys,
            lends: Lends {
                work: g.work_need() as usize,
                slots: 3,
                cache: (g.cache_need() as usize).saturating_mul(64),
                check: g.check_need() as usize,
                window: g.page() as usize,
                line: 12288,
            },
        }
    }

    /// A device that holds an image.
    pub fn board(&self, image: &[u8]) -> Result<MemBoard, Trouble> {
        let size = image.len() as u64;
        if self.unit == 0 || size >= 0x1_0000_0000 || size % u64::from(self.unit) != 0 {
            return Err(Trouble::Device);
        }
        Ok(MemBoard::new(self.alloc, image.to_vec(self.alloc)?, self.unit)?)
    }

    /// The image of an empty volume.
    pub fn formatted(&self) -> Result<Vec<u8>, Trouble> {
        let bytes = self.g.blocks as usize * self.g.block as usize;
        let mut board = self.board(&vec![in self.alloc; 0xFFu8; bytes]?)?;
        format(&self.g, &mut board)?;
        Ok(board.image().to_vec(self.alloc)?)
    }

    /// The words of a command on the volume, parted by spaces; the folder is `files`.
    pub fn words(&self, command: &str) -> Result<String, Trouble> {
        let magic = match self.g.magic {
            MagicKind::Length => "len",
            MagicKind::Plain => "plain",
        };
        let folder = match command {
            "extract" | "make" => " files",
            _ => "",
        };
        Ok(format!(in self.alloc;
            "{command} {} {} {} {} {magic} chip{folder}",
            self.g.page, self.g.block, self.g.blocks, self.g.meta
        )?)
    }

    /// The same of a command whose words a number ends: `scrub` with a limit, `map` with an id.
    pub fn numbered_words(&self, command: &str, number: u64) -> Result<String, Trouble> {
        let words = self.words(command)?;
        Ok(format!(in self.alloc; "{words} {number}")?)
    }

    /// What a command is lent.
    pub(crate) fn loan(&self) -> Result<Loan, AllocError> {
        Ok(Loan {
            work: vec![in self.alloc; 0u8; self.lends.work]?,
            slots: vec![in self.alloc; FdSlot::empty(); self.lends.slots]?,
            cache: vec![in self.alloc; 0u8; self.lends.cache]?,
            check: vec![in self.alloc; 0u8; self.lends.check]?,
            window: vec![in self.alloc; 0u8; self.lends.window]?,
            line: vec![in self.alloc; 0u8; self.lends.line]?,
        })
    }

    // Gives the command of these words, and answers its status.
    fn command(
        &self,
        words: &str,
        board: &mut MemBoard,
        script: &mut MemSource,
        folder: &mut MemFolder,
    ) -> Result<u8, Trouble> {
        let words = words_of(self.alloc, words)?;
        let mut loan = self.loan()?;
        let mut bufs = loan.bufs();
        let verb = match words.first() {
            Some(word) => word.as_str(),
            None => "",
        };
        Ok(match verb {
            "trace" => trace_tool(self.alloc, &words, board, script, &mut bufs).status,
            "rehearse" => rehearse_tool(self.alloc, &words, board, script, &mut bufs),
            _ => spiffs_tool(&words, board, script, folder, &mut bufs),
        })
    }

    /// What the command of these words does on a device that holds an image, by the calls of a script and over a folder, where
    /// that is to fail.
    pub fn give_over(
        &self,
        words: &str,
        image: &[u8],
        script: &[u8],
        folder: &mut MemFolder,
        fault: Fault,
    ) -> Result<Told, Trouble> {
        let mut board = self.board(image)?;
        let mut source = MemSource::new(script.to_vec(self.alloc)?);
        match fault {
            Fault::Nothing => {}
            Fault::Call { kind, nth } => board.fail_nth(kind, nth),
            Fault::Script { nth } => source.fail_nth(nth),
            Fault::Folder { nth } => folder.fail_nth(nth),
            Fault::Power { passed, pick } => board.cut_after(passed, pick),
        }
        let status = self.command(words, &mut board, &mut source, folder)?;
        folder.fail_nth(0);
        Ok(Told {
            status,
            said: board.said().to_vec(self.alloc)?,
            image: board.image().to_vec(self.alloc)?,
        })
    }

    /// The same over a folder without files.
    pub fn give(
        &self,
        words: &str,
        image: &[u8],
        script: &[u8],
        fault: Fault,
    ) -> Result<Told, Trouble> {
        let mut folder = MemFolder::new(self.alloc);
        self.give_over(words, image, script, &mut folder, fault)
    }

    /// What a run of a script does on an image, where that is to fail.
    pub fn run(&self, image: &[u8], script: &[u8], fault: Fault) -> Result<Told, Trouble> {
        self.give(&self.words("run")?, image, script, fault)
    }

    /// What a check does on an image, where that is to fail.
    pub fn check(&self, image: &[u8], fault: Fault) -> Result<Told, Trouble> {
        self.give(&self.words("check")?, image, b"", fault)
    }
}
