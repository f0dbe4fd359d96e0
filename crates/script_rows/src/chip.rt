//! The chip and the folder of a case, and the lines that make them.
use crate::words::{byte_of, number, word};
use folder_core::{Folder, MemFolder};
use geometry::{Geometry, MagicKind};
use script_bench::{
    Bench, Copying, Ends, Maker, Place, RowFile, Trouble, clear_counts, letters, put, put_header,
    put_page, put_row, put_whole,
};
use std::alloc::Global;

/// The greatest number of bytes of a chip.
const MOST_BYTES: u64 = 0x100_0000;

/// The other chip of a case, while lines work on the first: its volume, its bytes, and where the next file made by hand goes.
#[derive(Drop)]
struct Other {
    bench: Bench,
    image: Vec<u8>,
    ends: Ends,
    id: u16,
}

/// The chip of a case and the volume on it, the folder beside it, and the other chip, onto which copies go.
#[derive(Drop)]
pub struct Chip {
    alloc: Global,
    bench: Option<Bench>,
    /// The bytes that stand on it.
    pub image: Vec<u8>,
    /// The folder.
    pub folder: MemFolder,
    // How many files were put into it.
    puts: usize,
    // The bytes that stood on it before the first command.
    first: Option<Vec<u8>>,
    // Where the next file made by hand goes, and its id.
    ends: Ends,
    id: u16,
    other: Option<Other>,
}

// A number that counts bytes or entries.
fn count(words: &[&str], at: usize) -> Result<usize, Trouble> {
    Ok(number(words, at, MOST_BYTES)? as usize)
}

// A place: a block and one of its entries.
fn place(words: &[&str], at: usize) -> Result<Place, Trouble> {
    Ok(Place {
        block: number(words, at, 0xFFFF)? as usize,
        entry: number(words, at.saturating_add(1), 0xFFFF)? as usize,
    })
}

// A number of 16 bits.
fn short(words: &[&str], at: usize) -> Result<u16, Trouble> {
    u16::try_from(number(words, at, 0xFFFF)?).map_err(|_| Trouble::Line)
}

// A number of 32 bits.
fn long(words: &[&str], at: usize) -> Result<u32, Trouble> {
    u32::try_from(number(words, at, 0xFFFF_FFFF)?).map_err(|_| Trouble::Line)
}

// The geometry that the words of a command line spell.
fn geometry_of(words: &[&str]) -> Result<Geometry, Trouble> {
    let magic = match word(words, 5)? {
        "len" => MagicKind::Length,
        "plain" => MagicKind::Plain,
        _ => return Err(Trouble::Line),
    };
    let block = long(words, 2)?;
    Ok(Geometry::new(
        long(words, 1)?,
        block,
        long(words, 3)?,
        block,
        long(words, 4)?,
        magic,
    )?)
}

impl Chip {
    /// No chip yet.
    pub fn new(alloc: Global) -> Chip {
        Chip {
            alloc,
            bench: None,
            image: Vec::new(alloc),
            folder: MemFolder::new(alloc),
            puts: 0,
            first: None,
            ends: Ends::new(1),
            id: 1,
            other: None,
        }
    }

    /// The volume.
    pub fn bench(&self) -> Result<Bench, Trouble> {
        self.bench.ok_or(Trouble::Line)
    }

    // Makes an empty volume.
    fn volume(&mut self, words: &[&str]) -> Result<(), Trouble> {
        let g = geometry_of(words)?;
        if u64::from(g.blocks) * u64::from(g.block) > MOST_BYTES {
            return Err(Trouble::Device);
        }
        let bench = Bench::new(self.alloc, g);
        self.image = bench.formatted()?;
        self.bench = Some(bench);
        self.first = None;
        self.ends = Ends::new(1);
        self.id = 1;
        Ok(())
    }

    // Makes an empty volume on the other chip.
    fn volume_beside(&mut self, words: &[&str]) -> Result<(), Trouble> {
        let bench = Bench::new(self.alloc, geometry_of(words)?);
        if u64::from(bench.g.blocks) * u64::from(bench.g.block) > MOST_BYTES {
            return Err(Trouble::Device);
        }
        self.other = Some(Other {
            bench,
            image: bench.formatted()?,
            ends: Ends::new(1),
            id: 1,
        });
        Ok(())
    }

    // Exchanges the two chips.
    fn swap(&mut self) -> Result<(), Trouble> {
        let bench = self.bench()?;
        let other = self.other.take().ok_or(Trouble::Line)?;
        self.other = Some(Other {
            bench,
            image: self.image.to_vec(self.alloc)?,
            ends: self.ends,
            id: self.id,
        });
        self.bench = Some(other.bench);
        self.image = other.image;
        self.ends = other.ends;
        self.id = other.id;
        self.first = None;
        Ok(())
    }

    /// A copy of this chip's volume onto the other one's.
    pub fn copying(&self) -> Result<Copying<'_>, Trouble> {
        let other = self.other.as_ref().ok_or(Trouble::Line)?;
        Ok(Copying {
            source: self.bench()?,
            source_image: &self.image,
            target: other.bench,
            target_image: &other.image,
        })
    }

    /// Puts other bytes onto the other chip.
    pub fn put_other(&mut self, image: Vec<u8>) {
        if let Some(other) = &mut self.other {
            other.image = image;
        }
    }

    // Makes the chip one of so many bytes, in units of so many: those behind the volume are erased.
    fn grow(&mut self, words: &[&str]) -> Result<(), Trouble> {
        let mut bench = self.bench()?;
        bench.unit = long(words, 1)?;
        self.bench = Some(bench);
        let size = count(words, 2)?;
        let more = size.saturating_sub(self.image.len());
        self.image
            .extend_from_slice(&vec![in self.alloc; 0xFFu8; more]?)?;
        Ok(())
    }

    // Says how much memory commands are lent: pairs of a part and a number.
    fn lend(&mut self, words: &[&str]) -> Result<(), Trouble> {
        let mut bench = self.bench()?;
        for pair in 0..words.len() / 2 {
            let given = count(words, pair.saturating_mul(2).saturating_add(2))?;
            match word(words, pair.saturating_mul(2).saturating_add(1))? {
                "work" => bench.lends.work = given,
                "slots" => bench.lends.slots = given.min(0xFFFF),
                "cache" => bench.lends.cache = given,
                "check" => bench.lends.check = given,
                "window" => bench.lends.window = given,
                "line" => bench.lends.line = given,
                _ => return Err(Trouble::Line),
            }
        }
        self.bench = Some(bench);
        Ok(())
    }

    // Puts a file of so many letters: its index pages behind each other, its data pages too.
    fn file(&mut self, words: &[&str]) -> Result<(), Trouble> {
        let g = self.bench()?.g;
        let bytes = letters(self.alloc, usize::from(self.id), short(words, 2)?.into())?;
        let name = word(words, 1)?.as_bytes();
        put_whole(&mut self.image, &g, &mut self.ends, self.id, name, &bytes);
        self.id = self.id.saturating_add(1);
        Ok(())
    }

    // Puts a file of so many letters in a row, as another maker's program does, from the place of the next index page on.
    fn row(&mut self, maker: Maker, name: &[u8], size: u16) -> Result<(), Trouble> {
        let g = self.bench()?.g;
        let bytes = letters(self.alloc, usize::from(self.id), size.into())?;
        let file = RowFile {
            id: self.id,
            name,
            bytes: &bytes,
        };
        let first = self.ends.index;
        self.ends.index = put_row(self.alloc, &mut self.image, &g, maker, first, file)?;
        self.id = self.id.saturating_add(1);
        Ok(())
    }

    // Puts one such file, or so many with a number behind the name.
    fn rows(&mut self, maker: Maker, words: &[&str]) -> Result<(), Trouble> {
        let (name, size) = (word(words, 1)?, short(words, 2)?);
        if words.len() < 4 {
            return self.row(maker, name.as_bytes(), size);
        }
        for n in 0..count(words, 3)? {
            let name = format!(in self.alloc; "{name}{n}")?;
            self.row(maker, name.as_bytes(), size)?;
        }
        Ok(())
    }

    // Puts files as an image tool does, which never erases.
    fn foreign(&mut self, words: &[&str]) -> Result<(), Trouble> {
        let g = self.bench()?.g;
        clear_counts(&mut self.image, &g);
        self.rows(Maker::Tool, words)
    }

    // Puts a file of so many letters into the folder.
    fn add(&mut self, words: &[&str]) -> Result<(), Trouble> {
        self.puts = self.puts.saturating_add(1);
        let bytes = letters(self.alloc, self.puts, short(words, 2)?.into())?;
        self.folder.put(word(words, 1)?.as_bytes(), true, &bytes)?;
        Ok(())
    }

    // Puts a header page at a place: of an id, with a size and a name.
    fn header(&mut self, words: &[&str]) -> Result<(), Trouble> {
        let g = self.bench()?.g;
        let name = word(words, 5)?.as_bytes();
        let (id, size) = (short(words, 3)?, long(words, 4)?);
        put_header(&mut self.image, &g, place(words, 1)?, id, size, name);
        Ok(())
    }

    // Puts a page at a place: its id, its span and its flags.
    fn page(&mut self, words: &[&str]) -> Result<(), Trouble> {
        let g = self.bench()?.g;
        let (id, span) = (short(words, 3)?, short(words, 4)?);
        let flags = byte_of(word(words, 5)?)?;
        put_page(&mut self.image, &g, place(words, 1)?, id, span, flags);
        Ok(())
    }

    // Makes entries of a block, from one to before another, deleted pages with these flags.
    fn deleted(&mut self, words: &[&str]) -> Result<(), Trouble> {
        let g = self.bench()?.g;
        let first = place(words, 1)?;
        let flags = byte_of(word(words, 4)?)?;
        for entry in first.entry..count(words, 3)? {
            put_page(&mut self.image, &g, Place { entry, ..first }, 0, 0, flags);
        }
        Ok(())
    }

    // Puts bytes at a place of the image.
    fn put(&mut self, words: &[&str]) -> Result<(), Trouble> {
        let mut at = count(words, 1)?;
        for text in words.iter().skip(2) {
            put(&mut self.image, at, &[byte_of(text)?]);
            at = at.saturating_add(1);
        }
        Ok(())
    }

    // Puts so many bytes of one value at a place of the image.
    fn fill(&mut self, words: &[&str]) -> Result<(), Trouble> {
        let bytes = vec![in self.alloc; byte_of(word(words, 3)?)?; count(words, 2)?]?;
        put(&mut self.image, count(words, 1)?, &bytes);
        Ok(())
    }

    // Puts back what stood on the chip before the first command.
    fn back(&mut self) -> Result<(), Trouble> {
        if let Some(first) = &self.first {
            self.image = first.to_vec(self.alloc)?;
        }
        Ok(())
    }

    /// Notes what stands on the chip, where no command was given yet.
    pub fn begin(&mut self) -> Result<(), Trouble> {
        if self.first.is_none() {
            self.first = Some(self.image.to_vec(self.alloc)?);
        }
        Ok(())
    }

    /// Does what a line of these words says of the image or of the folder, and answers whether it says something of that.
    pub fn make(&mut self, words: &[&str]) -> Result<bool, Trouble> {
        match word(words, 0)? {
            "volume" => self.volume(words)?,
            "other" => self.volume_beside(words)?,
            "swap" => self.swap()?,
            "chip" => self.grow(words)?,
            "lend" => self.lend(words)?,
            "erased" => self.image.fill(0xFF),
            "data" => self.ends.data = place(words, 1)?,
            "index" => self.ends.index = place(words, 1)?,
            "file" => self.file(words)?,
            "foreign" => self.foreign(words)?,
            "renewed" => self.rows(Maker::Driver, words)?,
            "add" => self.add(words)?,
            "header" => self.header(words)?,
            "page" => self.page(words)?,
            "deleted" => self.deleted(words)?,
            "put" => self.put(words)?,
            "fill" => self.fill(words)?,
            "back" => self.back()?,
            _ => return Ok(false),
        }
        Ok(true)
    }
}
