//! The plain files of a tree, found by their names.
use std::alloc::{AllocError, Global};
use tree_paths::is_clash;

/// A plain file of a tree.
#[derive(Drop)]
pub struct Known {
    /// Its name on a volume.
    pub name: Vec<u8>,
    /// Its path, which the host opens.
    pub path: String,
}

/// Plain files of a tree. Each is found by halving the names, which are kept in the order of their bytes.
#[derive(Drop)]
pub struct KnownFiles {
    alloc: Global,
    // In the order of their names as far as the tree was listed; behind these in that in which they were made.
    files: Vec<Known>,
    // Their numbers, in the order of their names.
    order: Vec<usize>,
}

impl KnownFiles {
    /// None.
    pub fn none(alloc: Global) -> KnownFiles {
        KnownFiles {
            alloc,
            files: Vec::new(alloc),
            order: Vec::new(alloc),
        }
    }

    /// All of them.
    pub fn all(&self) -> &[Known] {
        self.files.as_slice()
    }

    /// Adds a file. It isn't found before the files are put in order.
    pub(crate) fn list(&mut self, file: Known) -> Result<(), AllocError> {
        self.files.push(file)?;
        Ok(())
    }

    /// Puts the files in the order of their names; of one name those of lower paths come first.
    pub(crate) fn put_in_order(&mut self) -> Result<(), AllocError> {
        self.files
            .sort_unstable_by(|a, b| a.name.cmp(&b.name).then(a.path.cmp(&b.path)));
        let mut order = Vec::new(self.alloc);
        for number in 0..self.files.len() {
            order.push(number)?;
        }
        self.order = order;
        Ok(())
    }

    // The file at a place of the order.
    fn at(&self, place: usize) -> Option<&Known> {
        self.files.get(*self.order.get(place)?)
    }

    // Whether the name at a place of the order comes before that one.
    fn is_before(&self, place: usize, name: &[u8]) -> bool {
        match self.at(place) {
            Some(file) => file.name.as_slice() < name,
            None => false,
        }
    }

    // The place in the order at which a name stands, or would stand.
    fn place_of(&self, name: &[u8]) -> usize {
        let mut low = 0;
        let mut high = self.order.len();
        while low < high {
            let middle = low + (high - low) / 2;
            if self.is_before(middle, name) {
                low = middle + 1;
            } else {
                high = middle;
            }
        }
        low
    }

    /// The path of the file with that name, if it is known.
    pub(crate) fn path_of(&self, name: &[u8]) -> Option<&str> {
        let file = self.at(self.place_of(name))?;
        if file.name.as_slice() == name {
            Some(file.path.as_str())
        } else {
            None
        }
    }

    /// Adds a file that was made, at its place.
    pub(crate) fn add(&mut self, file: Known) -> Result<(), AllocError> {
        let place = self.place_of(file.name.as_slice()).min(self.order.len());
        self.order.reserve(1)?;
        let number = self.files.len();
        self.files.push(file)?;
        self.order.insert(place, number)?;
        Ok(())
    }

    // Whether the path of a name would be a folder on that of another file: those that go on with a slash behind it are neighbours.
    fn is_folder(&self, name: &[u8]) -> Result<bool, AllocError> {
        let mut folder = name.to_vec(self.alloc)?;
        folder.push(b'/')?;
        match self.at(self.place_of(folder.as_slice())) {
            Some(file) => Ok(is_clash(name, file.name.as_slice())),
            None => Ok(false),
        }
    }

    // Whether the path of another file would be a folder on that of a name.
    fn is_below(&self, name: &[u8]) -> bool {
        for (end, byte) in name.iter().enumerate() {
            if *byte == b'/' && self.path_of(&name[..end]).is_some() {
                return true;
            }
        }
        false
    }

    /// Whether a name can't be put into the tree beside the files that are there.
    pub(crate) fn clash_with(&self, name: &[u8]) -> Result<bool, AllocError> {
        Ok(self.is_below(name) || self.is_folder(name)?)
    }
}

/// Whether a path has a control character, which nobody wants in the name of a file: a terminal may take it for a command.
pub(crate) fn has_control(path: &str) -> bool {
    path.chars().any(|letter| letter.is_control())
}
