//! A tree shown as one flat folder.
ghost use Rattle.std.specs.Prelude.{string_bytes, IfOk};
ghost use Rattle.host_tree.specs.Below.{IsBelow};

use crate::known::{Known, has_control};
use crate::listing::{Listed, below_top, list};
use crate::making::{make_folders, want_folders};
use host_edge::{not_made, want_same};
use std::alloc::{AllocError, Allocator, Global};
use std::cell::RefCell;
use std::fs::{Files, Metadata, OpenFile, OpenOptions};
use std::io;
use std::io::{Error, ErrorKind, Read};
use tree_paths::{decoded, path_of, push_spelled};

/// The files of a tree of folders of the host, as a host that has one folder: the folder `top`. Its entries are the spelled names that the
/// tree's plain files have on a volume. A file that is made there is put where `tree_paths::path_of` says, aside if its name clashes
/// with that of another, and folders are made on the way. Only reading a folder, opening a file and telling of it are done.
#[derive(Drop)]
pub struct TreeFiles<R: Files + Drop> {
    rt: R,
    alloc: Global,
    top: String,
    makes: bool,
    // Whether names with control characters are names of files there too.
    is_raw: bool,
    listed: RefCell<Listed>,
    // The paths of files that were put aside since their names hold control characters.
    unwanted: RefCell<Vec<String>>,
    // The path of which the host was asked last.
    asked: RefCell<String>,
}

/// The names of a folder, each ended by a zero byte.
#[derive(Drop)]
pub struct Names {
    left: Vec<String>,
}

// Why the list of files can't be had, which never happens: no call is made from within another.
fn is_lent() -> Error {
    Error::from(ErrorKind::ResourceBusy)
}

fn unsupported() -> Error {
    Error::from(ErrorKind::Unsupported)
}

// The last part of a path.
fn last_part(path: &str) -> &str {
    match path.rsplit_once('/') {
        Some((_, name)) => name,
        None => path,
    }
}

// The path of a file that is made below a folder, aside or not.
fn new_path_in(alloc: Global, top: &str, name: &[u8], is_aside: bool) -> Result<String, AllocError>
    ensures { IfOk result (λ path. IsBelow top.now (string_bytes path)) }
{
    let path = path_of(alloc, name, is_aside)?;
    below_top(alloc, top, path.as_str())
}

impl Read for Names {
    fn read(&mut self, into: &mut [u8]) -> io::Result<usize> {
        let Some(name) = self.left.pop() else {
            return Ok(0);
        };
        let bytes = name.as_bytes();
        if bytes.len() >= into.len() {
            return Err(Error::from(ErrorKind::InvalidFilename));
        }
        let end = bytes.len();
        into[..end].copy_from_slice(bytes);
        into[end] = 0;
        Ok(end + 1)
    }
}

impl<R: Files + Drop> TreeFiles<R> {
    ghost use Rattle.std.specs.Prelude.{string_bytes, IfOk};
    ghost use Rattle.host_tree.specs.Below.{IsBelow};

    /// The tree below a folder. Nothing is read yet. Where `makes` is set, a folder that isn't there counts as an empty one, and is made with
    /// the first file.
    pub fn new(rt: R, alloc: Global, top: &str, makes: bool) -> Result<TreeFiles<R>, AllocError> {
        Ok(TreeFiles {
            rt,
            alloc,
            top: String::from_str(alloc, top)?,
            makes,
            is_raw: false,
            listed: RefCell::new(Listed::none(alloc)),
            unwanted: RefCell::new(Vec::new(alloc)),
            asked: RefCell::new(String::from_str(alloc, top)?),
        })
    }

    /// From now on a name with control characters may be a path of the tree; else the file of such a name is put aside.
    pub fn take_raw_names(&mut self) {
        self.is_raw = true;
    }

    /// The path that the host opens of the file with such an entry, if there is one.
    pub fn host_path(&self, entry: &str) -> io::Result<String> {
        let name = decoded(self.alloc, last_part(entry).as_bytes())?;
        let Ok(listed) = self.listed.try_borrow() else {
            return Err(is_lent());
        };
        match listed.files.path_of(name.as_slice()) {
            Some(path) => Ok(String::from_str(self.alloc, path)?),
            None => Err(Error::from(ErrorKind::NotFound)),
        }
    }

    /// The path of what was passed over, by its number in the order in which the host told it.
    pub fn passed_over(&self, number: usize) -> io::Result<Option<String>> {
        let Ok(listed) = self.listed.try_borrow() else {
            return Err(is_lent());
        };
        match listed.passed_over.get(number) {
            Some(passed) => Ok(Some(String::from_str(self.alloc, passed.path.as_str())?)),
            None => Ok(None),
        }
    }

    /// The path of a file that was put aside since its name holds control characters, by its number in the order in which they were made.
    pub fn unwanted(&self, number: usize) -> io::Result<Option<String>> {
        let Ok(unwanted) = self.unwanted.try_borrow() else {
            return Err(is_lent());
        };
        match unwanted.get(number) {
            Some(path) => Ok(Some(String::from_str(self.alloc, path.as_str())?)),
            None => Ok(None),
        }
    }

    /// The path of which the host was asked last: a folder that was read, or a file that was opened, made or told of. Where that failed, it is
    /// the path on which it did; of a file that was to be made it is the file's, also where a folder on the way failed.
    pub fn asked_path(&self) -> io::Result<String> {
        let Ok(asked) = self.asked.try_borrow() else {
            return Err(is_lent());
        };
        Ok(String::from_str(self.alloc, asked.as_str())?)
    }

    // Notes a path of which the host is asked.
    fn ask(&self, path: &str) -> io::Result<()> {
        let path = String::from_str(self.alloc, path)?;
        let Ok(mut asked) = self.asked.try_borrow_mut() else {
            return Err(is_lent());
        };
        *asked = path;
        Ok(())
    }

    // Lists the tree.
    fn list_anew(&self) -> io::Result<()> {
        let mut asked = String::new(self.alloc);
        let found = list(&self.rt, self.alloc, self.top.as_str(), &mut asked);
        self.ask(asked.as_str())?;
        let listed = match found {
            Err(why) if self.makes && why.kind() == ErrorKind::NotFound => Listed::none(self.alloc),
            other => other?,
        };
        let Ok(mut known) = self.listed.try_borrow_mut() else {
            return Err(is_lent());
        };
        *known = listed;
        Ok(())
    }

    // The entries of all files, spelled.
    fn entries(&self) -> io::Result<Vec<String>> {
        let Ok(listed) = self.listed.try_borrow() else {
            return Err(is_lent());
        };
        let mut entries = Vec::new(self.alloc);
        for file in listed.files.all() {
            let mut entry = String::new(self.alloc);
            push_spelled(&mut entry, file.name.as_slice())?;
            entries.push(entry)?;
        }
        Ok(entries)
    }

    // Whether a name is put aside since its path in the tree would hold control characters.
    fn is_unwanted(&self, name: &[u8]) -> Result<bool, AllocError> {
        if self.is_raw {
            return Ok(false);
        }
        Ok(has_control(path_of(self.alloc, name, false)?.as_str()))
    }

    // The path of a file that is made with that name. It goes on behind the top by parts that lead down alone.
    fn new_path(&self, name: &[u8]) -> io::Result<String>
        ensures { IfOk result (λ path. IsBelow (string_bytes self.now.top) (string_bytes path)) }
    {
        let Ok(listed) = self.listed.try_borrow() else {
            return Err(is_lent());
        };
        let is_aside = self.is_unwanted(name)? || listed.files.clash_with(name)?;
        Ok(new_path_in(self.alloc, self.top.as_str(), name, is_aside)?)
    }

    // Notes a file that was made, if its name holds control characters.
    fn note_unwanted(&self, name: &[u8], path: &str) -> io::Result<()> {
        if !self.is_unwanted(name)? {
            return Ok(());
        }
        let path = String::from_str(self.alloc, path)?;
        let Ok(mut unwanted) = self.unwanted.try_borrow_mut() else {
            return Err(is_lent());
        };
        unwanted.push(path)?;
        Ok(())
    }

    // Notes a file that was made.
    fn know(&self, name: Vec<u8>, path: String) -> io::Result<()> {
        let Ok(mut listed) = self.listed.try_borrow_mut() else {
            return Err(is_lent());
        };
        listed.files.add(Known { name, path })?;
        Ok(())
    }

    // Makes a file at a path, and folders on the way. Each has to be a folder still once the file is there.
    fn make_at(&self, how: &OpenOptions, path: &str) -> io::Result<R::File> {
        make_folders(&self.rt, self.top.as_str(), path)?;
        let file = match self.rt.open_file(how, path) {
            Ok(file) => file,
            Err(why) => return Err(not_made(&self.rt, path, why)),
        };
        want_folders(&self.rt, self.top.as_str(), path)?;
        want_same(&self.rt, path, &file.metadata()?)?;
        Ok(file)
    }

    // Makes the file of an entry.
    fn make(&self, how: &OpenOptions, entry: &str) -> io::Result<R::File> {
        let name = decoded(self.alloc, last_part(entry).as_bytes())?;
        let path = self.new_path(name.as_slice())?;
        self.ask(path.as_str())?;
        let file = self.make_at(how, path.as_str())?;
        self.note_unwanted(name.as_slice(), path.as_str())?;
        self.know(name, path)?;
        Ok(file)
    }

    // Opens the file of an entry that is there. Each folder on the way has to be one before and after. What was opened, whoever opens it looks at.
    fn open_known(&self, how: &OpenOptions, entry: &str) -> io::Result<R::File> {
        let path = self.host_path(entry)?;
        self.ask(path.as_str())?;
        want_folders(&self.rt, self.top.as_str(), path.as_str())?;
        let file = self.rt.open_file(how, path.as_str())?;
        want_folders(&self.rt, self.top.as_str(), path.as_str())?;
        Ok(file)
    }
}

impl<R: Files + Drop> Files for TreeFiles<R> {
    type File = R::File;

    type Dir = Names;

    // Of the path only the last part counts: an entry, as `open_dir` lists it. A new file's path on the host is made from it. That of a file
    // which is there is known since the folder was listed, or since the file was made here.
    fn open_file(&self, how: &OpenOptions, path: &str) -> io::Result<R::File> {
        if how.asks_create_new() {
            self.make(how, path)
        } else {
            self.open_known(how, path)
        }
    }

    fn open_dir(&self, _path: &str) -> io::Result<Names> {
        self.list_anew()?;
        Ok(Names {
            left: self.entries()?,
        })
    }

    fn metadata(&self, path: &str) -> io::Result<Metadata> {
        self.symlink_metadata(path)
    }

    fn symlink_metadata(&self, path: &str) -> io::Result<Metadata> {
        let path = self.host_path(path)?;
        self.ask(path.as_str())?;
        self.rt.symlink_metadata(path.as_str())
    }

    fn copy(&self, _from: &str, _to: &str) -> io::Result<u64> {
        Err(unsupported())
    }

    fn rename(&self, _from: &str, _to: &str) -> io::Result<()> {
        Err(unsupported())
    }

    fn remove_file(&self, _path: &str) -> io::Result<()> {
        Err(unsupported())
    }

    fn create_dir(&self, _path: &str) -> io::Result<()> {
        Err(unsupported())
    }

    fn remove_dir(&self, _path: &str) -> io::Result<()> {
        Err(unsupported())
    }

    fn remove_dir_all<B: Allocator>(&self, _alloc: B, _path: &str) -> io::Result<()> {
        Err(unsupported())
    }
}
