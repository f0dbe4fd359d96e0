//! Chips, folders and streams of the host.
ghost use Rattle.std.specs.Prelude.{◌<◌, ◌≤◌};

use chip_row::{Chip, ChipRow};
use folder_core::Folder;
use host_edge::{
    Access, Bounds, FileChip, FileId, SizeLimit, StdBoard, StdFolder, StdSource, Trouble,
};
use nor_core::{Board, Nor, Source};
use std::alloc::{AllocError, Global};
use std::io::{Cursor, Error};
use std::test::Fail;
use std::{fs, process};

// A path that only this process uses, which ends in these words.
fn path_for(rt: &HostRuntime, words: &str) -> Result<String, AllocError> {
    format!(in rt.alloc(); "/tmp/liverymenhir-{}.{words}", process::id(rt.process()))
}

// A chip of 8192 bytes in units of 4096 that stands in a file.
fn chip_at(rt: &HostRuntime, path: &str, access: Access) -> FileChip {
    FileChip::new(rt, path, access, 8192, 4096)
}

// A row of these chips.
fn row_of(alloc: Global, chips: [FileChip; 2]) -> Result<ChipRow<FileChip>, Fail> {
    let chips = Vec::from_array(alloc, chips)?;
    Ok(ChipRow::new(chips, 8192, 4096).ok().ok_or("row")?)
}

#[test]
fn a_chip_file_is_programmed_and_erased(rt: HostRuntime) -> Result<(), Fail> {
    let path = path_for(&rt, "chip")?;
    let mut chip = chip_at(&rt, path.as_str(), Access::Create);
    assert!(rt; (chip.size(), chip.unit(), chip.last()) == (8192, 4096, 0));
    chip.program(1, 4095, &[0xF0, 0x3C]).ok().ok_or("program")?;
    assert!(rt; chip.last() == 1);
    chip.program(2, 4095, &[0x1F]).ok().ok_or("program again")?;
    let mut bytes = [0u8; 4];
    chip.read(4094, &mut bytes).ok().ok_or("read")?;
    assert!(rt; bytes.as_slice() == [0xFF, 0x10, 0x3C, 0xFF].as_slice());
    chip.erase(3, 0, None).ok().ok_or("erase")?;
    chip.read(4094, &mut bytes).ok().ok_or("read again")?;
    assert!(rt; bytes.as_slice() == [0xFF, 0xFF, 0x3C, 0xFF].as_slice());
    fs::remove_file(&rt, path.as_str())?;
    Ok(())
}

#[test]
fn a_chip_that_is_opened_for_reading_is_read_alone(rt: HostRuntime) -> Result<(), Fail> {
    let path = path_for(&rt, "read")?;
    let path = path.as_str();
    fs::write(&rt, path, "abcd")?;
    let mut chip = chip_at(&rt, path, Access::Read);
    assert!(rt; (chip.size(), chip.last()) == (8192, 0));
    let mut bytes = [0u8; 2];
    chip.read(1, &mut bytes).ok().ok_or("read")?;
    assert!(rt; bytes.as_slice() == b"bc".as_slice());
    assert!(rt; chip.trouble().is_none());
    assert!(rt; chip.program(1, 0, &[0]).is_err());
    let told = chip.trouble().ok_or("no trouble")?.to_string(rt.alloc())?;
    assert!(rt; told.starts_with("the chip file can't be written: "));
    assert!(rt; fs::read_to_string(&rt, path)?.as_str() == "abcd");
    fs::remove_file(&rt, path)?;
    Ok(())
}

#[test]
fn a_program_goes_from_file_to_file(rt: HostRuntime) -> Result<(), Fail> {
    let first = path_for(&rt, "first")?;
    let second = path_for(&rt, "second")?;
    let chips = [
        chip_at(&rt, first.as_str(), Access::Create),
        chip_at(&rt, second.as_str(), Access::Create),
    ];
    let mut board = StdBoard::new(row_of(rt.alloc(), chips)?, Vec::new(rt.alloc()));
    assert!(rt; (board.size(), board.unit()) == (16384, 4096));
    board.program(8190, b"abcd").ok().ok_or("program")?;
    let mut bytes = [0u8; 6];
    board.read(8189, &mut bytes).ok().ok_or("read")?;
    assert!(rt; bytes.as_slice() == b"\xffabcd\xff".as_slice());
    board.erase(2, None).ok().ok_or("erase")?;
    board.read(8189, &mut bytes).ok().ok_or("read again")?;
    assert!(rt; bytes.as_slice() == b"\xffab\xff\xff\xff".as_slice());
    assert!(rt; board.trouble().is_none());
    assert!(rt; fs::read(&rt, second.as_str())?.len() == 4096);
    fs::remove_file(&rt, first.as_str())?;
    fs::remove_file(&rt, second.as_str())?;
    Ok(())
}

#[test]
fn a_board_names_the_chip_without_a_file(rt: HostRuntime) -> Result<(), Fail> {
    let path = path_for(&rt, "alone")?;
    let chips = [
        chip_at(&rt, path.as_str(), Access::Create),
        chip_at(&rt, "/tmp/liverymenhir_no_such_file", Access::Write),
    ];
    let mut board = StdBoard::new(row_of(rt.alloc(), chips)?, Vec::new(rt.alloc()));
    assert!(rt; (board.size(), board.unit()) == (16384, 4096));
    let mut bytes = [0u8; 4];
    assert!(rt; board.read(0, &mut bytes).is_ok());
    assert!(rt; board.failed_chip() == None);
    assert!(rt; board.program(8190, b"abcd").is_err());
    assert!(rt; board.failed_chip() == Some(1));
    let told = board.trouble().ok_or("no trouble")?.to_string(rt.alloc())?;
    let wanted = "the chip file can't be opened: No such file or directory (os error 2)";
    assert!(rt; told.as_str() == wanted);
    let mut bytes = [0u8; 2];
    board.read(8190, &mut bytes).ok().ok_or("read")?;
    assert!(rt; bytes.as_slice() == b"ab".as_slice());
    fs::remove_file(&rt, path.as_str())?;
    Ok(())
}

#[test]
fn what_a_board_says_goes_to_its_writer(rt: HostRuntime) -> Result<(), Fail> {
    let missing = "/tmp/liverymenhir_no_such_file";
    let chips = [
        chip_at(&rt, missing, Access::Write),
        chip_at(&rt, missing, Access::Write),
    ];
    let mut board = StdBoard::new(row_of(rt.alloc(), chips)?, Vec::new(rt.alloc()));
    board.say(b"ok\n").ok().ok_or("say")?;
    board.say(b"ok 1\n").ok().ok_or("say again")?;
    let (_, said) = board.give_back();
    assert!(rt; said.as_slice() == b"ok\nok 1\n".as_slice());
    Ok(())
}

#[test]
fn why_output_failed_is_told(rt: HostRuntime) -> Result<(), Fail> {
    let closed = Trouble::of_output(Error::from_raw_os_error(9)).to_string(rt.alloc())?;
    assert!(rt; closed.as_str() == "standard output is closed");
    let full = Trouble::of_output(Error::from_raw_os_error(28)).to_string(rt.alloc())?;
    let wanted = "standard output can't be written: No space left on device (os error 28)";
    assert!(rt; full.as_str() == wanted);
    Ok(())
}

#[test]
fn a_script_is_read_to_its_end(rt: HostRuntime) -> Result<(), Fail> {
    let mut source = StdSource::new(Cursor::new(b"create a\n".as_slice()));
    let mut bytes = [0u8; 16];
    let count = source.read(&mut bytes).ok().ok_or("read")?;
    assert!(rt; bytes.get(..count) == Some(b"create a\n".as_slice()));
    assert!(rt; source.read(&mut bytes).ok() == Some(0));
    Ok(())
}

// Whether file `i` of a folder has this name and these bytes.
fn holds<F: Folder>(folder: &mut F, i: u32, name: &[u8], bytes: &[u8]) -> bool {
    let Ok(count) = folder.count() else {
        return false;
    };
    if i >= count {
        return false;
    }
    let mut told = [0u8; 16];
    let Ok(n) = folder.name(i, &mut told) else {
        return false;
    };
    if told.get(..n) != Some(name) {
        return false;
    }
    let Ok(size) = folder.size(i) else {
        return false;
    };
    if size != bytes.len() as u64 || size > 16 {
        return false;
    }
    let mut whole = [0u8; 16];
    let into = &mut whole[..bytes.len()];
    folder.read(i, 0, into).is_ok() && *into == *bytes
}

// Writes a file of a folder.
fn write_in(rt: &HostRuntime, folder: &str, name: &str, bytes: &str) -> Result<(), Fail> {
    let path = format!(in rt.alloc(); "{folder}/{name}")?;
    fs::write(rt, path.as_str(), bytes)?;
    Ok(())
}

// A file of a folder, read.
fn read_in(rt: &HostRuntime, folder: &str, name: &str) -> Result<String, Fail> {
    let path = format!(in rt.alloc(); "{folder}/{name}")?;
    Ok(fs::read_to_string(rt, path.as_str())?)
}

#[test]
fn a_folder_is_listed_by_what_its_names_stand_for(rt: HostRuntime) -> Result<(), Fail> {
    let path = path_for(&rt, "listed")?;
    let path = path.as_str();
    fs::create_dir(&rt, path)?;
    for (name, bytes) in [
        ("b c", "space"),
        ("%2Findex.html", "slash"),
        (".hidden", "dot"),
        ("caf\u{e9}", "accent"),
        ("%zz%4", "percent"),
        ("%C3%a9", ""),
    ] {
        write_in(&rt, path, name, bytes)?;
    }
    let inner = format!(in rt.alloc(); "{path}/a_folder")?;
    fs::create_dir(&rt, inner.as_str())?;
    let mut folder = StdFolder::new(&rt, rt.alloc(), path)?;
    assert!(rt; folder.count() == Ok(6));
    assert!(rt; holds(&mut folder, 0, b"%zz%4", b"percent"));
    assert!(rt; holds(&mut folder, 1, b".hidden", b"dot"));
    assert!(rt; holds(&mut folder, 2, b"/index.html", b"slash"));
    assert!(rt; holds(&mut folder, 3, b"b c", b"space"));
    assert!(rt; holds(&mut folder, 4, b"caf\xc3\xa9", b"accent"));
    assert!(rt; holds(&mut folder, 5, b"\xc3\xa9", b""));
    assert!(rt; folder.trouble().is_none());
    fs::remove_dir_all(&rt, path)?;
    Ok(())
}

#[test]
fn pieces_are_put_under_the_printed_name(rt: HostRuntime) -> Result<(), Fail> {
    let path = path_for(&rt, "put")?;
    let path = path.as_str();
    fs::create_dir(&rt, path)?;
    write_in(&rt, path, "%61", "first of its name")?;
    let mut folder = StdFolder::new(&rt, rt.alloc(), path)?;
    for (name, front, rest) in [
        (b"a".as_slice(), b"he".as_slice(), b"llo".as_slice()),
        (b"/x y.%", b"sl", b"ash"),
        (b"..", b"do", b"ts"),
        (b"\x80\xff\n", b"by", b"tes"),
    ] {
        folder.put(name, true, b"lost").ok().ok_or("put")?;
        folder.put(name, true, front).ok().ok_or("put again")?;
        folder.put(name, false, rest).ok().ok_or("append")?;
    }
    assert!(rt; folder.count() == Ok(4));
    assert!(rt; holds(&mut folder, 0, b"a", b"hello"));
    assert!(rt; holds(&mut folder, 3, b"\x80\xff\n", b"bytes"));
    for (name, bytes) in [
        ("%61", "hello"),
        ("%2Fx%20y.%25", "slash"),
        ("%2E.", "dots"),
        ("%80%FF%0A", "bytes"),
    ] {
        assert!(rt; read_in(&rt, path, name)?.as_str() == bytes);
    }
    fs::remove_dir_all(&rt, path)?;
    Ok(())
}

#[test]
fn a_put_leaves_what_is_no_plain_file_alone(rt: HostRuntime) -> Result<(), Fail> {
    let path = path_for(&rt, "taken")?;
    let path = path.as_str();
    fs::create_dir(&rt, path)?;
    let inner = format!(in rt.alloc(); "{path}/a")?;
    fs::create_dir(&rt, inner.as_str())?;
    let mut folder = StdFolder::new(&rt, rt.alloc(), path)?;
    assert!(rt; folder.count() == Ok(0));
    assert!(rt; folder.put(b"a", true, b"hello").is_err());
    assert!(rt; folder.count() == Ok(0));
    let told = folder.trouble().ok_or("no trouble")?.to_string(rt.alloc())?;
    let wanted = "a file of the folder can't be written: a folder stands in its place";
    assert!(rt; told.as_str() == wanted);
    fs::remove_dir_all(&rt, path)?;
    Ok(())
}

#[test]
fn a_chip_in_the_folder_is_kept(rt: HostRuntime) -> Result<(), Fail> {
    let path = path_for(&rt, "kept")?;
    let path = path.as_str();
    fs::create_dir(&rt, path)?;
    write_in(&rt, path, "chip", "chip")?;
    let chip = format!(in rt.alloc(); "{path}/chip")?;
    let bounds = Bounds {
        chips: Vec::from_array(rt.alloc(), [FileId::at(&rt, chip.as_str())?])?,
        limit: SizeLimit::none(),
    };
    let mut folder = StdFolder::within(&rt, rt.alloc(), path, bounds)?;
    assert!(rt; folder.put(b"chip", true, b"hello").is_err());
    assert!(rt; folder.failed_path() == chip.as_str());
    let told = folder.trouble().ok_or("no trouble")?.to_string(rt.alloc())?;
    let wanted = "a file of the folder can't be written: it is the chip itself";
    assert!(rt; told.as_str() == wanted);
    assert!(rt; read_in(&rt, path, "chip")?.as_str() == "chip");
    assert!(rt; folder.put(b"other", true, b"hello").is_ok());
    folder.refuse_chips();
    assert!(rt; folder.count().is_err());
    fs::remove_dir_all(&rt, path)?;
    Ok(())
}

#[test]
fn a_folder_that_is_not_there_fails_each_call(rt: HostRuntime) -> Result<(), Fail> {
    let path = "/tmp/liverymenhir_no_such_folder";
    let mut folder = StdFolder::new(&rt, rt.alloc(), path)?;
    assert!(rt; folder.count().is_err());
    assert!(rt; folder.put(b"a", true, b"hello").is_err());
    let told = folder.trouble().ok_or("no trouble")?.to_string(rt.alloc())?;
    let wanted = "the folder can't be listed: No such file or directory (os error 2)";
    assert!(rt; told.as_str() == wanted);
    assert!(rt; StdFolder::unlisted(&rt, rt.alloc()).count().is_err());
    Ok(())
}
