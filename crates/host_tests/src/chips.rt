//! Chip files that are held, and files that are replaced.
use chip_row::Chip;
use host_edge::{Access, FileChip, HeldFile, Shown, replace_file};
use std::alloc::AllocError;
use std::fs::OpenOptions;
use std::os::unix::fs::PermissionsExt;
use std::test::Fail;
use std::{fs, process};

// A path that only this process uses, which ends in these words.
fn path_for(rt: &HostRuntime, words: &str) -> Result<String, AllocError> {
    format!(in rt.alloc(); "/tmp/liverymenhir-{}.{words}", process::id(rt.process()))
}

// Cuts a file off behind so many bytes.
fn cut(rt: &HostRuntime, path: &str, length: u64) -> Result<(), Fail> {
    let file = OpenOptions::new().write(true).open(rt, path)?;
    file.set_len(length)?;
    Ok(())
}

#[test]
fn a_file_that_is_held_is_busy(rt: HostRuntime) -> Result<(), Fail> {
    let path = path_for(&rt, "held")?;
    let path = path.as_str();
    fs::write(&rt, path, "abcd")?;
    let held = HeldFile::open(&rt, path, Access::Write)?;
    assert!(rt; held.length() == 4 && !held.is_device());
    for access in [Access::Read, Access::Write] {
        let other = FileChip::new(&rt, path, access, 4, 4);
        assert!(rt; other.trouble().is_some_and(|why| why.is_busy()));
    }
    let mut chip = held.chip(8, 4);
    assert!(rt; chip.size() == 8);
    let mut bytes = [0u8; 6];
    chip.read(2, &mut bytes).ok().ok_or("read")?;
    assert!(rt; bytes.as_slice() == b"cd\xFF\xFF\xFF\xFF".as_slice());
    held.read_at(1, &mut bytes[..2])?;
    assert!(rt; &bytes[..2] == b"bc".as_slice());
    drop(chip);
    drop(held);
    let first = HeldFile::open(&rt, path, Access::Read)?;
    let second = HeldFile::open(&rt, path, Access::Read)?;
    assert!(rt; first.is_same(&second.metadata()?));
    fs::remove_file(&rt, path)?;
    Ok(())
}

#[test]
fn what_a_file_has_lost_is_a_fault(rt: HostRuntime) -> Result<(), Fail> {
    let path = path_for(&rt, "lost")?;
    let path = path.as_str();
    fs::write(&rt, path, "abcdefgh")?;
    let mut chip = FileChip::new(&rt, path, Access::Write, 8, 4);
    assert!(rt; (chip.size(), chip.last()) == (8, 0));
    assert!(rt; chip.finish().is_ok());
    cut(&rt, path, 5)?;
    assert!(rt; chip.finish().is_err());
    let mut bytes = [0u8; 8];
    assert!(rt; chip.read(0, &mut bytes).is_err());
    assert!(rt; chip.program(1, 6, &[0]).is_err());
    assert!(rt; fs::read_to_string(&rt, path)?.as_str() == "abcde");
    fs::remove_file(&rt, path)?;
    Ok(())
}

#[test]
fn a_folder_is_no_chip(rt: HostRuntime) -> Result<(), Fail> {
    let chip = FileChip::new(&rt, "/tmp", Access::Read, 8, 4);
    let why = chip.trouble().ok_or("no trouble")?.to_string(rt.alloc())?;
    assert!(rt; why.as_str() == "is a folder, and no chip: give a plain file or a block device");
    Ok(())
}

#[test]
fn a_file_is_replaced_with_its_mode(rt: HostRuntime) -> Result<(), Fail> {
    let path = path_for(&rt, "replaced")?;
    let path = path.as_str();
    replace_file(&rt, rt.alloc(), path, None, b"first")?;
    let mut mode = fs::metadata(&rt, path)?.permissions();
    mode.set_mode(0o640);
    let file = fs::open(&rt, path)?;
    file.set_permissions(mode)?;
    let held = HeldFile::open(&rt, path, Access::Write)?;
    replace_file(&rt, rt.alloc(), path, Some(&held), b"second")?;
    assert!(rt; fs::read_to_string(&rt, path)?.as_str() == "second");
    let told = fs::metadata(&rt, path)?;
    assert!(rt; told.permissions().mode() & 0o777 == 0o640 && !held.is_same(&told));
    // (the file that is held has gone)
    assert!(rt; replace_file(&rt, rt.alloc(), path, Some(&held), b"third").is_err());
    assert!(rt; fs::read_to_string(&rt, path)?.as_str() == "second");
    fs::remove_file(&rt, path)?;
    Ok(())
}

#[test]
fn what_is_shown_has_no_control_character(rt: HostRuntime) -> Result<(), Fail> {
    for (given, shown) in [
        ("a/b é", "a/b é"),
        ("a\n\u{1b}[1m\u{7f}\u{9b}", "a%0A%1B[1m%7F%C2%9B"),
        ("", ""),
    ] {
        let made = format!(in rt.alloc(); "{}", Shown(given))?;
        assert!(rt; made.as_str() == shown);
    }
    Ok(())
}
