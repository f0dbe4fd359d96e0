//! What `list` and `check` are to say of an image, by the plain programs.
use crate::Trouble;
use geometry::Geometry;
use image_model::Damage;
use plain_collect::parting;
use plain_image::{damaged_of, free_blocks, holds_volume, killed_of, spoiled_blocks, table_of};
use std::alloc::Global;

/// What a command is to say, and its status.
#[derive(Drop)]
pub(crate) struct Wanted {
    pub(crate) status: u8,
    pub(crate) said: String,
}

// Adds a name as lists print it.
fn add_name(said: &mut String, name: &[u8]) -> Result<(), Trouble> {
    for byte in name {
        if (0x21..=0x7E).contains(byte) && *byte != b'%' {
            said.push(char::from(*byte))?;
        } else {
            write!(said, "%{byte:02X}")?;
        }
    }
    Ok(())
}

// Adds the line of a damaged id.
fn add_damage(said: &mut String, id: u16, cause: Damage) -> Result<(), Trouble> {
    match cause {
        Damage::BadName => write!(said, "damaged {id} name\n")?,
        Damage::Missing(span) => write!(said, "damaged {id} span {span}\n")?,
        Damage::SameName(other) => write!(said, "damaged {id} same {other}\n")?,
    }
    Ok(())
}

// The refusal of what is no volume.
fn refusal_of(alloc: Global, spoiled: u32) -> Result<Wanted, Trouble> {
    Ok(Wanted {
        status: 3,
        said: format!(in alloc; "! not a volume, {spoiled} blocks without magic\n")?,
    })
}

/// What a listing of an image is to say.
pub(crate) fn list_of(alloc: Global, g: &Geometry, image: &[u8]) -> Result<Wanted, Trouble> {
    if !holds_volume(g, image) {
        return Err(Trouble::Device);
    }
    let spoiled = spoiled_blocks(g, image);
    if spoiled > 1 {
        return refusal_of(alloc, spoiled);
    }
    let mut said = String::new(alloc);
    for file in table_of(alloc, g, image)?.iter() {
        write!(said, "{} {} {} ", file.id, file.kind, file.bytes.len())?;
        add_name(&mut said, &file.name)?;
        said.push('\n')?;
    }
    let damaged = damaged_of(alloc, g, image)?;
    for (id, cause) in damaged.iter() {
        add_damage(&mut said, *id, *cause)?;
    }
    if damaged.is_empty() {
        return Ok(Wanted { status: 0, said });
    }
    write!(said, "! damaged {}\n", damaged.len())?;
    Ok(Wanted { status: 12, said })
}

/// What a check is to say that found one image and left another.
pub(crate) fn check_of(
    alloc: Global,
    g: &Geometry,
    was: &[u8],
    now: &[u8],
) -> Result<Wanted, Trouble> {
    if !holds_volume(g, was) || !holds_volume(g, now) {
        return Err(Trouble::Device);
    }
    let spoiled = spoiled_blocks(g, was);
    if spoiled > 1 {
        return refusal_of(alloc, spoiled);
    }
    let over = parting(alloc, g, was)?;
    if !over.fits {
        let said = format!(in alloc; "! mixed blocks {}\n", over.shared)?;
        return Ok(Wanted { status: 4, said });
    }
    let killed = killed_of(alloc, g, was)?;
    let damaged = damaged_of(alloc, g, was)?.len();
    let free = free_blocks(g, now);
    let mut said = format!(in alloc;
        "erased {spoiled} killed {killed} damaged {damaged} free {free}\n"
    )?;
    let status = if damaged > 0 {
        write!(said, "! damaged {damaged}\n")?;
        12
    } else if free < 2 {
        write!(said, "! free blocks {free}\n")?;
        14
    } else {
        0
    };
    Ok(Wanted { status, said })
}
