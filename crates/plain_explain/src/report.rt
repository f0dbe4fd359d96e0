// The lines that tell what an image means.
ghost use Rattle.std.specs.Prelude.{◌≡◌, ◌<◌, ◌≤◌, ◌*◌, length, ◌++◌, ◌∷◌, [], ◌↔◌, IsTrue, map, OnOk, IfOk, string_bytes};
ghost use Rattle.std.specs.List.{flat_map, range_with_len};
ghost use Rattle.std.specs.Option.{option_map};
ghost use Rattle.image_model.specs.Places.{IsImage};
ghost use Rattle.image_model.specs.Tidy.{IsTidy};
ghost use Rattle.plain_image.specs.Seen.{file};
ghost use Rattle.plain_explain.specs.Report.{is_tidy as the_tidy, is_unfit as the_unfit, counts_text, room_line, shared_line, file_line, damage_line};
ghost use Rattle.plain_explain.specs.Report.{worth_text, held_text, block_line, chosen_line, report_of, explained_of};

use crate::text::{push_meta, push_name, yes_no};
use geometry::Geometry;
use image_model::Damage;
use plain_collect::{chosen_block, is_fitting, is_worth, parting, score};
use plain_image::{
    EntryKind, Record, count_entries, damaged_of, erase_count, free_blocks, has_magic,
    holds_volume, is_mixed, is_tidy, killed_of, mixed_blocks, room_of, spoiled_blocks, table_of,
};
use std::alloc::{AllocError, Global};
use std::fmt::Write;

// Whether an image is tidy.
fn tidiness(alloc: Global, g: &Geometry, image: &[u8]) -> Result<bool, AllocError>
    requires { IsImage g.now image.now }
    ensures value { IfOk result (λ yes. yes ≡ the_tidy g.now image.now) }
    ensures tidy { IfOk result (λ yes. IsTrue yes ↔ IsTidy g.now image.now) }
{
    let tidy = is_tidy(alloc, g, image)?;
    Ok(tidy)
}

// Adds the counts of the whole image, and whether it is tidy.
#[tactic(auto, unfolding(crate::specs::Report::counts_text))]
fn push_counts(
    text: &mut String,
    alloc: Global,
    g: &Geometry,
    image: &[u8],
) -> Result<(), AllocError>
    requires { IsImage g.now image.now }
    ensures { OnOk result (string_bytes text.new ≡ string_bytes text.old ++ counts_text g.now image.now) }
{
    writeln!(text, "spoiled {}", spoiled_blocks(g, image))?;
    writeln!(text, "mixed {}", mixed_blocks(g, image))?;
    writeln!(text, "tidy {}", yes_no(tidiness(alloc, g, image)?))?;
    writeln!(text, "killed {}", killed_of(alloc, g, image)?)?;
    writeln!(text, "free {}", free_blocks(g, image))
}

// Adds how many pages the table takes, and whether it has room.
#[tactic(auto, unfolding(crate::specs::Report::room_line))]
fn push_room(text: &mut String, g: &Geometry, table: &[Record]) -> Result<(), AllocError>
    ensures { OnOk result (string_bytes text.new ≡ string_bytes text.old ++ room_line g.now (map file table.now)) }
{
    let room = room_of(g, table);
    writeln!(
        text,
        "room {} {} {}",
        room.index_pages,
        room.data_pages,
        yes_no(room.fits)
    )
}

// Adds the numbers of the shared blocks.
#[tactic(auto, unfolding(crate::specs::Report::shared_line))]
fn push_shared(
    text: &mut String,
    alloc: Global,
    g: &Geometry,
    image: &[u8],
) -> Result<(), AllocError>
    requires { IsImage g.now image.now }
    ensures { OnOk result (string_bytes text.new ≡ string_bytes text.old ++ shared_line g.now image.now) }
{
    let over = parting(alloc, g, image)?;
    writeln!(
        text,
        "shared {} index {} free {} fits {}",
        over.shared,
        over.index_pages,
        over.index_free,
        yes_no(over.fits)
    )
}

// Adds the line of a file.
#[tactic(auto, unfolding(crate::specs::Report::file_line))]
fn push_file(text: &mut String, listed: &Record) -> Result<(), AllocError>
    ensures { OnOk result (string_bytes text.new ≡ string_bytes text.old ++ file_line (file listed.now)) }
{
    write!(
        text,
        "file {} {} {} ",
        listed.id,
        listed.kind,
        listed.bytes.len()
    )?;
    push_name(text, listed.name.as_slice())?;
    push_meta(text, listed.meta.as_slice())?;
    text.push('\n')
}

// Adds a line for each file of the table.
fn push_files(text: &mut String, table: &[Record]) -> Result<(), AllocError>
    ensures { OnOk result (string_bytes text.new ≡ string_bytes text.old ++ flat_map file_line (map file table.now)) }
{
    for listed in table {
        push_file(text, listed)?;
    }
    Ok(())
}

// Adds the line of a damaged file.
#[tactic(auto, unfolding(crate::specs::Report::damage_line))]
fn push_damage(text: &mut String, id: u16, cause: &Damage) -> Result<(), AllocError>
    ensures { OnOk result (string_bytes text.new ≡ string_bytes text.old ++ damage_line id cause.now) }
{
    match cause {
        Damage::BadName => writeln!(text, "damaged {} name", id),
        Damage::Missing(span) => writeln!(text, "damaged {} span {}", id, *span),
        Damage::SameName(other) => writeln!(text, "damaged {} same {}", id, *other),
    }
}

// Adds a line for each damaged file.
fn push_damages(text: &mut String, damages: &[(u16, Damage)]) -> Result<(), AllocError>
    ensures { OnOk result (string_bytes text.new ≡ string_bytes text.old ++ flat_map (λ d. damage_line d.0 d.1) damages.now) }
{
    for (id, cause) in damages {
        push_damage(text, *id, cause)?;
    }
    Ok(())
}

// Whether a block lacks its magic or is mixed.
fn is_unfit(g: &Geometry, image: &[u8], block: u32) -> bool
    requires image { IsImage g.now image.now }
    requires block { block < g.now.blocks }
    ensures { result ≡ the_unfit g.now image.now block }
{
    !has_magic(g, image, block) || is_mixed(g, image, block)
}

// Adds whether a block is worth cleaning, whether it fits, and its score, where it has its magic and isn't mixed.
#[tactic(auto, unfolding(crate::specs::Report::worth_text))]
fn push_worth(text: &mut String, g: &Geometry, image: &[u8], block: u32) -> Result<(), AllocError>
    requires image { IsImage g.now image.now }
    requires block { block < g.now.blocks }
    ensures { OnOk result (string_bytes text.new ≡ string_bytes text.old ++ (worth_text g.now image.now block ++ 10 ∷ [])) }
{
    if is_unfit(g, image, block) {
        return writeln!(text, " worth - fits - score -");
    }
    writeln!(
        text,
        " worth {} fits {} score {}",
        yes_no(is_worth(g, image, block)),
        yes_no(is_fitting(g, image, block)),
        score(g, image, block)
    )
}

// Adds what a block holds.
#[tactic(auto, unfolding(crate::specs::Report::held_text, image_model::specs::Collect::index_in, image_model::specs::Collect::data_in, image_model::specs::Collect::deleted_in, image_model::specs::Collect::free_in))]
fn push_held(text: &mut String, g: &Geometry, image: &[u8], block: u32) -> Result<(), AllocError>
    requires image { IsImage g.now image.now }
    requires block { block < g.now.blocks }
    ensures { OnOk result (string_bytes text.new ≡ string_bytes text.old ++ held_text g.now image.now block) }
{
    write!(
        text,
        " index {} data {} deleted {} free {} count {}",
        count_entries(g, image, block, EntryKind::Index),
        count_entries(g, image, block, EntryKind::Data),
        count_entries(g, image, block, EntryKind::Deleted),
        count_entries(g, image, block, EntryKind::Free),
        erase_count(g, image, block)
    )
}

// Adds the line of a block.
#[tactic(auto, unfolding(crate::specs::Report::block_line))]
fn push_block(text: &mut String, g: &Geometry, image: &[u8], block: u32) -> Result<(), AllocError>
    requires image { IsImage g.now image.now }
    requires block { block < g.now.blocks }
    ensures { OnOk result (string_bytes text.new ≡ string_bytes text.old ++ block_line g.now image.now block) }
{
    write!(
        text,
        "block {} magic {}",
        block,
        yes_no(has_magic(g, image, block))
    )?;
    push_held(text, g, image, block)?;
    push_worth(text, g, image, block)
}

// Adds a line for each block.
fn push_blocks(text: &mut String, g: &Geometry, image: &[u8]) -> Result<(), AllocError>
    requires { IsImage g.now image.now }
    ensures { OnOk result (string_bytes text.new ≡ string_bytes text.old ++ flat_map (block_line g.now image.now) (range_with_len 0 g.now.blocks)) }
{
    for block in 0..g.blocks {
        push_block(text, g, image, block)?;
    }
    Ok(())
}

// Adds which block is cleaned next, where each has its magic and none is mixed.
#[tactic(auto, unfolding(crate::specs::Report::chosen_line))]
fn push_chosen(
    text: &mut String,
    alloc: Global,
    g: &Geometry,
    image: &[u8],
) -> Result<(), AllocError>
    requires { IsImage g.now image.now }
    ensures { OnOk result (string_bytes text.new ≡ string_bytes text.old ++ chosen_line g.now image.now) }
{
    if spoiled_blocks(g, image) > 0 || mixed_blocks(g, image) > 0 {
        return writeln!(text, "chosen -");
    }
    match chosen_block(alloc, g, image)? {
        Some(block) => writeln!(text, "chosen {block}"),
        None => writeln!(text, "chosen none"),
    }
}

// What the definitions say of an image: its counts, room and shared blocks, a line for each file, each damaged file and
// each block, and which block is cleaned next. Fails only for want of memory.
#[tactic(auto, unfolding(crate::specs::Report::report_of))]
fn report(alloc: Global, g: &Geometry, image: &[u8]) -> Result<String, AllocError>
    requires { IsImage g.now image.now }
    ensures { IfOk result (λ text. string_bytes text ≡ report_of g.now image.now) }
{
    let table = table_of(alloc, g, image)?;
    let damages = damaged_of(alloc, g, image)?;
    let mut text = String::new(alloc);
    push_counts(&mut text, alloc, g, image)?;
    push_room(&mut text, g, table.as_slice())?;
    push_shared(&mut text, alloc, g, image)?;
    push_files(&mut text, table.as_slice())?;
    push_damages(&mut text, damages.as_slice())?;
    push_blocks(&mut text, g, image)?;
    push_chosen(&mut text, alloc, g, image)?;
    Ok(text)
}

/// What is printed of the bytes of a chip: what the definitions say of it, or None where they don't hold the volume. Fails
/// only for want of memory.
#[tactic(auto, unfolding(crate::specs::Report::explained_of))]
pub(crate) fn explained(
    alloc: Global,
    g: &Geometry,
    image: &[u8],
) -> Result<Option<String>, AllocError>
    ensures { IfOk result (λ text. option_map string_bytes text ≡ explained_of g.now image.now) }
{
    if !holds_volume(g, image) {
        return Ok(None);
    }
    let text = report(alloc, g, image)?;
    Ok(Some(text))
}
