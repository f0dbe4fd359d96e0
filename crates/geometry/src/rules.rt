ghost use Rattle.std.specs.Prelude.{◌≡◌, ◌<◌, ◌≤◌};
ghost use Rattle.geometry.specs.Rules.{is_page as page_rule, is_block as block_rule, has_magic_room as room_rule, lookups_in, pages_in};

// Whether a page may have that many bytes.
pub(crate) fn is_page(page: u32) -> bool
    ensures { result ≡ page_rule page }
{
    matches!(page, 128 | 256 | 512 | 1024 | 2048 | 4096)
}

// Lookup pages of a block.
pub(crate) fn lookup_pages(page: u32, block: u32) -> u32
    requires { 128 ≤ page }
    ensures { result ≡ lookups_in page block }
{
    (block / page * 2 / page).max(1)
}

// Whether a block fits pages and erase units.
pub(crate) fn is_block(page: u32, block: u32, phys: u32) -> bool
    requires { 128 ≤ page }
    ensures { result ≡ block_rule page block phys }
{
    phys != 0
        && block % page == 0
        && block % phys == 0
        && block / page >= 2
        && lookup_pages(page, block) * page <= phys
}

// Whether the lookup pages have slots for the magic and the erase count.
pub(crate) fn has_magic_room(page: u32, block: u32) -> bool
    requires page { 128 ≤ page }
    requires pages { 2 ≤ pages_in page block }
    ensures { result ≡ room_rule page block }
{
    let lookups = lookup_pages(page, block);
    block / page - lookups + 2 <= lookups * page / 2
}
