// The sign of a page, and what tells it.
ghost use Rattle.std.specs.Prelude.{◌≡◌, ◌<◌, ◌^◌, ◌%◌, ◌*◌};
ghost use Rattle.image_picture.specs.Signs.{letter_of, word_of, hue_of};

use page_layout::PageHeader;

/// What a page is.
#[derive(Clone, Copy, Debug, PartialEq, Eq)]
pub(crate) enum Sign {
    /// A lookup page.
    Lookup,
    /// A page with a free entry, erased.
    Free,
    /// A page with a deleted entry.
    Deleted,
    /// A live page with this header.
    Live(PageHeader),
    /// None of these.
    Neither,
}

/// The letter of a sign.
pub(crate) fn letter(sign: Sign) -> &'static [u8]
    ensures { result.now ≡ letter_of sign }
{
    match sign {
        Sign::Lookup => b"L",
        Sign::Free => b".",
        Sign::Deleted => b"x",
        Sign::Live(head) if !head.is_index() => b"d",
        Sign::Live(head) if head.span == 0 => b"H",
        Sign::Live(_) => b"i",
        Sign::Neither => b"?",
    }
}

/// The word of a sign.
pub(crate) fn word(sign: Sign) -> &'static [u8]
    ensures { result.now ≡ word_of sign }
{
    match sign {
        Sign::Lookup => b"lookup",
        Sign::Free => b"free",
        Sign::Deleted => b"deleted",
        Sign::Live(head) if !head.is_index() => b"data",
        Sign::Live(head) if head.span == 0 => b"header",
        Sign::Live(_) => b"index",
        Sign::Neither => b"neither",
    }
}

/// The hue of a live page's colour, in degrees: that of its file's id.
#[tactic(auto, unfolding(crate::specs::Signs::hue_of))]
pub(crate) fn hue(head: &PageHeader) -> u32
    ensures { result ≡ hue_of (head.now.id % 0x8000) }
{
    u32::from(head.object()) * 137 % 360
}
