ghost use Rattle.std.specs.Prelude.{◌≡◌, ◌/◌, ◌≤◌, ◌^◌};
ghost use Rattle.volume_soak.specs.Asks.{IsDraw};

/// What a turn does.
#[derive(Clone, Copy, Debug, PartialEq, Eq)]
pub(crate) enum Kind {
    /// Adds to a file.
    Adds,
    /// Makes a file anew.
    Makes,
    /// Removes a file.
    Drops,
    /// Reads a file.
    Looks,
}

/// What a draw asks for.
#[derive(Clone, Copy)]
pub(crate) struct Draw {
    /// What its turn does.
    pub kind: Kind,
    /// The name of its file.
    pub name: [u8; 2],
    /// How many bytes it writes, from 1 to 600.
    pub count: u32,
    /// The value of each of them.
    pub byte: u8,
}

/// What a draw of the generator, of 31 bits, asks for.
pub(crate) fn draw_of(r: u32) -> Draw
    ensures is { IsDraw r result }
    ensures few { result.count ≤ 600 }
{
    Draw {
        kind: match r / 8 % 4 {
            0 => Kind::Adds,
            1 => Kind::Makes,
            2 => Kind::Drops,
            _ => Kind::Looks,
        },
        name: [b'f', b'0' + (r % 8) as u8],
        count: r / 32 % 600 + 1,
        byte: (r % 256) as u8,
    }
}
