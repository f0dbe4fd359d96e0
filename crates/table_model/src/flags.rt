ghost use Rattle.std.specs.Prelude.{◌≡◌, ◌≤◌, Some, None, bit_and, bit_or, nat_lt, if◌then◌else◌, true, IfSome};
ghost use Rattle.table_model.specs.Descriptors.{appends, empties, makes, may_read, may_write, is_direct, is_exclusive};

use std::marker::Model;
use std::ops::BitOr;

/// How a file is opened: the flags of SPIFFS, joined by `|`. Contracts see their number.
#[derive(Clone, Copy, Debug, PartialEq, Eq)]
pub struct OpenFlags {
    bits: u8,
}

impl Model for OpenFlags {
    ghost use Rattle.std.specs.Prelude.{ℕ};

    ghost Value = { ℕ };

    ghost view = { λ f. f.bits };

    ghost inverse = { λ n. record { bits = n } };
}

impl OpenFlags {
    /// None of them.
    pub const NONE: OpenFlags = OpenFlags { bits: 0 };
    /// Each write goes to the file's end.
    pub const APPEND: OpenFlags = OpenFlags { bits: 1 };
    /// The file becomes empty as it is opened. This goes with `WRONLY` alone.
    pub const TRUNC: OpenFlags = OpenFlags { bits: 2 };
    /// The file is made where it is missing.
    pub const CREAT: OpenFlags = OpenFlags { bits: 4 };
    /// The descriptor may read.
    pub const RDONLY: OpenFlags = OpenFlags { bits: 8 };
    /// The descriptor may write.
    pub const WRONLY: OpenFlags = OpenFlags { bits: 16 };
    /// The descriptor may read and write.
    pub const RDWR: OpenFlags = OpenFlags { bits: 24 };
    /// No byte that is written through the descriptor waits.
    pub const DIRECT: OpenFlags = OpenFlags { bits: 32 };
    /// A file that is there is refused, where `CREAT` is set too.
    pub const EXCL: OpenFlags = OpenFlags { bits: 64 };

    /// The flags of a number, as a script's line tells them. A number above 127 has bits that are none.
    pub fn of_number(number: u32) -> Option<OpenFlags>
        ensures { result ≡ (if nat_lt 127 number then None else Some number) }
    {
        if number > 127 {
            return None;
        }
        Some(OpenFlags { bits: number as u8 })
    }

    /// Their number.
    pub fn number(self) -> u8
        ensures { result ≡ self }
    {
        self.bits
    }

    /// Whether each write goes to the file's end.
    pub fn appends(self) -> bool
        ensures { result ≡ appends self }
    {
        self.bits & 1 != 0
    }

    /// Whether the file becomes empty as it is opened.
    pub fn empties(self) -> bool
        ensures { result ≡ empties self }
    {
        self.bits & 2 != 0
    }

    /// Whether the file is made where it is missing.
    pub fn makes(self) -> bool
        ensures { result ≡ makes self }
    {
        self.bits & 4 != 0
    }

    /// Whether the descriptor may read.
    pub fn may_read(self) -> bool
        ensures { result ≡ may_read self }
    {
        self.bits & 8 != 0
    }

    /// Whether the descriptor may write.
    pub fn may_write(self) -> bool
        ensures { result ≡ may_write self }
    {
        self.bits & 16 != 0
    }

    /// Whether no byte that is written through the descriptor waits.
    pub fn is_direct(self) -> bool
        ensures { result ≡ is_direct self }
    {
        self.bits & 32 != 0
    }

    /// Whether a file that is there is refused, where it is to be made too.
    pub fn is_exclusive(self) -> bool
        ensures { result ≡ is_exclusive self }
    {
        self.bits & 64 != 0
    }
}

impl BitOr for OpenFlags {
    ghost use Rattle.std.specs.Prelude.{◌≡◌, bit_or};

    type Output = OpenFlags;

    ghost bitor_gives = { λ a b both. both ≡ bit_or a b };

    fn bitor(self, other: OpenFlags) -> OpenFlags {
        OpenFlags {
            bits: self.bits | other.bits,
        }
    }
}
