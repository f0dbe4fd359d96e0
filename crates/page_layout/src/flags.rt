/// The flags of a page: a byte in which a cleared bit says that something holds.
///
/// Bits 3 to 5 have no meaning and are written as 1.
#[derive(Clone, Copy, Debug, PartialEq, Eq)]
pub struct Flags {
    bits: u8,
}

impl Flags {
    ghost use Rattle.std.specs.Prelude.{◌≡◌, not, bit_and};
    ghost use Rattle.page_layout.specs.Layout.{bits_of, is_bit_set, ClearsBit};

    // Bit 0, USED: the page is written.
    const USED: u8 = 0x01;
    // Bit 1, FINAL: the page is finished.
    const FINAL: u8 = 0x02;
    // Bit 2, INDEX: the page is an index page.
    const INDEX: u8 = 0x04;
    // Bit 6, IXDELE: the object is being removed.
    const IXDELE: u8 = 0x40;
    // Bit 7, DELET: the page is deleted.
    const DELET: u8 = 0x80;

    /// The flags that this byte holds.
    pub fn from_bits(bits: u8) -> Flags
        ensures { bits_of result ≡ bits }
    {
        Flags { bits }
    }

    /// The byte as it stands on flash.
    pub fn bits(self) -> u8
        ensures { result ≡ bits_of self }
    {
        self.bits
    }

    /// Those of a data page that is placed and not finished.
    pub fn placed_data() -> Flags
        ensures { bits_of result ≡ 0xFE }
    {
        Flags { bits: !Self::USED }
    }

    /// Those of an index page that is placed and not finished.
    pub fn placed_index() -> Flags
        ensures { bits_of result ≡ 0xFA }
    {
        Flags {
            bits: !(Self::USED | Self::INDEX),
        }
    }

    /// Those of a finished data page.
    pub fn finished_data() -> Flags
        ensures { bits_of result ≡ 0xFC }
    {
        Flags {
            bits: !(Self::USED | Self::FINAL),
        }
    }

    /// Those of a finished index page.
    pub fn finished_index() -> Flags
        ensures { bits_of result ≡ 0xF8 }
    {
        Flags {
            bits: !(Self::USED | Self::FINAL | Self::INDEX),
        }
    }

    /// The page is written (bit 0, USED).
    pub fn is_used(self) -> bool
        ensures { result ≡ not (is_bit_set (bits_of self) 0) }
    {
        self.bits & Self::USED == 0
    }

    /// The page is finished (bit 1, FINAL).
    pub fn is_final(self) -> bool
        ensures { result ≡ not (is_bit_set (bits_of self) 1) }
    {
        self.bits & Self::FINAL == 0
    }

    /// The page is an index page (bit 2, INDEX).
    pub fn is_index(self) -> bool
        ensures { result ≡ not (is_bit_set (bits_of self) 2) }
    {
        self.bits & Self::INDEX == 0
    }

    /// The object of this header page is being removed (bit 6, IXDELE).
    pub fn is_removing(self) -> bool
        ensures { result ≡ not (is_bit_set (bits_of self) 6) }
    {
        self.bits & Self::IXDELE == 0
    }

    /// The page is deleted (bit 7, DELET).
    pub fn is_deleted(self) -> bool
        ensures { result ≡ not (is_bit_set (bits_of self) 7) }
    {
        self.bits & Self::DELET == 0
    }

    /// These flags with the page finished.
    pub fn finished(self) -> Flags
        ensures clears { ClearsBit 1 (bits_of self) (bits_of result) }
        ensures bits { bits_of result ≡ bit_and (bits_of self) 0xFD }
    {
        Flags {
            bits: self.bits & !Self::FINAL,
        }
    }

    /// These flags with the object being removed.
    pub fn removing(self) -> Flags
        ensures clears { ClearsBit 6 (bits_of self) (bits_of result) }
        ensures bits { bits_of result ≡ bit_and (bits_of self) 0xBF }
    {
        Flags {
            bits: self.bits & !Self::IXDELE,
        }
    }

    /// These flags with the page deleted.
    pub fn deleted(self) -> Flags
        ensures clears { ClearsBit 7 (bits_of self) (bits_of result) }
        ensures bits { bits_of result ≡ bit_and (bits_of self) 0x7F }
    {
        Flags {
            bits: self.bits & !Self::DELET,
        }
    }
}
