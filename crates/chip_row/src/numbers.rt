//! The numbers of a row.
ghost use Rattle.std.specs.Prelude.{◌≡◌, ◌*◌, ◌%◌, ◌^◌, ◌<◌};

/// How many chips a row has, and of which size and erase unit each is. No call changes them.
#[derive(Clone, Copy, Debug)]
pub struct Numbers {
    pub count: usize,
    pub chip_size: u32,
    pub unit: u32,
    ghost some: { 0 < count },
    ghost some_bytes: { 0 < chip_size },
    ghost some_unit: { 0 < unit },
    ghost whole: { chip_size % unit ≡ 0 },
    ghost fits: { count * chip_size < 2 ^ 32 },
}

impl Numbers {
    ghost use Rattle.std.specs.Prelude.{◌≡◌, ◌*◌, ◌%◌, ◌^◌, ◌<◌, ◌↔◌, IsSome, IfSome};
    ghost use Rattle.chip_row.specs.Rows.{NumbersFit};

    /// The numbers, unless there are no chips, the size or the unit is 0, the size isn't a whole number of units, or the
    /// sum of the sizes reaches 2^32.
    pub fn new(count: usize, chip_size: u32, unit: u32) -> Option<Numbers>
        ensures fits { IsSome result ↔ NumbersFit count chip_size unit }
        ensures count { IfSome result (λ numbers. numbers.count ≡ count) }
        ensures chip_size { IfSome result (λ numbers. numbers.chip_size ≡ chip_size) }
        ensures unit { IfSome result (λ numbers. numbers.unit ≡ unit) }
    {
        if count == 0 || chip_size == 0 || unit == 0 || chip_size % unit != 0 {
            return None;
        }
        if count as u128 * u128::from(chip_size) > u128::from(u32::MAX) {
            return None;
        }
        Some(Numbers {
            count,
            chip_size,
            unit,
        })
    }

    /// How many bytes the row has.
    pub fn size(self) -> u32
        ensures { result ≡ self.count * self.chip_size }
    {
        (self.count * self.chip_size as usize) as u32
    }
}
