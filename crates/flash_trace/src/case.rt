// What a trace is judged by.
ghost use Rattle.std.specs.Prelude.{◌≡◌, ◌*◌, ◌<◌, ◌^◌, length};
ghost use Rattle.image_model.specs.Tables.{damaged_of};

use geometry::Geometry;
use image_model::Damage;

/// What a trace is judged by: the numbers of the volume and of its descriptors, its first image with the damaged files of it, and the script.
#[derive(Clone, Copy)]
pub(crate) struct Case<'a> {
    pub(crate) g: &'a Geometry,
    pub(crate) slots: u16,
    pub(crate) first: &'a [u8],
    pub(crate) damaged: &'a [(u16, Damage)],
    pub(crate) script: &'a [u8],
    pub ghost image: { length first.now ≡ g.now.blocks * g.now.block },
    pub ghost files: { damaged.now ≡ damaged_of g.now first.now },
    pub ghost short: { length script.now < 2 ^ 16 },
}
