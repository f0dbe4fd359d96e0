ghost use Rattle.std.specs.Prelude.{◌≡◌, ◌<◌, OnErr, IfOk, true};
ghost use Rattle.geometry.specs.Numbers.{page_count};
ghost use Rattle.nor_core.specs.Count.{Rose};
ghost use Rattle.image_model.specs.Places.{page_of};
ghost use Rattle.image_model.specs.Tidy.{is_erased};
ghost use Rattle.flash_view.specs.Same.{OnlyLooks};

use flash_view::View;
use nor_core::{Failed, Nor, NorState};

/// Whether the page of an entry of 0xFFFF holds 0xFF alone. On a volume that this engine alone wrote it does, and isn't read.
#[tactic(auto, using(flash_view::proofs::Looking::looks_none))]
pub(crate) fn is_blank<N: Nor>(v: &mut View<'_, N>, page: u16, own: bool) -> Result<bool, Failed>
    requires { page < page_count v.old.geometry }
    ensures cause { OnErr result (Rose (N.faults v.old.nor.now) (N.faults v.new.nor.now)) }
    ensures looks { OnlyLooks v.old v.new }
    ensures told { N.tells v.old.nor.now → (own ≡ true → is_erased (page_of v.old.geometry (N.bytes v.old.nor.now) page) ≡ true) →
        IfOk result (λ blank. blank ≡ is_erased (page_of v.old.geometry (N.bytes v.old.nor.now) page)) }
{
    if own {
        return Ok(true);
    }
    v.is_blank(page)
}
