// What the score by counts is of an image.
ghost use Rattle.std.specs.Prelude.{◌≡◌, ℕ, List};
ghost use Rattle.geometry.specs.declared.geometry.Geometry.{Geometry};
ghost use Rattle.image_model.specs.Places.{next_count};
ghost use Rattle.image_model.specs.Collect.{score as the_score};
ghost use Rattle.flash_view.specs.declared.counts.BlockCounts.{BlockCounts};
ghost use Rattle.flash_view.specs.Counts.{AreCounts};
ghost use Rattle.block_gc.specs.Totals.{score_by};

/// By the counts of a block of an image and by the image's next erase count, that is the score of the block.
pub fn scores_are_told()
    ensures { (g : Geometry) (image : List ℕ) (block next : ℕ) (c : BlockCounts) → AreCounts g image block c → next ≡ next_count g image →
        score_by c next ≡ the_score g image block }
{}
