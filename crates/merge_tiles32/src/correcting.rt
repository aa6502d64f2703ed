// What is taken from a pair of tiles of side 32: P, summed over the other frames.
ghost use Rattle.std.specs.Prelude.{◌≡◌};
ghost use Rattle.tile_spectrum.specs.LongPairs.{LongPaired};
ghost use Rattle.merge_tiles32.specs.Prelude.{long_noise_most};
ghost use lib.Ieee.{nan};
ghost use Rattle.merge_tiles32.specs.Sizes.{long_small_most, laws_of_32};

use merge_tiles::correcting::{Corrector, TileCorrector, sum_pair};
use merge_tiles::{Burst, Site};

// Tiles of side 32, with a tile of memory for B and G, since they are large.
#[derive(Drop)]
pub struct ThirtyTwo {
    pub spare: [[f64; 64]; 32],
}

impl Corrector<64, 32> for ThirtyTwo {
    ghost ready = { λ s. LongPaired nan s.spare };

    ghost noise_top = { long_noise_most };

    ghost small = { long_small_most };

    fn add_corrections(
        &mut self,
        d: &[[i16; 64]; 32],
        first: u64,
        second: u64,
        sum: &mut [[i64; 64]; 32],
    ) {
        tile_pair32::add_corrections(d, first, second, &mut self.spare, &mut *sum);
    }

    ghost laws = { laws_of_32 };
}

impl TileCorrector<64, 32> for ThirtyTwo {
    fn tile_correction(&mut self, burst: Burst<'_>, site: Site, sum: &mut [[i64; 64]; 32]) {
        let mut t0 = [[0u16; 64]; 32];
        let _roots = sum_pair(&mut *self, burst, site, &mut t0, &mut *sum);
    }
}
