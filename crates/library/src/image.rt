// The caller's bytes as words, most significant byte first.
ghost use Rattle.std.specs.Prelude.{◌≡◌};
ghost use Rattle.library.specs.Image.{image_cell};

use crate::fault::{Cause, Fault};
use crate::library::Library;

#[derive(Drop)]
pub struct Image<'a> {
    bytes: &'a [u8],
}

impl<'a> Image<'a> {
    pub fn new(bytes: &'a [u8]) -> Image<'a>
        ensures { result.bytes ≡ bytes.entry }
    {
        Image { bytes }
    }
}

impl<'a> Library for Image<'a> {
    ghost layer = { λ _. 0 };

    ghost cell = { λ i. image_cell i.bytes.now };

    fn layer_number(&self) -> u8 {
        0
    }

    #[tactic(auto, using(crate::proofs::Images::word_at))]
    fn ask(&mut self, place: u32) -> Result<u32, Fault> {
        let (words, _) = self.bytes.as_chunks::<4>();
        words
            .get(place as usize)
            .map(|bytes| u32::from_be_bytes(*bytes))
            .ok_or(Fault {
                layer: 0,
                cause: Cause::BeyondEnd,
                place,
            })
    }
}
