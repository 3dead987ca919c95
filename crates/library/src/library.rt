// The meaning of a library, and how it is asked.
ghost use Rattle.std.specs.Prelude.{◌≡◌, ℕ};
ghost use Rattle.library.specs.Fault.{Cell};
ghost use Rattle.library.specs.Library.{SameMeaning};

use crate::fault::Fault;

pub trait Library {
    // 0 at the bottom, one more for each layer, at most 255
    ghost layer: { Self → ℕ };

    // the word at each place, or the fault of asking there
    ghost cell: { Self → ℕ → Cell };

    // One line in each library, as `into_below` in each layer: to share them would take a trait that callers import.
    fn layer_number(&self) -> u8
        ensures { result ≡ layer self.now };

    // By `&mut`, since a card reader changes while it reads; the meaning stays.
    fn ask(&mut self, place: u32) -> Result<u32, Fault>
        ensures answer { result ≡ cell self.old place }
        ensures same_meaning { SameMeaning layer cell self.old self.new };
}
