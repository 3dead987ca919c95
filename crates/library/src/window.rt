// A part of the library below, from a base on.
ghost use Rattle.std.specs.Prelude.{◌≡◌};
ghost use Rattle.library.specs.Fault.{layer_above};
ghost use Rattle.library.specs.Laws.{OneWindow, PassesFaults};
ghost use Rattle.library.specs.Library.{SameMeaning};
ghost use Rattle.library.specs.Window.{window_cell, window_reads};

use crate::fault::{Cause, Fault};
use crate::library::Library;

#[derive(Drop)]
pub struct Window<L> {
    below: L,
    base: u32,
    length: u32,
}

impl<L: Library> Window<L> {
    pub fn new(below: L, base: u32, length: u32) -> Window<L>
        ensures value { result ≡ record { below = below; base = base; length = length } }
        ensures one_window { OneWindow L.Library.layer L.Library.cell result }
    {
        Window {
            below,
            base,
            length,
        }
    }

    pub fn into_below(self) -> L
        ensures { result ≡ self.below }
    {
        let Window { below, .. } = self;
        below
    }
}

impl<L: Library> Library for Window<L> {
    ghost layer = { λ w. layer_above (L.Library.layer w.below) };

    ghost cell = { window_cell L.Library.layer L.Library.cell };

    fn layer_number(&self) -> u8 {
        self.below.layer_number().saturating_add(1)
    }

    fn ask(&mut self, place: u32) -> Result<u32, Fault>
        ensures answer { result ≡ window_cell L.Library.layer L.Library.cell self.old place }
        ensures same_meaning { SameMeaning (λ w. layer_above (L.Library.layer w.below)) (window_cell L.Library.layer L.Library.cell) self.old self.new }
        ensures same_base { self.new.base ≡ self.old.base }
        ensures same_length { self.new.length ≡ self.old.length }
        ensures below { SameMeaning L.Library.layer L.Library.cell self.old.below self.new.below }
        ensures passes_faults { PassesFaults (layer_above (L.Library.layer self.old.below)) place (window_reads L.Library.cell self.old place) result }
    {
        match self.base.checked_add(place) {
            Some(at) if place < self.length => self.below.ask(at),
            _ => Err(Fault {
                layer: self.layer_number(),
                cause: Cause::BeyondEnd,
                place,
            }),
        }
    }
}
