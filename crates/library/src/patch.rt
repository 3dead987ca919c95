// A library with up to sixteen words of its own.
ghost use Rattle.std.specs.Prelude.{◌≡◌, true, [], if◌then◌else◌, MatchResult, OnOk};
ghost use Rattle.library.specs.Fault.{layer_above};
ghost use Rattle.library.specs.Patch.{WithPatch, places_differ, has_room, kept_entries, patch_answer, patch_cell, patch_reads};
ghost use Rattle.library.specs.Laws.{PassesFaults, Patched};
ghost use Rattle.library.specs.Library.{SameMeaning};
ghost use Rattle.library.specs.Refusal.{answer_number};

use crate::fault::Fault;
use crate::library::Library;
use crate::patch_table::PatchTable;
use crate::refusal::Refusal;

#[derive(Drop)]
pub struct Patch<L> {
    below: L,
    table: PatchTable,
}

impl<L: Library> Patch<L> {
    pub fn new(below: L) -> Patch<L>
        ensures below { result.below ≡ below }
        ensures entries { kept_entries result.table ≡ [] }
    {
        Patch {
            below,
            table: PatchTable::empty(),
        }
    }

    // Gives `place` the word `word` from now on.
    pub fn patch(&mut self, place: u32, word: u32) -> Result<(), Refusal>
        ensures answer { result ≡ patch_answer self.old.table place }
        ensures number { answer_number result ≡ (if has_room self.old.table place then 0 else 8) }
        ensures below { self.new.below ≡ self.old.below }
        ensures after { MatchResult result (λ _. WithPatch place word self.old.table self.new.table) (λ _. self.new ≡ self.old) }
        ensures places { places_differ (kept_entries self.old.table) ≡ true → places_differ (kept_entries self.new.table) ≡ true }
        ensures meaning { OnOk result (Patched place word (patch_cell L.Library.cell self.old) (patch_cell L.Library.cell self.new)) }
    {
        self.table.keep(place, word)
    }

    pub fn into_below(self) -> L
        ensures { result ≡ self.below }
    {
        let Patch { below, .. } = self;
        below
    }
}

impl<L: Library> Library for Patch<L> {
    ghost layer = { λ s. layer_above (L.Library.layer s.below) };

    ghost cell = { patch_cell L.Library.cell };

    fn layer_number(&self) -> u8 {
        self.below.layer_number().saturating_add(1)
    }

    fn ask(&mut self, place: u32) -> Result<u32, Fault>
        ensures answer { result ≡ patch_cell L.Library.cell self.old place }
        ensures same_meaning { SameMeaning (λ s. layer_above (L.Library.layer s.below)) (patch_cell L.Library.cell) self.old self.new }
        ensures same_table { self.new.table ≡ self.old.table }
        ensures below { SameMeaning L.Library.layer L.Library.cell self.old.below self.new.below }
        ensures passes_faults { PassesFaults (layer_above (L.Library.layer self.old.below)) place (patch_reads L.Library.cell self.old place) result }
    {
        match self.table.word_at(place) {
            Some(word) => Ok(word),
            None => self.below.ask(place),
        }
    }
}
