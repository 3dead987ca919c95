// Up to sixteen places, each with its word.
ghost use Rattle.std.specs.Prelude.{◌≡◌, ◌≤◌, [], length, position, MatchResult};
ghost use Rattle.library.specs.declared.refusal.Refusal.TheVariants.{PatchesFull};

use crate::refusal::Refusal;
use arrayvec::{ArrayVec, CapacityError};

#[derive(Clone, Copy, Default)]
struct Entry {
    place: u32,
    word: u32,
}

#[derive(Drop)]
pub(crate) struct PatchTable {
    entries: ArrayVec<Entry, 16>,
    ghost few: { length entries.items ≤ 16 },
}

impl PatchTable {
    ghost use Rattle.library.specs.Patch.{WithPatch, is_for, kept_entries, kept_word, patch_answer};

    pub(crate) fn empty() -> PatchTable
        ensures { kept_entries result ≡ [] }
    {
        PatchTable {
            entries: ArrayVec::new(),
        }
    }

    // The index of the entry for `place`.
    fn position(&self, place: u32) -> Option<usize>
        ensures { result ≡ position (is_for place) (kept_entries self.now) }
    {
        for (at, entry) in self.entries.as_slice().iter().enumerate() {
            if entry.place == place {
                return Some(at);
            }
        }
        None
    }

    pub(crate) fn word_at(&self, place: u32) -> Option<u32>
        ensures { result ≡ kept_word (kept_entries self.now) place }
    {
        let at = self.position(place)?;
        Some(self.entries[at].word)
    }

    pub(crate) fn keep(&mut self, place: u32, word: u32) -> Result<(), Refusal>
        ensures answer { result ≡ patch_answer self.old place }
        ensures after { MatchResult result (λ _. WithPatch place word self.old self.new) (λ _. self.new ≡ self.old) }
    {
        let entry = Entry { place, word };
        match self.position(place) {
            Some(at) => self.entries[at] = entry,
            None => self.entries.try_push(entry)?,
        }
        Ok(())
    }
}

impl From<CapacityError<Entry>> for Refusal {
    ghost from_gives = { λ _ r. r ≡ PatchesFull };

    fn from(_full: CapacityError<Entry>) -> Refusal {
        Refusal::PatchesFull
    }
}
