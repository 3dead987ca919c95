// Groups of nine words below: eight of data, then their exclusive or.
ghost use Rattle.std.specs.Prelude.{◌≡◌, ℕ, ◌+◌, ◌^◌, ◌<◌, map, if◌then◌else◌, IfSome, Some, None, Ok};
ghost use Rattle.std.specs.List.{range_with_len};
ghost use Rattle.library.specs.Fault.{layer_above};
ghost use Rattle.library.specs.Check.{all_words, check_cell, check_reads, group_fits, group_start, xor_all};
ghost use Rattle.library.specs.Library.{SameMeaning};
ghost use Rattle.library.specs.Laws.{PassesFaults, Sound};

use crate::fault::{Cause, Fault};
use crate::library::Library;

#[derive(Drop)]
pub struct Check<L> {
    below: L,
}

impl<L: Library> Check<L> {
    pub fn new(below: L) -> Check<L>
        ensures { result ≡ record { below = below } }
    {
        Check { below }
    }

    pub fn into_below(self) -> L
        ensures { result ≡ self.below }
    {
        let Check { below } = self;
        below
    }
}

pub(crate) fn xor_all(words: &[u32]) -> u32
    ensures { result ≡ xor_all words.now }
{
    words.iter().fold(0, |sum, word| sum ^ *word)
}

// Where the group of `place` begins below, if it ends at a place.
fn group_start(place: u32) -> Option<u32>
    ensures value { result ≡ (if group_fits place then Some (group_start place) else None) }
    ensures fits { IfSome result (λ first. first + 8 < 2 ^ 32) }
{
    let last = u32::try_from(u64::from(place / 8) * 9 + 8);
    last.ok().map(|last| last - 8)
}

// The nine words from `first` on, or the first fault among them.
fn ask_nine<L: Library>(below: &mut L, first: u32) -> Result<[u32; 9], Fault>
    requires { first + 8 < 2 ^ 32 }
    ensures answer { result ≡ all_words (map (L.Library.cell below.old) (range_with_len first 9)) }
    ensures same_meaning { SameMeaning L.Library.layer L.Library.cell below.old below.new }
{
    let mut words = [0; 9];
    // By index, since a zip with the places would hide from the proof what is written.
    for (i, word) in words.iter_mut().enumerate() {
        *word = below.ask(first + i as u32)?;
    }
    Ok(words)
}

impl<L: Library> Library for Check<L> {
    ghost layer = { λ c. layer_above (L.Library.layer c.below) };

    ghost cell = { check_cell L.Library.layer L.Library.cell };

    fn layer_number(&self) -> u8 {
        self.below.layer_number().saturating_add(1)
    }

    fn ask(&mut self, place: u32) -> Result<u32, Fault>
        ensures answer { result ≡ check_cell L.Library.layer L.Library.cell self.old place }
        ensures same_meaning { SameMeaning (λ c. layer_above (L.Library.layer c.below)) (check_cell L.Library.layer L.Library.cell) self.old self.new }
        ensures below { SameMeaning L.Library.layer L.Library.cell self.old.below self.new.below }
        ensures passes_faults { PassesFaults (layer_above (L.Library.layer self.old.below)) place (check_reads L.Library.cell self.old place) result }
        ensures sound { (w : ℕ) → result ≡ Ok w → Sound (layer_above (L.Library.layer self.old.below)) (L.Library.cell self.old.below) place w }
    {
        let layer = self.layer_number();
        let fault = |cause| Fault {
            layer,
            cause,
            place,
        };
        let first = group_start(place).ok_or(fault(Cause::BeyondEnd))?;
        let words = ask_nine(&mut self.below, first)?;
        if xor_all(&words[..8]) != words[8] {
            return Err(fault(Cause::CheckFailed));
        }
        Ok(words[place as usize % 8])
    }
}
