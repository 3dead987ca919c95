// The meaning of a port, its calls and its questions.
ghost use Rattle.std.specs.Prelude.{◌≡◌, length, is_ok, None};
ghost use Rattle.std.specs.List.{slice_get};
ghost use Rattle.port.specs.Meaning.{Meaning, opens, takes, closes};
ghost use Rattle.port.specs.Steps.{Step, opening, putting, closing};

use crate::refused::Refused;

pub trait Port {
    // the partitions, their lists of words, the open one, the room left, and whether the port is spent
    ghost means: { Self → Meaning };

    // A line in each port, as is `opened`: to share them would take one more trait that callers import.
    fn partitions(&self) -> u32
        ensures { result ≡ (means self.now).partitions };

    fn opened(&self) -> Option<u32>
        ensures { result ≡ (means self.now).opened };

    fn room(&self) -> usize
        ensures value { result ≡ (means self.now).room }
        ensures none_open { (means self.now).opened ≡ None → result ≡ 0 };

    fn is_spent(&self) -> bool
        ensures { result ≡ (means self.now).spent };

    fn length(&self, s: u32) -> usize
        ensures { result ≡ length ((means self.now).words s) };

    // The word at `index` of the list of partition `s`.
    fn word(&self, s: u32, index: usize) -> Option<u32>
        ensures { result ≡ slice_get ((means self.now).words s) index };

    // Opens partition `s`, where none is open: its list is then empty, and the port says what room it has.
    // A refused call, here and below, has changed nothing.
    fn open(&mut self, s: u32) -> Result<(), Refused>
        ensures answer { is_ok result ≡ opens (means self.old) s }
        ensures after { Step (opening s) (means self.old) (means self.new) };

    // Puts `word` at the end of the open list, where there is room.
    fn put(&mut self, word: u32) -> Result<(), Refused>
        ensures answer { is_ok result ≡ takes (means self.old) }
        ensures after { Step (putting word) (means self.old) (means self.new) };

    // Closes the open partition.
    fn close(&mut self) -> Result<(), Refused>
        ensures answer { is_ok result ≡ closes (means self.old) }
        ensures after { Step closing (means self.old) (means self.new) };

    // While no partition is open there is no room.
    ghost no_room: { (p : Self) → (means p).opened ≡ None → (means p).room ≡ 0 };
}
