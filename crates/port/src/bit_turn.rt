// A layer that puts each word with the bits of its bytes in reverse.
ghost use Rattle.std.specs.Prelude.{◌≡◌, is_ok};
ghost use Rattle.port.specs.BitTurn.{turned_port};
ghost use Rattle.port.specs.Meaning.{opens, takes, closes};
ghost use Rattle.port.specs.Steps.{Step, opening, putting, closing};
ghost use Rattle.port.specs.Turn.{turned_word};

use crate::port::Port;
use crate::refused::Refused;
use crate::turning::turn;

#[derive(Drop)]
pub struct BitTurn<P> {
    below: P,
}

impl<P: Port> BitTurn<P> {
    pub fn new(below: P) -> BitTurn<P>
        ensures { result ≡ record { below = below } }
    {
        BitTurn { below }
    }

    // A method of each layer: to share it would take a trait that callers import.
    pub fn into_below(self) -> P
        ensures { result ≡ self.below }
    {
        let BitTurn { below } = self;
        below
    }
}

impl<P: Port> Port for BitTurn<P> {
    ghost means = { λ b. turned_port (P.Port.means b.below) };

    fn partitions(&self) -> u32 {
        self.below.partitions()
    }

    fn opened(&self) -> Option<u32> {
        self.below.opened()
    }

    fn room(&self) -> usize {
        self.below.room()
    }

    fn is_spent(&self) -> bool {
        self.below.is_spent()
    }

    fn length(&self, s: u32) -> usize {
        self.below.length(s)
    }

    fn word(&self, s: u32, index: usize) -> Option<u32> {
        self.below.word(s, index).map(turn)
    }

    fn open(&mut self, s: u32) -> Result<(), Refused>
        ensures answer { is_ok result ≡ opens (turned_port (P.Port.means self.old.below)) s }
        ensures after { Step (opening s) (turned_port (P.Port.means self.old.below)) (turned_port (P.Port.means self.new.below)) }
        ensures below { Step (opening s) (P.Port.means self.old.below) (P.Port.means self.new.below) }
    {
        self.below.open(s)
    }

    fn put(&mut self, word: u32) -> Result<(), Refused>
        ensures answer { is_ok result ≡ takes (turned_port (P.Port.means self.old.below)) }
        ensures after { Step (putting word) (turned_port (P.Port.means self.old.below)) (turned_port (P.Port.means self.new.below)) }
        ensures below { Step (putting (turned_word word)) (P.Port.means self.old.below) (P.Port.means self.new.below) }
    {
        self.below.put(turn(word))
    }

    fn close(&mut self) -> Result<(), Refused>
        ensures answer { is_ok result ≡ closes (turned_port (P.Port.means self.old.below)) }
        ensures after { Step closing (turned_port (P.Port.means self.old.below)) (turned_port (P.Port.means self.new.below)) }
        ensures below { Step closing (P.Port.means self.old.below) (P.Port.means self.new.below) }
    {
        self.below.close()
    }

    ghost no_room = { λ b. P.no_room b.below };
}
