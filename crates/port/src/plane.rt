// The caller's words, cut into eight partitions of equal size.
ghost use Rattle.std.specs.Prelude.{◌≡◌, false, replicate, if◌then◌else◌, is_ok, None};
ghost use Rattle.port.specs.Meaning.{fresh_port, opens, takes, closes, after_open, after_put, after_close};
ghost use Rattle.port.specs.Partitions.{Apart, list_of, size_of, with_cell};
ghost use Rattle.port.specs.Plane.{plane_means};
ghost use Rattle.port.specs.Steps.{Step, opening, putting, closing};

use crate::port::Port;
use crate::refused::Refused;

const PARTITIONS: usize = 8;

// No ghost field ties the three: beside a `&mut` it would keep callers from changing a plane that they hold by value.
#[derive(Drop)]
pub struct Plane<'a> {
    cells: &'a mut [u32],
    // The cells are lent, so how many of each partition are used stands beside them.
    used: [usize; PARTITIONS],
    opened: Option<u32>,
}

impl<'a> Plane<'a> {
    pub fn new(cells: &'a mut [u32]) -> Plane<'a>
        ensures cells { result.cells.now ≡ cells.old }
        ensures used { result.used ≡ replicate 8 0 }
        ensures opened { result.opened ≡ None }
        ensures meaning { plane_means result ≡ fresh_port 8 false }
    {
        Plane {
            cells,
            used: [0; PARTITIONS],
            opened: None,
        }
    }

    // How many words a partition has.
    fn size(&self) -> usize
        ensures { result ≡ size_of self.now.cells.now }
    {
        self.cells.len() / PARTITIONS
    }

    // The list of partition `s`, which is empty for a number that is no partition.
    fn list(&self, s: u32) -> &[u32]
        ensures { result.now ≡ list_of self.now.cells.now self.now.used s }
    {
        let Some(used) = self.used.get(s as usize) else {
            return &[];
        };
        let size = self.size();
        let start = s as usize * size;
        &self.cells[start..start + (*used).min(size)]
    }
}

impl<'a> Port for Plane<'a> {
    ghost use Rattle.std.proofs.Common.{rules};

    ghost means = { plane_means };

    fn partitions(&self) -> u32 {
        PARTITIONS as u32
    }

    fn opened(&self) -> Option<u32> {
        self.opened
    }

    fn room(&self) -> usize {
        match self.opened {
            Some(s) if s < 8 => self.size().saturating_sub(self.used[s as usize]),
            _ => 0,
        }
    }

    fn is_spent(&self) -> bool {
        false
    }

    fn length(&self, s: u32) -> usize {
        self.list(s).len()
    }

    fn word(&self, s: u32, index: usize) -> Option<u32> {
        self.list(s).get(index).copied()
    }

    fn open(&mut self, s: u32) -> Result<(), Refused>
        ensures answer { is_ok result ≡ opens (plane_means self.old) s }
        ensures after { Step (opening s) (plane_means self.old) (plane_means self.new) }
        ensures meaning { plane_means self.new ≡ (if opens (plane_means self.old) s then after_open s (size_of self.old.cells.now) false (plane_means self.old) else plane_means self.old) }
        ensures buffer { self.new.cells.now ≡ self.old.cells.now }
    {
        if self.opened.is_some() || s >= self.partitions() {
            return Err(Refused);
        }
        self.used[s as usize] = 0;
        self.opened = Some(s);
        Ok(())
    }

    fn put(&mut self, word: u32) -> Result<(), Refused>
        ensures answer { is_ok result ≡ takes (plane_means self.old) }
        ensures after { Step (putting word) (plane_means self.old) (plane_means self.new) }
        ensures meaning { plane_means self.new ≡ (if takes (plane_means self.old) then after_put word false (plane_means self.old) else plane_means self.old) }
        ensures buffer { self.new.cells.now ≡ with_cell self.old.cells.now self.old.used self.old.opened word }
        ensures apart { Apart self.old.opened self.old.cells.now self.new.cells.now }
    {
        let s = self.opened.ok_or(Refused)? as usize;
        let size = self.size();
        if s >= PARTITIONS || self.used[s] >= size {
            return Err(Refused);
        }
        let index = self.used[s];
        self.cells[s * size + index] = word;
        self.used[s] = index + 1;
        Ok(())
    }

    fn close(&mut self) -> Result<(), Refused>
        ensures answer { is_ok result ≡ closes (plane_means self.old) }
        ensures after { Step closing (plane_means self.old) (plane_means self.new) }
        ensures meaning { plane_means self.new ≡ (if closes (plane_means self.old) then after_close false (plane_means self.old) else plane_means self.old) }
        ensures buffer { self.new.cells.now ≡ self.old.cells.now }
    {
        self.opened.take().ok_or(Refused)?;
        Ok(())
    }

    ghost no_room = { λ p none. Prim.search rules };
}
