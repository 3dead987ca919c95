// The caller's records, filled one after another with marks and words.
ghost use Rattle.std.specs.Prelude.{◌≡◌, ◌+◌, ◌-◌, ◌<◌, length, if◌then◌else◌, is_ok, None, ◌==◌, slice_set, filter_map, not, reverse};
ghost use Rattle.std.specs.List.{take_while};
ghost use Rattle.std.specs.Option.{unwrap_or};
ghost use Rattle.port.specs.declared.tape_record.Content.TheVariants.{Mark, Word};
ghost use Rattle.port.specs.Marks.{BetweenMarks, is_mark_of};
ghost use Rattle.port.specs.Meaning.{fresh_port, opens, takes, closes, after_open, after_put, after_close};
ghost use Rattle.port.specs.Records.{word_for, words_of};
ghost use Rattle.port.specs.Steps.{Step, opening, putting, closing};
ghost use Rattle.port.specs.Tape.{Grows, free_of, tape_means, used_records, with_record};

use crate::port::Port;
use crate::refused::Refused;
use crate::tape_record::{Content, Record};

// No ghost field, as in a plane: beside a `&mut` it would keep callers from changing a tape that they hold by value.
#[derive(Drop)]
pub struct Tape<'a> {
    records: &'a mut [Record],
    // The records are lent, so how many are used stands beside them.
    used: usize,
    opened: Option<u32>,
}

impl<'a> Tape<'a> {
    pub fn new(records: &'a mut [Record]) -> Tape<'a>
        ensures records { result.records.now ≡ records.old }
        ensures used { result.used ≡ 0 }
        ensures opened { result.opened ≡ None }
        ensures meaning { tape_means result ≡ fresh_port 8 (length records.old == 0) }
        ensures between_marks { BetweenMarks result.opened (used_records result) }
    {
        Tape {
            records,
            used: 0,
            opened: None,
        }
    }

    // How many records are free.
    fn free(&self) -> usize
        ensures { result ≡ free_of self.now }
    {
        self.records.len().saturating_sub(self.used)
    }

    // Writes the next record.
    fn write(&mut self, partition: u32, content: Content)
        requires { self.old.used < length self.old.records.now }
        ensures records { self.new.records.now ≡ slice_set self.old.records.now self.old.used (record { partition = partition; content = content }) }
        ensures used { self.new.used ≡ self.old.used + 1 }
        ensures opened { self.new.opened ≡ self.old.opened }
    {
        self.records[self.used] = Record { partition, content };
        self.used += 1;
    }

    // The records in use, which are the first.
    fn used_records(&self) -> &[Record]
        ensures { result.now ≡ used_records self.now }
    {
        let count = self.used.min(self.records.len());
        &self.records[..count]
    }

    // How many used records stand behind the last mark of partition `s`.
    fn behind(&self, s: u32) -> usize
        ensures { result ≡ length (take_while (λ r. not (is_mark_of s r)) (reverse (used_records self.now))) }
    {
        let used = self.used_records();
        used.iter().rev().take_while(|r| !r.marks(s)).count()
    }

    // The used records behind the last mark of partition `s`.
    fn list(&self, s: u32) -> &[Record]
        ensures { words_of s (used_records self.now) ≡ filter_map (word_for s) result.now }
    {
        let used = self.used_records();
        &used[used.len() - self.behind(s)..]
    }
}

impl<'a> Port for Tape<'a> {
    ghost use Rattle.std.proofs.Common.{rules};

    ghost means = { tape_means };

    fn partitions(&self) -> u32 {
        8
    }

    fn opened(&self) -> Option<u32> {
        self.opened
    }

    fn room(&self) -> usize {
        if self.opened.is_some() {
            self.free()
        } else {
            0
        }
    }

    fn is_spent(&self) -> bool {
        self.free() == 0
    }

    // The records of `s` from the last one backwards, as far as its last mark.
    fn length(&self, s: u32) -> usize {
        let used = self.used_records();
        used.iter()
            .rev()
            .filter(|r| r.partition == s)
            .take_while(|r| !r.marks(s))
            .count()
    }

    fn word(&self, s: u32, index: usize) -> Option<u32> {
        self.list(s).iter().filter_map(|r| r.word_for(s)).nth(index)
    }

    fn open(&mut self, s: u32) -> Result<(), Refused>
        ensures answer { is_ok result ≡ opens (tape_means self.old) s }
        ensures after { Step (opening s) (tape_means self.old) (tape_means self.new) }
        ensures meaning { tape_means self.new ≡ (if opens (tape_means self.old) s then after_open s (free_of self.old - 1) (free_of self.old - 1 == 0) (tape_means self.old) else tape_means self.old) }
        ensures buffer { self.new.records.now ≡ with_record (is_ok result) self.old s Mark }
        ensures used { self.new.used ≡ (if is_ok result then self.old.used + 1 else self.old.used) }
        ensures between_marks { BetweenMarks self.old.opened (used_records self.old) → BetweenMarks self.new.opened (used_records self.new) }
        ensures grows { Grows self.old self.new }
    {
        if self.opened.is_some() || s >= self.partitions() || self.is_spent() {
            return Err(Refused);
        }
        self.write(s, Content::Mark);
        self.opened = Some(s);
        Ok(())
    }

    fn put(&mut self, word: u32) -> Result<(), Refused>
        ensures answer { is_ok result ≡ takes (tape_means self.old) }
        ensures after { Step (putting word) (tape_means self.old) (tape_means self.new) }
        ensures meaning { tape_means self.new ≡ (if takes (tape_means self.old) then after_put word (free_of self.old - 1 == 0) (tape_means self.old) else tape_means self.old) }
        ensures buffer { self.new.records.now ≡ with_record (is_ok result) self.old (unwrap_or self.old.opened 0) (Word word) }
        ensures used { self.new.used ≡ (if is_ok result then self.old.used + 1 else self.old.used) }
        ensures between_marks { BetweenMarks self.old.opened (used_records self.old) → BetweenMarks self.new.opened (used_records self.new) }
        ensures grows { Grows self.old self.new }
    {
        let s = self.opened.ok_or(Refused)?;
        if self.is_spent() {
            return Err(Refused);
        }
        self.write(s, Content::Word(word));
        Ok(())
    }

    fn close(&mut self) -> Result<(), Refused>
        ensures answer { is_ok result ≡ closes (tape_means self.old) }
        ensures after { Step closing (tape_means self.old) (tape_means self.new) }
        ensures meaning { tape_means self.new ≡ (if closes (tape_means self.old) then after_close (free_of self.old == 0) (tape_means self.old) else tape_means self.old) }
        ensures buffer { self.new.records.now ≡ self.old.records.now }
        ensures used { self.new.used ≡ self.old.used }
        ensures between_marks { BetweenMarks self.old.opened (used_records self.old) → BetweenMarks self.new.opened (used_records self.new) }
        ensures grows { Grows self.old self.new }
    {
        self.opened.take().ok_or(Refused)?;
        Ok(())
    }

    ghost no_room = { λ t none. Prim.search rules };
}
