// The caller's list of runs, which follow one another from place 0.
ghost use Rattle.std.specs.Prelude.{◌≡◌, take};
ghost use Rattle.std.specs.List.{slice_get};
ghost use Rattle.library.specs.RunTable.{run_places, run_table_cell};

use crate::fault::{Cause, Fault};
use crate::library::Library;

// `count` places that all hold `word`, readable where `kind` is 0.
#[derive(Clone, Copy, PartialEq, Debug)]
pub struct Run {
    // Any byte, as in the caller's list: an enum would leave kinds out.
    pub kind: u8,
    pub count: u16,
    pub word: u32,
}

#[derive(Drop)]
pub struct RunTable<'a> {
    runs: &'a [Run],
}

impl<'a> RunTable<'a> {
    pub fn new(runs: &'a [Run]) -> RunTable<'a>
        ensures { result.runs ≡ runs.entry }
    {
        RunTable { runs }
    }

    // The run that covers `place`.
    fn covering(&self, place: u32) -> Option<Run>
        ensures { result ≡ slice_get (run_places (take 16 self.now.runs.now)) place }
    {
        let counted = self.runs.len().min(16);
        let mut start = 0;
        for run in &self.runs[..counted] {
            let end = start + u32::from(run.count);
            if place < end {
                return Some(*run);
            }
            start = end;
        }
        None
    }
}

impl<'a> Library for RunTable<'a> {
    ghost layer = { λ _. 0 };

    ghost cell = { λ t. run_table_cell t.runs.now };

    fn layer_number(&self) -> u8 {
        0
    }

    fn ask(&mut self, place: u32) -> Result<u32, Fault> {
        let cause = match self.covering(place) {
            Some(run) if run.kind == 0 => return Ok(run.word),
            Some(_) => Cause::Unreadable,
            None => Cause::BeyondEnd,
        };
        Err(Fault {
            layer: 0,
            cause,
            place,
        })
    }
}
