// What a call of this crate refuses.
ghost use Rattle.std.specs.Prelude.{◌≡◌, Some};
ghost use Rattle.library.specs.Refusal.{refusal_number, refusal_text};

use std::error::Error;
use std::fmt;

#[derive(Clone, Copy, PartialEq, Debug)]
pub enum Refusal {
    // a seventeenth patched place
    PatchesFull = 8,
}

impl Refusal {
    // A `From` into `u8` would not say what the number is.
    pub fn number(self) -> u8
        ensures { result ≡ refusal_number self }
    {
        self as u8
    }
}

impl fmt::Display for Refusal {
    ghost output = { λ r. Some (refusal_text r) };

    fn fmt<W: fmt::Write>(&self, f: &mut fmt::Formatter<W>) -> fmt::Result {
        let words = match self {
            Refusal::PatchesFull => "sixteen places are patched already",
        };
        f.write_str(words)
    }
}

impl Error for Refusal {}
