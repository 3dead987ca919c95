// Why a library has no word at a place.
ghost use Rattle.std.specs.Prelude.{◌≡◌, Some};
ghost use Rattle.library.specs.Fault.{cause_number, cause_text, fault_text};

use std::error::Error;
use std::fmt;

#[derive(Clone, Copy, PartialEq, Debug)]
pub enum Cause {
    BeyondEnd = 1,
    Unreadable = 2,
    CheckFailed = 3,
}

impl Cause {
    // A `From` into `u8` would not say what the number is.
    pub fn number(self) -> u8
        ensures { result ≡ cause_number self }
    {
        self as u8
    }
}

// The layer that found it, and the place as that layer sees it.
#[derive(Clone, Copy, PartialEq, Debug)]
pub struct Fault {
    pub layer: u8,
    pub cause: Cause,
    pub place: u32,
}

impl fmt::Display for Cause {
    ghost output = { λ c. Some (cause_text c) };

    fn fmt<W: fmt::Write>(&self, f: &mut fmt::Formatter<W>) -> fmt::Result {
        let words = match self {
            Cause::BeyondEnd => "beyond the end",
            Cause::Unreadable => "unreadable",
            Cause::CheckFailed => "check failed",
        };
        f.write_str(words)
    }
}

impl fmt::Display for Fault {
    ghost output = { λ f. Some (fault_text f) };

    fn fmt<W: fmt::Write>(&self, f: &mut fmt::Formatter<W>) -> fmt::Result {
        let Fault {
            layer,
            cause,
            place,
        } = *self;
        let number = cause.number();
        write!(f, "layer {layer}, cause {number} ({cause}), place {place}")
    }
}

impl Error for Fault {}
