// The answer to a call that a port does not accept.
ghost use Rattle.std.specs.Prelude.{Some};
ghost use Rattle.port.specs.Refused.{refused_text};

use std::error::Error;
use std::fmt;

#[derive(Clone, Copy, PartialEq, Debug)]
pub struct Refused;

impl fmt::Display for Refused {
    ghost output = { λ _. Some refused_text };

    fn fmt<W: fmt::Write>(&self, f: &mut fmt::Formatter<W>) -> fmt::Result {
        f.write_str("the port does not accept this call")
    }
}

impl Error for Refused {}
