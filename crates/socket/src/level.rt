// The level of a tray's acknowledgement line.
ghost use Rattle.std.specs.Prelude.{◌≡◌};
ghost use Rattle.socket.specs.Level.{level_number, level_of};

use crate::refusal::Refusal;

#[derive(Clone, Copy, PartialEq, Debug)]
pub enum Level {
    Low = 0,
    High = 1,
}

impl Level {
    pub fn number(self) -> u8
        ensures { result ≡ level_number self }
    {
        self as u8
    }
}

impl TryFrom<u32> for Level {
    type Error = Refusal;

    ghost try_from_gives = { λ n r. r ≡ level_of n };

    fn try_from(number: u32) -> Result<Level, Refusal> {
        match number {
            0 => Ok(Level::Low),
            1 => Ok(Level::High),
            _ => Err(Refusal::BadLevel),
        }
    }
}
