// What is written to CONTROL.
ghost use Rattle.std.specs.Prelude.{◌≡◌, Ok};
ghost use Rattle.socket.specs.Command.{command_number, command_of_word, command_word};

use crate::refusal::Refusal;

#[derive(Clone, Copy, PartialEq, Debug)]
pub enum Command {
    Shutdown,
    // empty or full, as before
    Restart,
    // full with a module, or empty
    RestartWithStatus(Option<u16>),
    Proceed,
    // the output bits are the low five of the byte
    UserControl(u8),
}

impl Command {
    pub fn number(self) -> u8
        ensures { result ≡ command_number self }
    {
        match self {
            Command::Shutdown => 0,
            Command::Restart => 1,
            Command::RestartWithStatus(_) => 2,
            Command::Proceed => 3,
            Command::UserControl(_) => 4,
        }
    }

    // Half-word in bits 31:16, byte field in 15:8, number in 7:0.
    #[tactic(auto, using(crate::proofs::Words::full_word))]
    pub fn word(self) -> u32
        ensures value { result ≡ command_word self }
        ensures round_trip { command_of_word result ≡ Ok self }
    {
        let number = u32::from(self.number());
        match self {
            Command::RestartWithStatus(Some(module)) => u32::from(module) << 16 | 1 << 8 | number,
            Command::UserControl(byte) => u32::from(byte) << 8 | number,
            _ => number,
        }
    }
}

impl TryFrom<u32> for Command {
    type Error = Refusal;

    ghost try_from_gives = { λ w r. r ≡ command_of_word w };

    fn try_from(word: u32) -> Result<Command, Refusal> {
        let byte = (word >> 8 & 0xff) as u8;
        let half = (word >> 16) as u16;
        match word & 0xff {
            0 => Ok(Command::Shutdown),
            1 => Ok(Command::Restart),
            2 if byte & 1 == 1 => Ok(Command::RestartWithStatus(Some(half))),
            2 => Ok(Command::RestartWithStatus(None)),
            3 => Ok(Command::Proceed),
            4 => Ok(Command::UserControl(byte)),
            _ => Err(Refusal::BadWord),
        }
    }
}
