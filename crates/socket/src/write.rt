// What can be written to a socket, and how it answers.
ghost use Rattle.std.specs.Prelude.{◌≡◌};
ghost use Rattle.socket.specs.Write.{answer_number, write_of};

use crate::capacity::Capacity;
use crate::command::Command;
use crate::control::ModuleControl;
use crate::refusal::Refusal;
use crate::register::Register;

#[derive(Clone, Copy, PartialEq, Debug)]
pub enum Answer {
    Taken = 0,
    Ignored = 1,
}

// A register, and what of a word it keeps.
#[derive(Clone, Copy, PartialEq, Debug)]
pub enum Write {
    Control(Command),
    SwTrigger(u8),
    // a trigger, and its module
    Trigger(u8, u8),
    // a module, and its row
    FileRow(u8, u8),
    ModuleControl(u8, ModuleControl),
    // no other id than 0
    FileId,
    // a row, and its file's address
    Address(u8, u32),
    Size(u8, u32),
}

impl Answer {
    pub fn number(self) -> u8
        ensures { result ≡ answer_number self }
    {
        self as u8
    }
}

impl Write {
    pub fn new(register: Register, word: u32, capacity: Capacity) -> Result<Write, Refusal>
        ensures { result ≡ write_of capacity register word }
    {
        match register {
            Register::Status => Ok(Write::Control(Command::try_from(word)?)),
            Register::SwTrigger => Ok(Write::SwTrigger(capacity.low_bits(word))),
            Register::Trigger(t) => Ok(Write::Trigger(t, capacity.low_bits(word))),
            Register::FileRow(m) => Ok(Write::FileRow(m, (word & 0xff) as u8)),
            Register::ModuleControl(m) => Ok(Write::ModuleControl(m, ModuleControl::from(word))),
            Register::FileId(_) if word == 0 => Ok(Write::FileId),
            Register::FileId(_) => Err(Refusal::BadWord),
            Register::Address(r) => Ok(Write::Address(r, word)),
            Register::Size(r) => Ok(Write::Size(r, word)),
        }
    }
}
