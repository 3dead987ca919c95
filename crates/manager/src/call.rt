// The calls of a manager, and their answers.
ghost use Rattle.std.specs.Prelude.{◌≡◌};
ghost use Rattle.manager.specs.Answers.{reply_number};

use crate::tick::Tick;
use socket::Answer;

// Sockets, banks, selects, words and levels are any numbers.
#[derive(Clone, Copy, PartialEq, Debug)]
pub enum Call {
    Write {
        socket: u32,
        bank: u32,
        select: u32,
        word: u32,
    },
    Read {
        socket: u32,
        bank: u32,
        select: u32,
    },
    Acknowledge {
        socket: u32,
        level: u32,
    },
    Outputs {
        socket: u32,
    },
    Tick,
    Reset,
}

#[derive(Clone, Copy, PartialEq, Debug)]
pub enum Reply {
    Written(Answer),
    Read(u32),
    Acknowledged,
    Outputs(u8),
    Ticked(Tick),
    // with the socket that had the port
    Reset(Option<u8>),
}

impl Reply {
    // What is told of the answer in a number: the word or bits that were asked for, or which answer it is.
    pub fn number(self) -> u32
        ensures { result ≡ reply_number self }
    {
        match self {
            Reply::Written(answer) => u32::from(answer.number()),
            Reply::Read(word) => word,
            Reply::Acknowledged => 0,
            Reply::Outputs(bits) => u32::from(bits),
            Reply::Ticked(tick) => u32::from(tick.number()),
            Reply::Reset(Some(s)) => u32::from(s) + 1,
            Reply::Reset(None) => 0,
        }
    }
}
