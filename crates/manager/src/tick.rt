// What a tick answers.
ghost use Rattle.std.specs.Prelude.{◌≡◌};
ghost use Rattle.manager.specs.declared.tick.LoadCause.TheVariants.{Library, Port};
ghost use Rattle.manager.specs.Answers.{tick_number, told_socket};

use library::Fault;
use port::Refused;
use socket::Error;

// Why a load ended before its last word.
#[derive(Clone, Copy, PartialEq, Debug)]
pub enum LoadCause {
    Library(Fault),
    Port,
}

// How many words were moved before that.
#[derive(Clone, Copy, PartialEq, Debug)]
pub struct LoadFault {
    pub moved: u32,
    pub cause: LoadCause,
}

// Each but the first with its socket.
#[derive(Clone, Copy, PartialEq, Debug)]
pub enum Tick {
    Idle,
    Granted(u8),
    Word(u8),
    Done(u8),
    Fault(u8, LoadFault),
    Barred(u8),
}

impl From<Fault> for LoadCause {
    ghost from_gives = { λ f c. c ≡ Library f };

    fn from(fault: Fault) -> LoadCause {
        LoadCause::Library(fault)
    }
}

impl From<Refused> for LoadCause {
    ghost from_gives = { λ _ c. c ≡ Port };

    fn from(_refused: Refused) -> LoadCause {
        LoadCause::Port
    }
}

impl LoadCause {
    ghost use Rattle.manager.specs.Cabinet.{load_error};

    // The error that the socket then shows.
    pub(crate) fn error(self) -> Error
        ensures { result ≡ load_error self }
    {
        match self {
            LoadCause::Library(_) => Error::Library,
            LoadCause::Port => Error::Port,
        }
    }
}

impl Tick {
    pub fn number(self) -> u8
        ensures { result ≡ tick_number self }
    {
        match self {
            Tick::Idle => 0,
            Tick::Granted(_) => 1,
            Tick::Word(_) => 2,
            Tick::Done(_) => 3,
            Tick::Fault(..) => 4,
            Tick::Barred(_) => 5,
        }
    }

    // The socket that it tells of, or 0.
    pub fn socket(self) -> u8
        ensures { result ≡ told_socket self }
    {
        match self {
            Tick::Idle => 0,
            Tick::Granted(s)
            | Tick::Word(s)
            | Tick::Done(s)
            | Tick::Fault(s, _)
            | Tick::Barred(s) => s,
        }
    }
}
