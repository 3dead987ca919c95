// Whether a socket is active or in shutdown, with all that belongs to it.
ghost use Rattle.std.specs.Prelude.{◌≡◌};
ghost use Rattle.socket.specs.Mode.{error_number, shutdown_mode, started_mode};

use crate::state::State;

// Why a socket is in shutdown, if nobody asked for it.
#[derive(Clone, Copy, PartialEq, Debug)]
pub enum Error {
    BadRow = 1,
    Library = 2,
    Port = 3,
}

#[derive(Clone, Copy)]
pub(crate) enum Mode {
    Active {
        state: State,
        shutdown_held: bool,
        pending: Option<u8>,
    },
    Shutdown {
        loaded: Option<u8>,
        error: Option<Error>,
        outputs: u8,
    },
}

impl Error {
    pub fn number(self) -> u8
        ensures { result ≡ error_number self }
    {
        self as u8
    }
}

impl Mode {
    // What is loaded stays, and the outputs are those of a socket at rest with it.
    pub(crate) fn shut_down(loaded: Option<u8>, error: Option<Error>) -> Mode
        ensures { result ≡ shutdown_mode loaded error }
    {
        Mode::Shutdown {
            loaded,
            error,
            outputs: State::at_rest(loaded).outputs(),
        }
    }

    // No Shutdown is held, and no trigger pending.
    pub(crate) fn started(state: State) -> Mode
        ensures { result ≡ started_mode state }
    {
        Mode::Active {
            state,
            shutdown_held: false,
            pending: None,
        }
    }
}
