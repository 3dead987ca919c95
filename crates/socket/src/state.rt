// The states of an active socket, with their numbers, modules and output bits.
ghost use Rattle.std.specs.Prelude.{◌≡◌};
ghost use Rattle.socket.specs.Mode.{rest_state};
ghost use Rattle.socket.specs.State.{outputs_of, shown_module, state_number};

use crate::change::Change;

const RM_SHUTDOWN_REQ: u8 = 1;

const RM_DECOUPLE: u8 = 2;

const SW_SHUTDOWN_REQ: u8 = 4;

const SW_STARTUP_REQ: u8 = 8;

const RM_RESET: u8 = 16;

// The output bits in each state, by its number. There is no state 3.
const OUTPUTS: [u8; 8] = [
    RM_DECOUPLE,
    RM_SHUTDOWN_REQ,
    SW_SHUTDOWN_REQ,
    0,
    RM_DECOUPLE,
    RM_DECOUPLE | SW_STARTUP_REQ,
    RM_RESET,
    0,
];

#[derive(Clone, Copy)]
pub(crate) enum State {
    Empty,
    HardwareStop(Change),
    SoftwareStop(Change),
    Loading(u8),
    SoftwareStart(u8),
    // and how many more ticks find it here
    ModuleReset { module: u8, left: u8 },
    Full(u8),
}

impl State {
    // Full with what is loaded, or empty.
    pub(crate) fn at_rest(loaded: Option<u8>) -> State
        ensures { result ≡ rest_state loaded }
    {
        match loaded {
            Some(module) => State::Full(module),
            None => State::Empty,
        }
    }

    pub(crate) fn number(self) -> u8
        ensures { result ≡ state_number self }
    {
        match self {
            State::Empty => 0,
            State::HardwareStop(_) => 1,
            State::SoftwareStop(_) => 2,
            State::Loading(_) => 4,
            State::SoftwareStart(_) => 5,
            State::ModuleReset { .. } => 6,
            State::Full(_) => 7,
        }
    }

    // The old module while it is stopped, then the new one, and 0 for none.
    pub(crate) fn module(self) -> u8
        ensures { result ≡ shown_module self }
    {
        match self {
            State::Empty => 0,
            State::HardwareStop(change) | State::SoftwareStop(change) => change.old,
            State::Loading(module)
            | State::SoftwareStart(module)
            | State::ModuleReset { module, .. }
            | State::Full(module) => module,
        }
    }

    pub(crate) fn outputs(self) -> u8
        ensures { result ≡ outputs_of self }
    {
        OUTPUTS[usize::from(self.number())]
    }
}
