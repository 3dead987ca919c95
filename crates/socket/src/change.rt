// Stopping the old module, and starting the new one.
ghost use Rattle.std.specs.Prelude.{◌≡◌, true};
ghost use Rattle.socket.specs.Change.{after_hardware, after_load, after_reset_tick, after_software, after_start, change, first_stop};

use crate::control::{ModuleControl, StopKind};
use crate::state::State;

// A change of modules, while the old one is stopped.
#[derive(Clone, Copy)]
pub(crate) struct Change {
    pub old: u8,
    pub new: u8,
    // whether this stop step is the last
    pub is_last: bool,
}

impl Change {
    fn last(self) -> Change
        ensures { result ≡ change self.old self.new true }
    {
        Change {
            is_last: true,
            ..self
        }
    }

    pub(crate) fn after_hardware(self) -> State
        ensures { result ≡ after_hardware self }
    {
        if self.is_last {
            State::Loading(self.new)
        } else {
            State::SoftwareStop(self.last())
        }
    }

    pub(crate) fn after_software(self) -> State
        ensures { result ≡ after_software self }
    {
        if self.is_last {
            State::Loading(self.new)
        } else {
            State::HardwareStop(self.last())
        }
    }
}

impl State {
    // The stop steps begin by the old module's kind.
    pub(crate) fn first_stop(kind: StopKind, old: u8, new: u8) -> State
        ensures { result ≡ first_stop kind old new }
    {
        let is_last = kind == StopKind::Hardware;
        let change = Change { old, new, is_last };
        match kind {
            StopKind::NoStop => State::Loading(new),
            StopKind::Hardware | StopKind::HardwareThenSoftware => State::HardwareStop(change),
            StopKind::SoftwareThenHardware => State::SoftwareStop(change),
        }
    }

    // After a software start: the module's reset, if its control asks for it.
    pub(crate) fn after_start(control: ModuleControl, index: u8) -> State
        ensures { result ≡ after_start control index }
    {
        if control.asks_reset() {
            State::ModuleReset {
                module: index,
                left: control.duration,
            }
        } else {
            State::Full(index)
        }
    }

    // After a load: the first state that the module's control asks for.
    pub(crate) fn after_load(control: ModuleControl, index: u8) -> State
        ensures { result ≡ after_load control index }
    {
        if control.start {
            State::SoftwareStart(index)
        } else {
            State::after_start(control, index)
        }
    }

    // After a tick that finds the module's reset.
    pub(crate) fn after_reset_tick(index: u8, left: u8) -> State
        ensures { result ≡ after_reset_tick index left }
    {
        if left == 0 {
            State::Full(index)
        } else {
            State::ModuleReset {
                module: index,
                left: left - 1,
            }
        }
    }
}
