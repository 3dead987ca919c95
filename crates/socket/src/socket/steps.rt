// What a tick, the end of a load and a reset make of a socket.
ghost use Rattle.std.specs.Prelude.{◌≡◌, is_some};
ghost use Rattle.socket.specs.Laws.{AwaitsGoodFile, KeepsModule, ResetLasts};
ghost use Rattle.socket.specs.Steps.{awaited_file, awaited_module, failed_socket, loaded_socket, replacing_state, reset_socket, state_reset, after_step, after_take_up};
ghost use Rattle.socket.specs.Stops.{StopSteps};
ghost use Rattle.socket.specs.Tables.{module_of};

use super::Socket;
use crate::capacity::Capacity;
use crate::level::Level;
use crate::mode::{Error, Mode};
use crate::state::State;
use crate::tables::{File, Tables};

impl Tables {
    // The state in which module `new` replaces what is loaded.
    fn replacing(&self, loaded: Option<u8>, new: u8) -> State
        ensures { result ≡ replacing_state self.now loaded new }
    {
        match loaded {
            Some(old) => State::first_stop(self.control_of(old).stop, old, new),
            None => State::Loading(new),
        }
    }

    // A bad row keeps what is loaded, and enters shutdown.
    fn take_up(&self, loaded: Option<u8>, trigger: u8, capacity: Capacity) -> Mode
        ensures { result ≡ after_take_up capacity self.now loaded (module_of self.now trigger) }
    {
        let new = self.module_of(trigger);
        if self.has_bad_row(new, capacity) {
            Mode::shut_down(loaded, Some(Error::BadRow))
        } else {
            Mode::started(self.replacing(loaded, new))
        }
    }

    // Where a reset sends a state.
    fn after_reset(&self, state: State) -> State
        ensures { result ≡ state_reset self.now state }
    {
        match state {
            State::Empty | State::Loading(_) => State::Empty,
            _ => State::after_load(self.control_of(state.module()), state.module()),
        }
    }
}

impl Socket {
    // The first part of a tick: one step by the state that the socket stands in.
    #[tactic(auto, using(crate::proofs::Resets::reset_lasts, crate::proofs::StopLemmas::in_order))]
    pub fn step(&mut self, capacity: Capacity)
        ensures after { self.new ≡ after_step capacity self.old }
        ensures stop_steps { StopSteps capacity }
        ensures reset_lasts { ResetLasts capacity }
    {
        let Mode::Active {
            state,
            shutdown_held,
            pending,
        } = self.mode
        else {
            return;
        };
        match (state, shutdown_held, pending, self.level) {
            (State::Empty, true, _, _) => self.mode = Mode::shut_down(None, None),
            (State::Full(module), true, _, _) => self.mode = Mode::shut_down(Some(module), None),
            (State::Empty, false, Some(trigger), _) => {
                self.mode = self.tables.take_up(None, trigger, capacity);
            }
            (State::Full(module), false, Some(trigger), _) => {
                self.mode = self.tables.take_up(Some(module), trigger, capacity);
            }
            (State::HardwareStop(change), _, _, Level::High) => {
                self.mode = Mode::Active {
                    state: change.after_hardware(),
                    shutdown_held,
                    pending,
                };
            }
            (State::ModuleReset { module, left }, _, _, _) => {
                self.mode = Mode::Active {
                    state: State::after_reset_tick(module, left),
                    shutdown_held,
                    pending,
                };
            }
            _ => {}
        }
    }

    // The module that the socket waits to load.
    fn awaited_module(&self) -> Option<u8>
        ensures { result ≡ awaited_module self.now.mode }
    {
        match self.mode {
            Mode::Active {
                state: State::Loading(module),
                ..
            } => Some(module),
            _ => None,
        }
    }

    // Whether the socket waits for the words of its new module.
    pub fn is_waiting(&self) -> bool
        ensures { result ≡ is_some (awaited_module self.now.mode) }
    {
        self.awaited_module().is_some()
    }

    // The file that the socket waits for.
    #[tactic(auto, using(crate::proofs::GoodFiles::awaits_good))]
    pub fn awaited_file(&self) -> Option<File>
        ensures value { result ≡ awaited_file self.now }
        ensures is_good { (k : Capacity) → AwaitsGoodFile k self.now }
    {
        let module = self.awaited_module()?;
        Some(self.tables.file_of(self.tables.row_of(module)))
    }

    // The awaited module was loaded, and is started. A socket that awaits none stays as it is.
    pub fn finish_load(&mut self)
        ensures { self.new ≡ loaded_socket self.old }
    {
        if let Mode::Active {
            state: State::Loading(module),
            shutdown_held,
            pending,
        } = self.mode
        {
            self.mode = Mode::Active {
                state: State::after_load(self.tables.control_of(module), module),
                shutdown_held,
                pending,
            };
        }
    }

    // The load failed: the socket is empty and in shutdown. One that awaits none stays as it is.
    pub fn fail_load(&mut self, error: Error)
        ensures { self.new ≡ failed_socket error self.old }
    {
        if self.is_waiting() {
            self.mode = Mode::shut_down(None, Some(error));
        }
    }

    // An active socket is empty, or starts its module again. In shutdown it stays as it is.
    pub fn reset(&mut self)
        ensures after { self.new ≡ reset_socket self.old }
        ensures keeps_module { KeepsModule self.old.mode self.new.mode }
    {
        if let Mode::Active { state, .. } = self.mode {
            self.mode = Mode::started(self.tables.after_reset(state));
        }
    }
}
