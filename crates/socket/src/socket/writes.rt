// What a write makes of a socket.
ghost use Rattle.std.specs.Prelude.{◌≡◌, true, is_some, if◌then◌else◌};
ghost use Rattle.std.specs.Option.{option_map, unwrap_or};
ghost use Rattle.socket.specs.declared.write.Answer.TheVariants.{Taken, Ignored};
ghost use Rattle.socket.specs.Laws.{KeepsError};
ghost use Rattle.socket.specs.Mode.{is_active};
ghost use Rattle.socket.specs.Socket.{with_mode};
ghost use Rattle.socket.specs.Writes.{commanded_mode, after_proceed, triggered_mode, write_answer, after_write};

use super::Socket;
use crate::capacity::Capacity;
use crate::command::Command;
use crate::mode::Mode;
use crate::state::State;
use crate::tables::Tables;
use crate::write::{Answer, Write};

impl Tables {
    // Where Proceed leads from a state, if it ends it.
    fn proceed(&self, state: State) -> Option<State>
        ensures { result ≡ after_proceed self.now state }
    {
        match state {
            State::SoftwareStop(change) => Some(change.after_software()),
            State::SoftwareStart(module) => {
                Some(State::after_start(self.control_of(module), module))
            }
            _ => None,
        }
    }
}

impl Socket {
    // Where a command leads, if it is taken.
    fn commanded(&self, command: Command, capacity: Capacity) -> Option<Mode>
        ensures { result ≡ commanded_mode capacity self.now.tables command self.now.mode }
    {
        match self.mode {
            Mode::Active {
                state,
                shutdown_held,
                pending,
            } => match command {
                Command::Shutdown => Some(Mode::Active {
                    state,
                    shutdown_held: true,
                    pending,
                }),
                Command::Proceed => Some(Mode::Active {
                    state: self.tables.proceed(state)?,
                    shutdown_held,
                    pending,
                }),
                _ => None,
            },
            Mode::Shutdown { loaded, error, .. } => match command {
                Command::Restart => Some(Mode::started(State::at_rest(loaded))),
                Command::RestartWithStatus(None) => Some(Mode::started(State::Empty)),
                Command::RestartWithStatus(Some(number)) => {
                    Some(Mode::started(State::Full(capacity.module(number)?)))
                }
                Command::UserControl(byte) => Some(Mode::Shutdown {
                    loaded,
                    error,
                    outputs: byte & 0x1f,
                }),
                _ => None,
            },
        }
    }

    // Where a trigger leads, in place of one that is pending, if it is taken.
    fn triggered(&self, trigger: u8) -> Option<Mode>
        ensures { result ≡ triggered_mode trigger self.now.mode }
    {
        match self.mode {
            Mode::Active {
                state,
                shutdown_held,
                ..
            } => Some(Mode::Active {
                state,
                shutdown_held,
                pending: Some(trigger),
            }),
            Mode::Shutdown { .. } => None,
        }
    }

    // Enters a mode, if there is one to enter.
    fn enter(&mut self, mode: Option<Mode>) -> Answer
        ensures answer { result ≡ (if is_some mode then Taken else Ignored) }
        ensures after { self.new ≡ unwrap_or (option_map (with_mode self.old) mode) self.old }
    {
        match mode {
            Some(mode) => {
                self.mode = mode;
                Answer::Taken
            }
            None => Answer::Ignored,
        }
    }

    pub fn write(&mut self, write: Write, capacity: Capacity) -> Answer
        ensures answer { result ≡ write_answer capacity write self.old }
        ensures after { self.new ≡ after_write capacity write self.old }
        ensures error { KeepsError self.old.mode self.new.mode }
        ensures tables { is_active self.old.mode ≡ true → self.new.tables ≡ self.old.tables }
    {
        match write {
            Write::Control(command) => self.enter(self.commanded(command, capacity)),
            Write::SwTrigger(trigger) => self.enter(self.triggered(trigger)),
            _ if self.is_active() => Answer::Ignored,
            _ => {
                self.tables.write(write);
                Answer::Taken
            }
        }
    }
}
