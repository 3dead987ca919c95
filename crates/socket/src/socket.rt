// One socket, and what it shows.
ghost use Rattle.std.specs.Prelude.{◌≡◌, ◌<◌, unwrap_or};
ghost use Rattle.socket.specs.declared.capacity.Capacity.{Capacity};
ghost use Rattle.socket.specs.Laws.{Decodes, Uncoupled};
ghost use Rattle.socket.specs.Mode.{is_active, shutdown_mode};
ghost use Rattle.socket.specs.Socket.{fresh_socket, with_level};
ghost use Rattle.socket.specs.Status.{error_bits, output_bits, read_word, status_of, status_word, trigger_of};

use crate::capacity::Capacity;
use crate::level::Level;
use crate::mode::{Error, Mode};
use crate::register::Register;
use crate::tables::Tables;

mod steps;
mod writes;

#[derive(Clone, Copy)]
pub struct Socket {
    mode: Mode,
    level: Level,
    tables: Tables,
}

fn error_bits(error: Option<Error>) -> u8
    ensures value { result ≡ error_bits error }
    ensures few { result < 4 }
{
    match error {
        Some(error) => error.number(),
        None => 0,
    }
}

impl Socket {
    // Empty and in shutdown, with level 0.
    pub fn new(capacity: Capacity) -> Socket
        ensures { result ≡ fresh_socket capacity }
    {
        Socket {
            mode: Mode::shut_down(None, None),
            level: Level::Low,
            tables: Tables::new(capacity),
        }
    }

    pub fn is_active(&self) -> bool
        ensures { result ≡ is_active self.now.mode }
    {
        matches!(self.mode, Mode::Active { .. })
    }

    // STATUS in shutdown.
    #[tactic(auto, using(crate::proofs::Words::shutdown_word))]
    fn shutdown_word(&self, loaded: Option<u8>, error: Option<Error>) -> u32
        ensures value { result ≡ status_of self.now.level (shutdown_mode loaded error) }
        ensures number { unwrap_or loaded 0 < 256 }
    {
        u32::from(loaded.unwrap_or(0)) << 8
            | 1 << 7
            | u32::from(error_bits(error)) << 3
            | u32::from(self.level.number())
    }

    // Module in bits 23:8, shutdown flag in 7, error in 6:3, state or level in 2:0.
    #[tactic(auto, using(crate::proofs::Statuses::decoding))]
    pub fn status(&self) -> u32
        ensures value { result ≡ status_word self.now }
        ensures decodes { Decodes self.now result }
    {
        match self.mode {
            Mode::Active { state, .. } => {
                u32::from(state.module()) << 8 | u32::from(state.number())
            }
            Mode::Shutdown { loaded, error, .. } => self.shutdown_word(loaded, error),
        }
    }

    // Bit 31 and the pending trigger, or 0.
    fn trigger_word(&self) -> u32
        ensures { result ≡ trigger_of self.now.mode }
    {
        match self.mode {
            Mode::Active {
                pending: Some(t),
                ..
            } => 1 << 31 | u32::from(t),
            _ => 0,
        }
    }

    pub fn read(&self, register: Register) -> u32
        ensures { result ≡ read_word self.now register }
    {
        match register {
            Register::Status => self.status(),
            Register::SwTrigger => self.trigger_word(),
            _ if self.is_active() => 0,
            _ => self.tables.word(register),
        }
    }

    // Bit 0 rm_shutdown_req, 1 rm_decouple, 2 sw_shutdown_req, 3 sw_startup_req, 4 rm_reset.
    pub fn outputs(&self) -> u8
        ensures value { result ≡ output_bits self.now.mode }
        ensures uncoupled { Uncoupled self.now result }
    {
        match self.mode {
            Mode::Active { state, .. } => state.outputs(),
            Mode::Shutdown { outputs, .. } => outputs,
        }
    }

    // Sets the level of the acknowledgement line.
    pub fn acknowledge(&mut self, level: Level)
        ensures { self.new ≡ with_level self.old level }
    {
        self.level = level;
    }
}

// A new socket of the smallest capacity.
impl Default for Socket {
    ghost is_default = { λ s. (k : Capacity) × (k.modules ≡ 1) × (k.triggers ≡ 1) × (s ≡ fresh_socket k) };

    fn default() -> Socket {
        Socket::new(Capacity::default())
    }
}
