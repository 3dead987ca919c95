// One socket: its registers, its states, and what each call makes of it.
#![tactic(auto)]

mod capacity;
mod change;
mod command;
mod control;
mod level;
mod mode;
mod refusal;
mod register;
mod socket;
mod state;
mod tables;
mod write;

pub use capacity::Capacity;
pub use command::Command;
pub use control::{ModuleControl, ResetCode, StopKind};
pub use level::Level;
pub use mode::Error;
pub use refusal::Refusal;
pub use register::Register;
pub use socket::Socket;
pub use tables::File;
pub use write::{Answer, Write};
