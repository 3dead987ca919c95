// Up to eight sockets over one module library and one configuration port.
#![tactic(auto)]

mod cabinet;
mod call;
mod calls;
mod grant;
mod making;
mod manager;
mod play;
mod refusal;
mod registers;
mod steps;
mod tick;

pub use call::{Call, Reply};
pub use manager::Manager;
pub use refusal::Refusal;
pub use tick::{LoadCause, LoadFault, Tick};
