// What takes a module's words, one at a time, into the partition that is open.
#![tactic(auto)]

mod bit_turn;
mod loading;
mod plane;
mod port;
mod refused;
mod tape;
mod tape_record;
mod turning;

pub use bit_turn::BitTurn;
pub use loading::{load, put_all};
pub use plane::Plane;
pub use port::Port;
pub use refused::Refused;
pub use tape::Tape;
pub use tape_record::{Content, Record};
pub use turning::turn;
