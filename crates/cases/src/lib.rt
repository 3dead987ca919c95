// What the crates should do, on tables of cases.
#![tactic(auto)]

#[cfg(test)]
mod libraries;
#[cfg(test)]
mod managers;
#[cfg(test)]
mod ports;
#[cfg(test)]
mod sockets;
mod worked;

pub use worked::worked_cases;
