// What holds module files, asked for one 32-bit word at a time.
#![tactic(auto)]

mod check;
mod fault;
mod image;
mod library;
mod module_file;
mod patch;
mod patch_table;
mod refusal;
mod run_table;
mod window;

pub use check::Check;
pub use fault::{Cause, Fault};
pub use image::Image;
pub use library::Library;
pub use module_file::{to_bytes, with_check_words};
pub use patch::Patch;
pub use refusal::Refusal;
pub use run_table::{Run, RunTable};
pub use window::Window;
