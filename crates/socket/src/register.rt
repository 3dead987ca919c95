// The registers of a socket, by bank and select.
ghost use Rattle.std.specs.Prelude.{◌≡◌, ◌<◌};
ghost use Rattle.socket.specs.Register.{bank_2, bank_3, register_at};

use crate::capacity::Capacity;
use crate::refusal::Refusal;

#[derive(Clone, Copy, PartialEq, Debug)]
pub enum Register {
    // STATUS when read, CONTROL when written
    Status,
    SwTrigger,
    // the module of a trigger
    Trigger(u8),
    // a module's row in the file table
    FileRow(u8),
    ModuleControl(u8),
    // of a row in the file table
    FileId(u8),
    Address(u8),
    Size(u8),
}

// The two registers of a module.
fn module_register(index: u8, second: bool) -> Register
    ensures { result ≡ bank_2 index second }
{
    if second {
        Register::ModuleControl(index)
    } else {
        Register::FileRow(index)
    }
}

// The three registers of a row in the file table.
fn file_register(row: u8, field: u32) -> Result<Register, Refusal>
    ensures { result ≡ bank_3 row field }
{
    match field {
        0 => Ok(Register::FileId(row)),
        1 => Ok(Register::Address(row)),
        2 => Ok(Register::Size(row)),
        _ => Err(Refusal::NoRegister),
    }
}

impl Register {
    pub fn at(bank: u32, select: u32, capacity: Capacity) -> Result<Register, Refusal>
        ensures { result ≡ register_at capacity bank select }
    {
        let modules = u32::from(capacity.modules());
        let triggers = u32::from(capacity.triggers());
        match (bank, select) {
            (0, 0) => Ok(Register::Status),
            (0, 1) => Ok(Register::SwTrigger),
            (1, t) if t < triggers => Ok(Register::Trigger(t as u8)),
            (2, s) if s / 2 < modules => Ok(module_register((s / 2) as u8, s % 2 == 1)),
            (3, s) if s / 4 < modules => file_register((s / 4) as u8, s % 4),
            _ => Err(Refusal::NoRegister),
        }
    }
}
