// The registers of the tables, read and written.
ghost use Rattle.std.specs.Prelude.{◌≡◌, slice_set};
ghost use Rattle.socket.specs.TableRegisters.{table_word, table_write};

use super::{File, Tables};
use crate::register::Register;
use crate::write::Write;

// Writes an entry of a table, if it has that index.
fn put<T: Copy>(table: &mut [T], index: u8, entry: T)
    ensures { table.new ≡ slice_set table.old index entry }
{
    let at = usize::from(index);
    if at < table.len() {
        table[at] = entry;
    }
}

impl Tables {
    // What a register of the tables holds.
    pub(crate) fn word(&self, register: Register) -> u32
        ensures { result ≡ table_word self.now register }
    {
        match register {
            Register::Trigger(t) => u32::from(self.module_of(t)),
            Register::FileRow(m) => u32::from(self.row_of(m)),
            Register::ModuleControl(m) => self.control_of(m).word(),
            Register::Address(r) => self.file_of(r).address,
            Register::Size(r) => self.file_of(r).size,
            Register::Status | Register::SwTrigger | Register::FileId(_) => 0,
        }
    }

    // Changes what a register of the tables holds.
    pub(crate) fn write(&mut self, write: Write)
        ensures { self.new ≡ table_write write self.old }
    {
        match write {
            Write::Trigger(t, module) => put(&mut self.triggers, t, module),
            Write::FileRow(m, row) => put(&mut self.rows, m, row),
            Write::ModuleControl(m, control) => put(&mut self.controls, m, control),
            Write::Address(r, address) => {
                let file = File {
                    address,
                    ..self.file_of(r)
                };
                put(&mut self.files, r, file);
            }
            Write::Size(r, size) => {
                let file = File {
                    size,
                    ..self.file_of(r)
                };
                put(&mut self.files, r, file);
            }
            Write::Control(_) | Write::SwTrigger(_) | Write::FileId => {}
        }
    }
}
