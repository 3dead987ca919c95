// The register tables of a socket.
ghost use Rattle.std.specs.Prelude.{◌≡◌, ◌<◌};
ghost use Rattle.socket.specs.Tables.{control_of, file_of, fresh_controls, fresh_files, fresh_rows, fresh_tables, fresh_triggers, has_bad_row, is_bad_file, module_of, row_of};

use crate::capacity::Capacity;
use crate::control::ModuleControl;

mod registers;

// Where a file lies in the library and how long it is, both in bytes.
#[derive(Clone, Copy, PartialEq, Debug)]
pub struct File {
    pub address: u32,
    pub size: u32,
}

#[derive(Clone, Copy)]
pub(crate) struct Tables {
    // the module of each trigger
    pub triggers: [u8; 32],
    // the file row of each module
    pub rows: [u8; 16],
    pub controls: [ModuleControl; 16],
    // the file of each row
    pub files: [File; 16],
}

impl File {
    const NOTHING: File = File {
        address: 0,
        size: 0,
    };

    // Whether it is empty, or not of whole words.
    pub(crate) fn is_bad(self) -> bool
        ensures { result ≡ is_bad_file self }
    {
        self.size == 0 || self.size % 4 != 0 || self.address % 4 != 0
    }
}

// Trigger t has module t modulo their number.
fn first_triggers(modules: u8) -> [u8; 32]
    requires { 0 < modules }
    ensures { result ≡ fresh_triggers modules }
{
    let mut triggers = [0; 32];
    for (t, entry) in triggers.iter_mut().enumerate() {
        *entry = (t % usize::from(modules)) as u8;
    }
    triggers
}

// Module m has row m.
#[tactic(auto, unfolding(crate::specs::Tables::fresh_rows))]
fn first_rows() -> [u8; 16]
    ensures { result ≡ fresh_rows }
{
    [0, 1, 2, 3, 4, 5, 6, 7, 8, 9, 10, 11, 12, 13, 14, 15]
}

// No module asks for anything.
#[tactic(auto, unfolding(crate::specs::Tables::fresh_controls))]
fn first_controls() -> [ModuleControl; 16]
    ensures { result ≡ fresh_controls }
{
    [ModuleControl::PLAIN; 16]
}

// No row has a file.
#[tactic(auto, unfolding(crate::specs::Tables::fresh_files))]
fn first_files() -> [File; 16]
    ensures { result ≡ fresh_files }
{
    [File::NOTHING; 16]
}

impl Tables {
    pub(crate) fn new(capacity: Capacity) -> Tables
        ensures { result ≡ fresh_tables capacity }
    {
        Tables {
            triggers: first_triggers(capacity.modules()),
            rows: first_rows(),
            controls: first_controls(),
            files: first_files(),
        }
    }

    // The module that a trigger starts.
    pub(crate) fn module_of(&self, trigger: u8) -> u8
        ensures { result ≡ module_of self.now trigger }
    {
        self.triggers
            .get(usize::from(trigger))
            .copied()
            .unwrap_or(0)
    }

    // The file row of a module.
    pub(crate) fn row_of(&self, index: u8) -> u8
        ensures { result ≡ row_of self.now index }
    {
        self.rows.get(usize::from(index)).copied().unwrap_or(0)
    }

    // The control of a module.
    pub(crate) fn control_of(&self, index: u8) -> ModuleControl
        ensures { result ≡ control_of self.now index }
    {
        self.controls
            .get(usize::from(index))
            .copied()
            .unwrap_or(ModuleControl::PLAIN)
    }

    // The file of a row.
    pub(crate) fn file_of(&self, row: u8) -> File
        ensures { result ≡ file_of self.now row }
    {
        self.files
            .get(usize::from(row))
            .copied()
            .unwrap_or(File::NOTHING)
    }

    // Whether a module cannot be loaded: it or its row is none, or its file is bad.
    pub(crate) fn has_bad_row(&self, index: u8, capacity: Capacity) -> bool
        ensures { result ≡ has_bad_row capacity self.now index }
    {
        let row = self.row_of(index);
        index >= capacity.modules() || row >= capacity.modules() || self.file_of(row).is_bad()
    }
}
