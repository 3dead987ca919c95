// How many modules and triggers a socket has.
ghost use Rattle.std.specs.Prelude.{◌≡◌, ◌<◌, ◌≤◌, true};
ghost use Rattle.socket.specs.Counts.{is_trigger_count};

#[derive(Clone, Copy)]
pub struct Capacity {
    modules: u8,
    triggers: u8,
    ghost has_modules: { 0 < modules },
    ghost few_modules: { modules ≤ 16 },
    ghost powers: { is_trigger_count triggers ≡ true },
}

impl Capacity {
    ghost use Rattle.socket.specs.Capacity.{Makes, known_module, low_bits};

    // 1 to 16 modules, and 1, 2, 4, 8, 16 or 32 triggers; none for other numbers.
    pub fn new(modules: u32, triggers: u32) -> Option<Capacity>
        ensures { Makes modules triggers result }
    {
        if modules == 0 || modules > 16 {
            return None;
        }
        match triggers {
            1 | 2 | 4 | 8 | 16 | 32 => Some(Capacity {
                modules: modules as u8,
                triggers: triggers as u8,
            }),
            _ => None,
        }
    }

    // Module `number`, if there is one.
    pub(crate) fn module(self, number: u16) -> Option<u8>
        ensures { result ≡ known_module self number }
    {
        if number < u16::from(self.modules) {
            Some(number as u8)
        } else {
            None
        }
    }

    // The low bits of a word, which number a trigger.
    pub(crate) fn low_bits(self, word: u32) -> u8
        ensures { result ≡ low_bits self word }
    {
        (word % u32::from(self.triggers)) as u8
    }

    pub fn modules(self) -> u8
        ensures { result ≡ self.modules }
    {
        self.modules
    }

    pub fn triggers(self) -> u8
        ensures { result ≡ self.triggers }
    {
        self.triggers
    }
}

// The smallest: one module, and one trigger.
impl Default for Capacity {
    ghost is_default = { λ k. (k.modules ≡ 1) × (k.triggers ≡ 1) };

    fn default() -> Capacity {
        Capacity {
            modules: 1,
            triggers: 1,
        }
    }
}
