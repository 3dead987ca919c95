// How a module wants to be stopped and started.
ghost use Rattle.std.specs.Prelude.{◌≡◌, ◌%◌, ◌^◌};
ghost use Rattle.socket.specs.Control.{asks_reset, control_of_word, control_word, reset_number, stop_number};

// The stop steps of a module, in order.
#[derive(Clone, Copy, PartialEq, Debug)]
pub enum StopKind {
    NoStop = 0,
    Hardware = 1,
    HardwareThenSoftware = 2,
    SoftwareThenHardware = 3,
}

#[derive(Clone, Copy, PartialEq, Debug)]
pub enum ResetCode {
    NoReset = 0,
    // kept, and asks for no reset
    Reserved = 1,
    ActiveLow = 2,
    ActiveHigh = 3,
}

#[derive(Clone, Copy, PartialEq, Debug)]
pub struct ModuleControl {
    pub stop: StopKind,
    // whether it wants a software start
    pub start: bool,
    pub reset: ResetCode,
    // a reset lasts one tick more than this
    pub duration: u8,
}

impl StopKind {
    pub fn number(self) -> u8
        ensures { result ≡ stop_number self }
    {
        self as u8
    }
}

impl ResetCode {
    pub fn number(self) -> u8
        ensures { result ≡ reset_number self }
    {
        self as u8
    }
}

impl ModuleControl {
    // Nothing is asked for.
    pub const PLAIN: ModuleControl = ModuleControl {
        stop: StopKind::NoStop,
        start: false,
        reset: ResetCode::NoReset,
        duration: 0,
    };

    pub(crate) fn asks_reset(self) -> bool
        ensures { result ≡ asks_reset self.reset }
    {
        matches!(self.reset, ResetCode::ActiveLow | ResetCode::ActiveHigh)
    }

    // Bits 12:5 duration, 4:3 reset, 2 start, 1:0 stop kind.
    pub fn word(self) -> u32
        ensures value { result ≡ control_word self }
        ensures round_trip { control_of_word result ≡ self }
    {
        u32::from(self.stop.number())
            | u32::from(self.start) << 2
            | u32::from(self.reset.number()) << 3
            | u32::from(self.duration) << 5
    }
}

impl From<u32> for ModuleControl {
    ghost from_gives = { λ w c. c ≡ control_of_word w };

    // The other bits of the word are dropped.
    fn from(word: u32) -> ModuleControl
        ensures from_gives { result ≡ control_of_word word }
        ensures round_trip { control_word result ≡ word % 2 ^ 13 }
    {
        ModuleControl {
            stop: match word & 3 {
                0 => StopKind::NoStop,
                1 => StopKind::Hardware,
                2 => StopKind::HardwareThenSoftware,
                _ => StopKind::SoftwareThenHardware,
            },
            start: word >> 2 & 1 == 1,
            reset: match word >> 3 & 3 {
                0 => ResetCode::NoReset,
                1 => ResetCode::Reserved,
                2 => ResetCode::ActiveLow,
                _ => ResetCode::ActiveHigh,
            },
            duration: (word >> 5 & 0xff) as u8,
        }
    }
}
