// What a call of this crate refuses.
ghost use Rattle.std.specs.Prelude.{◌≡◌};
ghost use Rattle.socket.specs.Refusal.{refusal_number};

#[derive(Clone, Copy, PartialEq, Debug)]
pub enum Refusal {
    // no such bank or select
    NoRegister = 4,
    // a command above 4, or a file id other than 0
    BadWord = 5,
    // an acknowledgement level above 1
    BadLevel = 7,
}

impl Refusal {
    pub fn number(self) -> u8
        ensures { result ≡ refusal_number self }
    {
        self as u8
    }
}
