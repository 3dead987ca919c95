// What a call of this crate refuses.
ghost use Rattle.std.specs.Prelude.{◌≡◌};
ghost use Rattle.manager.specs.Refusal.{refusal_number, socket_refusal};

#[derive(Clone, Copy, PartialEq, Debug)]
pub enum Refusal {
    // at the making: a number outside its values
    BadNumber = 1,
    // at the making: the port is open, or has fewer partitions than there are sockets
    BadPort = 2,
    NoSocket = 3,
    // no such bank or select
    NoRegister = 4,
    // a command above 4, or a file id other than 0
    BadWord = 5,
    // as many ticks as the ceiling were accepted
    CeilingReached = 6,
    // an acknowledgement level above 1
    BadLevel = 7,
}

impl Refusal {
    pub fn number(self) -> u8
        ensures { result ≡ refusal_number self }
    {
        self as u8
    }
}

impl From<socket::Refusal> for Refusal {
    ghost from_gives = { λ s r. r ≡ socket_refusal s };

    fn from(refusal: socket::Refusal) -> Refusal {
        match refusal {
            socket::Refusal::NoRegister => Refusal::NoRegister,
            socket::Refusal::BadWord => Refusal::BadWord,
            socket::Refusal::BadLevel => Refusal::BadLevel,
        }
    }
}
