// Which socket has the port, and what is still to be moved for it.
ghost use Rattle.std.specs.Prelude.{◌≡◌};
ghost use Rattle.manager.specs.Grants.{after_word, grant_of};

use socket::File;

#[derive(Clone, Copy)]
pub(crate) struct Grant {
    pub socket: u8,
    // where in the library the next word lies
    pub place: u32,
    pub left: u32,
    pub moved: u32,
}

impl Grant {
    // For the whole of a file, of which place and size are in bytes.
    pub(crate) fn new(socket: u8, file: File) -> Grant
        ensures { result ≡ grant_of socket file }
    {
        Grant {
            socket,
            place: file.address / 4,
            left: file.size / 4,
            moved: 0,
        }
    }

    // One word was moved, and is not the last.
    pub(crate) fn after_word(self) -> Grant
        ensures { result ≡ after_word self }
    {
        Grant {
            place: self.place.wrapping_add(1),
            left: self.left.saturating_sub(1),
            moved: self.moved.wrapping_add(1),
            ..self
        }
    }
}
