// A cabinet with its library and its port.
ghost use Rattle.std.specs.Prelude.{◌≡◌, []};
ghost use Rattle.library.specs.Library.{SameMeaning};
ghost use Rattle.port.specs.Meaning.{takes};
ghost use Rattle.manager.specs.Cabinet.{end_calls, fault_service, grant_service, move_service, moved_word, put_calls, service, word_service};
ghost use Rattle.port.specs.Steps.{Step, closing};
ghost use Rattle.manager.specs.Calls.{After};
ghost use Rattle.manager.specs.Sockets.{next_waiting};

use crate::cabinet::Cabinet;
use crate::grant::Grant;
use crate::tick::{LoadCause, LoadFault, Tick};
use library::Library;
use port::Port;
use socket::Error;

#[derive(Drop)]
pub struct Manager<L, P> {
    pub(crate) cabinet: Cabinet,
    pub(crate) library: L,
    pub(crate) port: P,
}

impl<L: Library, P: Port> Manager<L, P> {
    // The word at a place goes from the library to the port.
    fn move_word(&mut self, place: u32) -> Result<(), LoadCause>
        ensures answer { result ≡ moved_word (L.Library.cell self.old.library place) (takes (P.Port.means self.old.port)) }
        ensures cabinet { self.new.cabinet ≡ self.old.cabinet }
        ensures library { SameMeaning L.Library.layer L.Library.cell self.old.library self.new.library }
        ensures port { After (put_calls (L.Library.cell self.old.library place)) (P.Port.means self.old.port) (P.Port.means self.new.port) }
    {
        let word = self.library.ask(place)?;
        self.port.put(word)?;
        Ok(())
    }

    // The load of the grant's socket failed: the port is closed.
    fn fail(&mut self, grant: Grant, cause: LoadCause) -> Tick
        ensures answer { result ≡ (fault_service self.old.cabinet grant cause []).answer }
        ensures cabinet { self.new.cabinet ≡ (fault_service self.old.cabinet grant cause []).cabinet }
        ensures library { self.new.library ≡ self.old.library }
        ensures port { Step closing (P.Port.means self.old.port) (P.Port.means self.new.port) }
    {
        let _ = self.port.close();
        self.cabinet.end_load(grant.socket, Err(cause.error()));
        let moved = grant.moved;
        Tick::Fault(grant.socket, LoadFault { moved, cause })
    }

    // A word was moved for the grant; behind the last one the port is closed.
    fn count_word(&mut self, grant: Grant) -> Tick
        ensures answer { result ≡ (word_service self.old.cabinet grant 0).answer }
        ensures cabinet { self.new.cabinet ≡ (word_service self.old.cabinet grant 0).cabinet }
        ensures library { self.new.library ≡ self.old.library }
        ensures port { After (end_calls grant) (P.Port.means self.old.port) (P.Port.means self.new.port) }
    {
        if grant.left > 1 {
            self.cabinet.grant = Some(grant.after_word());
            return Tick::Word(grant.socket);
        }
        let _ = self.port.close();
        self.cabinet.end_load(grant.socket, Ok(()));
        Tick::Done(grant.socket)
    }

    fn serve_grant(&mut self, grant: Grant) -> Tick
        ensures answer { result ≡ (move_service self.old.cabinet grant (P.Port.means self.old.port) (L.Library.cell self.old.library grant.place)).answer }
        ensures cabinet { self.new.cabinet ≡ (move_service self.old.cabinet grant (P.Port.means self.old.port) (L.Library.cell self.old.library grant.place)).cabinet }
        ensures library { SameMeaning L.Library.layer L.Library.cell self.old.library self.new.library }
        ensures port { After (move_service self.old.cabinet grant (P.Port.means self.old.port) (L.Library.cell self.old.library grant.place)).calls (P.Port.means self.old.port) (P.Port.means self.new.port) }
    {
        match self.move_word(grant.place) {
            Ok(()) => self.count_word(grant),
            Err(cause) => self.fail(grant, cause),
        }
    }

    // The first waiting socket is granted the port, or barred.
    fn grant_next(&mut self) -> Tick
        ensures answer { result ≡ (grant_service self.old.cabinet (P.Port.means self.old.port) (next_waiting self.old.cabinet.last self.old.cabinet.sockets.items)).answer }
        ensures cabinet { self.new.cabinet ≡ (grant_service self.old.cabinet (P.Port.means self.old.port) (next_waiting self.old.cabinet.last self.old.cabinet.sockets.items)).cabinet }
        ensures library { self.new.library ≡ self.old.library }
        ensures port { After (grant_service self.old.cabinet (P.Port.means self.old.port) (next_waiting self.old.cabinet.last self.old.cabinet.sockets.items)).calls (P.Port.means self.old.port) (P.Port.means self.new.port) }
    {
        let Some(s) = self.cabinet.next_waiting() else {
            return Tick::Idle;
        };
        if self.port.open(u32::from(s)).is_err() {
            self.cabinet.last = s;
            self.cabinet.end_load(s, Err(Error::Port));
            return Tick::Barred(s);
        }
        self.cabinet.give_port(s);
        Tick::Granted(s)
    }

    // The second part of a tick.
    pub(crate) fn serve(&mut self) -> Tick
        ensures answer { result ≡ (service self.old.cabinet (L.Library.cell self.old.library) (P.Port.means self.old.port)).answer }
        ensures cabinet { self.new.cabinet ≡ (service self.old.cabinet (L.Library.cell self.old.library) (P.Port.means self.old.port)).cabinet }
        ensures library { SameMeaning L.Library.layer L.Library.cell self.old.library self.new.library }
        ensures port { After (service self.old.cabinet (L.Library.cell self.old.library) (P.Port.means self.old.port)).calls (P.Port.means self.old.port) (P.Port.means self.new.port) }
    {
        match self.cabinet.grant {
            Some(grant) => self.serve_grant(grant),
            None => self.grant_next(),
        }
    }
}
