// What each call does, as the machine has it.
ghost use Rattle.std.specs.Prelude.{◌≡◌, Ok, OnErr};
ghost use Rattle.library.specs.Library.{SameMeaning};
ghost use Rattle.manager.specs.declared.call.Call.TheVariants as call;
ghost use Rattle.manager.specs.declared.call.Reply.TheVariants as reply;
ghost use Rattle.manager.specs.Journal.{FitsWord};
ghost use Rattle.manager.specs.Outcome.{Happens, replied};

use crate::call::{Call, Reply};
use crate::manager::Manager;
use crate::refusal::Refusal;
use crate::tick::Tick;
use library::Library;
use port::Port;
use socket::Answer;

impl<L: Library, P: Port> Manager<L, P> {
    #[tactic(auto, using(crate::proofs::PortCalls::quiet_write))]
    pub(crate) fn do_write(
        &mut self,
        socket: u32,
        bank: u32,
        select: u32,
        word: u32,
    ) -> Result<Answer, Refusal>
        ensures happens { Happens (L.Library.cell self.old.library) (call.Write socket bank select word) self.old.cabinet (P.Port.means self.old.port) (replied reply.Written result) self.new.cabinet (P.Port.means self.new.port) }
        ensures library { self.new.library ≡ self.old.library }
        ensures refused { OnErr result (self.new ≡ self.old) }
    {
        self.cabinet.write(socket, bank, select, word)
    }

    #[tactic(auto, using(crate::proofs::PortCalls::quiet_read, crate::proofs::PortCalls::same_read))]
    pub(crate) fn do_read(&self, socket: u32, bank: u32, select: u32) -> Result<u32, Refusal>
        ensures happens { Happens (L.Library.cell self.now.library) (call.Read socket bank select) self.now.cabinet (P.Port.means self.now.port) (replied reply.Read result) self.now.cabinet (P.Port.means self.now.port) }
    {
        self.cabinet.read(socket, bank, select)
    }

    pub(crate) fn do_acknowledge(&mut self, socket: u32, level: u32) -> Result<(), Refusal>
        ensures happens { Happens (L.Library.cell self.old.library) (call.Acknowledge socket level) self.old.cabinet (P.Port.means self.old.port) (replied (λ _. reply.Acknowledged) result) self.new.cabinet (P.Port.means self.new.port) }
        ensures library { self.new.library ≡ self.old.library }
        ensures refused { OnErr result (self.new ≡ self.old) }
    {
        self.cabinet.acknowledge(socket, level)
    }

    pub(crate) fn do_outputs(&self, socket: u32) -> Result<u8, Refusal>
        ensures happens { Happens (L.Library.cell self.now.library) (call.Outputs socket) self.now.cabinet (P.Port.means self.now.port) (replied reply.Outputs result) self.now.cabinet (P.Port.means self.now.port) }
    {
        self.cabinet.outputs(socket)
    }

    pub(crate) fn do_tick(&mut self) -> Result<Tick, Refusal>
        ensures happens { Happens (L.Library.cell self.old.library) call.Tick self.old.cabinet (P.Port.means self.old.port) (replied reply.Ticked result) self.new.cabinet (P.Port.means self.new.port) }
        ensures library { SameMeaning L.Library.layer L.Library.cell self.old.library self.new.library }
        ensures refused { OnErr result (self.new ≡ self.old) }
    {
        if self.cabinet.ticks >= self.cabinet.ceiling {
            return Err(Refusal::CeilingReached);
        }
        self.cabinet.step();
        self.cabinet.ticks += 1;
        Ok(self.serve())
    }

    // Gives the socket that had the port.
    pub(crate) fn do_reset(&mut self) -> Option<u8>
        ensures happens { Happens (L.Library.cell self.old.library) call.Reset self.old.cabinet (P.Port.means self.old.port) (Ok (reply.Reset result)) self.new.cabinet (P.Port.means self.new.port) }
        ensures library { self.new.library ≡ self.old.library }
    {
        let had = self.cabinet.grant.map(|grant| grant.socket);
        if had.is_some() {
            let _ = self.port.close();
        }
        self.cabinet.reset();
        had
    }

    // Any of the calls, by its value.
    pub(crate) fn do_call(&mut self, call: Call) -> Result<Reply, Refusal>
        ensures happens { Happens (L.Library.cell self.old.library) call self.old.cabinet (P.Port.means self.old.port) result self.new.cabinet (P.Port.means self.new.port) }
        ensures library { SameMeaning L.Library.layer L.Library.cell self.old.library self.new.library }
        ensures refused { OnErr result (self.new ≡ self.old) }
        ensures fits { FitsWord call }
    {
        match call {
            Call::Write {
                socket,
                bank,
                select,
                word,
            } => Ok(Reply::Written(self.do_write(socket, bank, select, word)?)),
            Call::Read {
                socket,
                bank,
                select,
            } => Ok(Reply::Read(self.do_read(socket, bank, select)?)),
            Call::Acknowledge { socket, level } => {
                self.do_acknowledge(socket, level)?;
                Ok(Reply::Acknowledged)
            }
            Call::Outputs { socket } => Ok(Reply::Outputs(self.do_outputs(socket)?)),
            Call::Tick => Ok(Reply::Ticked(self.do_tick()?)),
            Call::Reset => Ok(Reply::Reset(self.do_reset())),
        }
    }
}
