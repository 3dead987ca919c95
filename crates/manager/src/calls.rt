// The calls of a manager.
ghost use Rattle.std.specs.Prelude.{◌≡◌, Ok, OnErr};
ghost use Rattle.library.specs.Library.{SameMeaning};
ghost use Rattle.manager.specs.declared.call.Call.TheVariants as call;
ghost use Rattle.manager.specs.declared.call.Reply.TheVariants as reply;
ghost use Rattle.manager.specs.Law.{Lawful};
ghost use Rattle.manager.specs.Outcome.{Happens, replied};

use crate::call::{Call, Reply};
use crate::manager::Manager;
use crate::refusal::Refusal;
use crate::tick::Tick;
use library::Library;
use port::Port;
use socket::Answer;

impl<L: Library, P: Port> Manager<L, P> {
    pub fn write(
        &mut self,
        socket: u32,
        bank: u32,
        select: u32,
        word: u32,
    ) -> Result<Answer, Refusal>
        ensures happens { Happens (L.Library.cell self.old.library) (call.Write socket bank select word) self.old.cabinet (P.Port.means self.old.port) (replied reply.Written result) self.new.cabinet (P.Port.means self.new.port) }
        ensures lawful { Lawful (L.Library.cell self.old.library) (call.Write socket bank select word) self.old.cabinet (P.Port.means self.old.port) (replied reply.Written result) self.new.cabinet (P.Port.means self.new.port) }
        ensures library { self.new.library ≡ self.old.library }
        ensures refused { OnErr result (self.new ≡ self.old) }
    {
        self.do_write(socket, bank, select, word)
    }

    pub fn read(&self, socket: u32, bank: u32, select: u32) -> Result<u32, Refusal>
        ensures happens { Happens (L.Library.cell self.now.library) (call.Read socket bank select) self.now.cabinet (P.Port.means self.now.port) (replied reply.Read result) self.now.cabinet (P.Port.means self.now.port) }
        ensures lawful { Lawful (L.Library.cell self.now.library) (call.Read socket bank select) self.now.cabinet (P.Port.means self.now.port) (replied reply.Read result) self.now.cabinet (P.Port.means self.now.port) }
    {
        self.do_read(socket, bank, select)
    }

    pub fn acknowledge(&mut self, socket: u32, level: u32) -> Result<(), Refusal>
        ensures happens { Happens (L.Library.cell self.old.library) (call.Acknowledge socket level) self.old.cabinet (P.Port.means self.old.port) (replied (λ _. reply.Acknowledged) result) self.new.cabinet (P.Port.means self.new.port) }
        ensures lawful { Lawful (L.Library.cell self.old.library) (call.Acknowledge socket level) self.old.cabinet (P.Port.means self.old.port) (replied (λ _. reply.Acknowledged) result) self.new.cabinet (P.Port.means self.new.port) }
        ensures library { self.new.library ≡ self.old.library }
        ensures refused { OnErr result (self.new ≡ self.old) }
    {
        self.do_acknowledge(socket, level)
    }

    pub fn outputs(&self, socket: u32) -> Result<u8, Refusal>
        ensures happens { Happens (L.Library.cell self.now.library) (call.Outputs socket) self.now.cabinet (P.Port.means self.now.port) (replied reply.Outputs result) self.now.cabinet (P.Port.means self.now.port) }
        ensures lawful { Lawful (L.Library.cell self.now.library) (call.Outputs socket) self.now.cabinet (P.Port.means self.now.port) (replied reply.Outputs result) self.now.cabinet (P.Port.means self.now.port) }
    {
        self.do_outputs(socket)
    }

    pub fn tick(&mut self) -> Result<Tick, Refusal>
        ensures happens { Happens (L.Library.cell self.old.library) call.Tick self.old.cabinet (P.Port.means self.old.port) (replied reply.Ticked result) self.new.cabinet (P.Port.means self.new.port) }
        ensures lawful { Lawful (L.Library.cell self.old.library) call.Tick self.old.cabinet (P.Port.means self.old.port) (replied reply.Ticked result) self.new.cabinet (P.Port.means self.new.port) }
        ensures library { SameMeaning L.Library.layer L.Library.cell self.old.library self.new.library }
        ensures refused { OnErr result (self.new ≡ self.old) }
    {
        self.do_tick()
    }

    // Gives the socket that had the port.
    pub fn reset(&mut self) -> Option<u8>
        ensures happens { Happens (L.Library.cell self.old.library) call.Reset self.old.cabinet (P.Port.means self.old.port) (Ok (reply.Reset result)) self.new.cabinet (P.Port.means self.new.port) }
        ensures lawful { Lawful (L.Library.cell self.old.library) call.Reset self.old.cabinet (P.Port.means self.old.port) (Ok (reply.Reset result)) self.new.cabinet (P.Port.means self.new.port) }
        ensures library { self.new.library ≡ self.old.library }
    {
        self.do_reset()
    }

    // Any of the calls, by its value.
    pub fn call(&mut self, call: Call) -> Result<Reply, Refusal>
        ensures happens { Happens (L.Library.cell self.old.library) call self.old.cabinet (P.Port.means self.old.port) result self.new.cabinet (P.Port.means self.new.port) }
        ensures lawful { Lawful (L.Library.cell self.old.library) call self.old.cabinet (P.Port.means self.old.port) result self.new.cabinet (P.Port.means self.new.port) }
        ensures library { SameMeaning L.Library.layer L.Library.cell self.old.library self.new.library }
        ensures refused { OnErr result (self.new ≡ self.old) }
    {
        self.do_call(call)
    }
}
