// Calls that name a socket.
ghost use Rattle.std.specs.Prelude.{◌≡◌, ◌<◌, length, OnOk, OnErr, slice_index_or};
ghost use Rattle.manager.specs.declared.call.Reply.TheVariants as reply;
ghost use Rattle.manager.specs.Outcome.{level_outcome, outputs_outcome, read_outcome, replied, write_outcome};
ghost use Rattle.manager.specs.Requests.{known_socket, level_request, register_of, socket_of, write_request};
ghost use Rattle.manager.specs.Sockets.{with_change};
ghost use Rattle.socket.specs.Socket.{fresh_socket, with_level};
ghost use Rattle.socket.specs.Status.{output_bits, read_word};
ghost use Rattle.socket.specs.Writes.{after_write, write_answer};

use crate::cabinet::Cabinet;
use crate::refusal::Refusal;
use socket::{Answer, Capacity, Level, Register, Socket, Write};

#[tactic(auto, using(crate::proofs::Changes::changed_at))]
fn write_at(sockets: &mut [Socket], s: usize, write: Write, capacity: Capacity) -> Answer
    requires { s < length sockets.old }
    ensures answer { result ≡ write_answer capacity write (slice_index_or sockets.old s (fresh_socket capacity)) }
    ensures after { sockets.new ≡ with_change (after_write capacity write) s sockets.old }
{
    sockets[s].write(write, capacity)
}

#[tactic(auto, using(crate::proofs::Changes::changed_at))]
fn acknowledge_at(sockets: &mut [Socket], s: usize, level: Level)
    requires { s < length sockets.old }
    ensures { sockets.new ≡ with_change (λ x. with_level x level) s sockets.old }
{
    sockets[s].acknowledge(level);
}

impl Cabinet {
    fn known_socket(&self, s: u32) -> Result<(), Refusal>
        ensures value { result ≡ known_socket self.now s }
        ensures bound { OnOk result (s < length self.now.sockets.items) }
    {
        if (s as usize) < self.sockets.len() {
            Ok(())
        } else {
            Err(Refusal::NoSocket)
        }
    }

    fn register_of(&self, s: u32, bank: u32, select: u32) -> Result<Register, Refusal>
        ensures value { result ≡ register_of self.now s bank select }
        ensures bound { OnOk result (s < length self.now.sockets.items) }
    {
        self.known_socket(s)?;
        Ok(Register::at(bank, select, self.capacity)?)
    }

    fn write_request(&self, s: u32, bank: u32, select: u32, word: u32) -> Result<Write, Refusal>
        ensures value { result ≡ write_request self.now s bank select word }
        ensures bound { OnOk result (s < length self.now.sockets.items) }
    {
        let register = self.register_of(s, bank, select)?;
        Ok(Write::new(register, word, self.capacity)?)
    }

    fn level_request(&self, s: u32, level: u32) -> Result<Level, Refusal>
        ensures value { result ≡ level_request self.now s level }
        ensures bound { OnOk result (s < length self.now.sockets.items) }
    {
        self.known_socket(s)?;
        Ok(Level::try_from(level)?)
    }

    pub(crate) fn write(
        &mut self,
        s: u32,
        bank: u32,
        select: u32,
        word: u32,
    ) -> Result<Answer, Refusal>
        ensures reply { replied reply.Written result ≡ (write_outcome self.old s (write_request self.old s bank select word)).reply }
        ensures after { self.new ≡ (write_outcome self.old s (write_request self.old s bank select word)).cabinet }
        ensures refused { OnErr result (self.new ≡ self.old) }
    {
        let write = self.write_request(s, bank, select, word)?;
        Ok(write_at(
            self.sockets.as_mut_slice(),
            s as usize,
            write,
            self.capacity,
        ))
    }

    pub(crate) fn read(&self, s: u32, bank: u32, select: u32) -> Result<u32, Refusal>
        ensures { replied reply.Read result ≡ (read_outcome self.now s (register_of self.now s bank select)).reply }
    {
        let register = self.register_of(s, bank, select)?;
        Ok(self.sockets.as_slice()[s as usize].read(register))
    }

    pub(crate) fn acknowledge(&mut self, s: u32, level: u32) -> Result<(), Refusal>
        ensures reply { replied (λ _. reply.Acknowledged) result ≡ (level_outcome self.old s (level_request self.old s level)).reply }
        ensures after { self.new ≡ (level_outcome self.old s (level_request self.old s level)).cabinet }
    {
        let level = self.level_request(s, level)?;
        acknowledge_at(self.sockets.as_mut_slice(), s as usize, level);
        Ok(())
    }

    pub(crate) fn outputs(&self, s: u32) -> Result<u8, Refusal>
        ensures { replied reply.Outputs result ≡ (outputs_outcome self.now s (known_socket self.now s)).reply }
    {
        self.known_socket(s)?;
        Ok(self.sockets.as_slice()[s as usize].outputs())
    }
}
