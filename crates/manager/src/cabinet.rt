// The sockets of a cabinet, and which of them has the port.
ghost use Rattle.std.specs.Prelude.{◌≡◌, ◌<◌, IfSome, ◌++◌, length, map, is_some, replicate, find};
ghost use Rattle.socket.specs.Socket.{fresh_socket};
ghost use Rattle.socket.specs.Steps.{after_step, reset_socket};
ghost use Rattle.manager.specs.Sockets.{awaited_at, ended_socket, next_waiting, with_change};

use crate::grant::Grant;
use arrayvec::ArrayVec;
use socket::{Capacity, Error, File, Socket};

#[derive(Drop)]
pub(crate) struct Cabinet {
    pub capacity: Capacity,
    pub sockets: ArrayVec<Socket, 8>,
    // how many ticks are accepted, and how many were
    pub ceiling: u32,
    pub ticks: u32,
    // the socket that had the port last, or has it
    pub last: u8,
    pub grant: Option<Grant>,
}

// The first part of a tick.
fn step_each(sockets: &mut [Socket], capacity: Capacity)
    ensures { sockets.new ≡ map (after_step capacity) sockets.old }
{
    for socket in sockets.iter_mut() {
        socket.step(capacity);
    }
}

fn reset_each(sockets: &mut [Socket])
    ensures { sockets.new ≡ map reset_socket sockets.old }
{
    for socket in sockets.iter_mut() {
        socket.reset();
    }
}

// The file that socket `s` waits for.
fn awaited_at(sockets: &[Socket], s: usize) -> Option<File>
    ensures { result ≡ awaited_at sockets.now s }
{
    sockets.get(s)?.awaited_file()
}

// The first waiting socket, counting up from the one after the last, in a circle.
fn next_waiting(sockets: &[Socket], last: u8) -> Option<usize>
    ensures value { result ≡ next_waiting last sockets.now }
    ensures bound { IfSome result (λ s. s < length sockets.now) }
{
    let after = usize::from(last) + 1;
    (after..sockets.len())
        .chain(0..after)
        .find(|s| awaited_at(sockets, *s).is_some())
}

// The load of socket `s` came to its end, or failed.
fn end_load_at(sockets: &mut [Socket], s: usize, outcome: Result<(), Error>)
    ensures { sockets.new ≡ with_change (ended_socket outcome) s sockets.old }
{
    if s < sockets.len() {
        match outcome {
            Ok(()) => sockets[s].finish_load(),
            Err(error) => sockets[s].fail_load(error),
        }
    }
}

impl Cabinet {
    ghost use Rattle.manager.specs.Cabinet.{after_end, after_steps, with_grant};
    ghost use Rattle.manager.specs.Outcome.{reset_outcome};

    pub(crate) fn step(&mut self)
        ensures { self.new ≡ after_steps self.old }
    {
        step_each(self.sockets.as_mut_slice(), self.capacity);
    }

    // The next socket in the circle that waits.
    pub(crate) fn next_waiting(&self) -> Option<u8>
        ensures { result ≡ next_waiting self.now.last self.now.sockets.items }
    {
        let s = next_waiting(self.sockets.as_slice(), self.last)?;
        Some(s as u8)
    }

    // Socket `s` has the port, for the file that it waits for.
    pub(crate) fn give_port(&mut self, s: u8)
        ensures { self.new ≡ with_grant self.old s }
    {
        self.last = s;
        let file = awaited_at(self.sockets.as_slice(), usize::from(s));
        self.grant = file.map(|file| Grant::new(s, file));
    }

    // No socket has the port any more, and the load of socket `s` ended so.
    pub(crate) fn end_load(&mut self, s: u8, outcome: Result<(), Error>)
        ensures { self.new ≡ after_end self.old s outcome }
    {
        end_load_at(self.sockets.as_mut_slice(), usize::from(s), outcome);
        self.grant = None;
    }

    // Each socket is reset, and no socket has the port.
    pub(crate) fn reset(&mut self)
        ensures { self.new ≡ (reset_outcome self.old).cabinet }
    {
        reset_each(self.sockets.as_mut_slice());
        self.grant = None;
    }
}
