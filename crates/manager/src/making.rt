// Putting a manager together, and taking it apart.
ghost use Rattle.library.specs.Fault.{Cell};
ghost use Rattle.std.specs.Prelude.{◌≡◌, ℕ, ◌≤◌, [], replicate, is_some, if◌then◌else◌, Ok, Err, IfOk, MatchResult};
ghost use Rattle.manager.specs.Making.{IsChecked, IsMade, IsNone, answer_of, making_answer};
ghost use Rattle.manager.specs.Journal.{Run, made_cabinet};
ghost use Rattle.socket.specs.Socket.{fresh_socket};

use crate::cabinet::Cabinet;
use crate::manager::Manager;
use crate::refusal::Refusal;
use arrayvec::ArrayVec;
use library::Library;
use port::Port;
use socket::{Capacity, Socket};

// `n` sockets, empty and in shutdown.
fn new_sockets(n: u8, capacity: Capacity) -> ArrayVec<Socket, 8>
    requires { n ≤ 8 }
    ensures { result.items ≡ replicate n (fresh_socket capacity) }
{
    let mut sockets = ArrayVec::from_array_in((), [Socket::new(capacity); 8]);
    sockets.truncate(usize::from(n));
    sockets
}

impl Cabinet {
    fn new(n: u8, capacity: Capacity, ceiling: u32) -> Cabinet
        requires { n ≤ 8 }
        ensures { result ≡ made_cabinet capacity n ceiling }
    {
        Cabinet {
            capacity,
            sockets: new_sockets(n, capacity),
            ceiling,
            ticks: 0,
            last: n.saturating_sub(1),
            grant: None,
        }
    }
}

// The numbers that a manager can be made of, or the refusal.
fn check_numbers(
    sockets: u32,
    modules: u32,
    triggers: u32,
    ceiling: u32,
) -> Result<Capacity, Refusal>
    ensures { IsChecked sockets modules triggers ceiling result }
{
    let capacity = Capacity::new(modules, triggers).ok_or(Refusal::BadNumber)?;
    if sockets == 0 || sockets > 8 || ceiling == 0 {
        return Err(Refusal::BadNumber);
    }
    Ok(capacity)
}

// A cabinet that the port can serve, or the refusal.
fn make_cabinet<P: Port>(
    sockets: u32,
    modules: u32,
    triggers: u32,
    ceiling: u32,
    port: &P,
) -> Result<Cabinet, Refusal>
    ensures answer { making_answer sockets modules triggers ceiling (P.Port.means port.now) ≡ answer_of result }
    ensures made { IfOk result (IsMade sockets modules triggers ceiling) }
{
    let capacity = check_numbers(sockets, modules, triggers, ceiling)?;
    if port.opened().is_some() || port.partitions() < sockets {
        return Err(Refusal::BadPort);
    }
    Ok(Cabinet::new(sockets as u8, capacity, ceiling))
}

impl<L: Library, P: Port> Manager<L, P> {
    // It always gives a manager: where the making is refused one of no sockets, which accepts no tick.
    #[tactic(auto, using(crate::proofs::Makings::run_made))]
    pub fn new(
        sockets: u32,
        modules: u32,
        triggers: u32,
        ceiling: u32,
        library: L,
        port: P,
    ) -> (Manager<L, P>, Result<(), Refusal>)
        ensures answer { result.1 ≡ making_answer sockets modules triggers ceiling (P.Port.means port) }
        ensures made { MatchResult result.1 (λ _. IsMade sockets modules triggers ceiling result.0.cabinet) (λ _. IsNone result.0.cabinet) }
        ensures library { result.0.library ≡ library }
        ensures port { result.0.port ≡ port }
        ensures run { (cells : ℕ → Cell) → Run cells (P.Port.means port) [] result.0.cabinet (P.Port.means result.0.port) }
    {
        match make_cabinet(sockets, modules, triggers, ceiling, &port) {
            Ok(cabinet) => {
                let manager = Manager {
                    cabinet,
                    library,
                    port,
                };
                (manager, Ok(()))
            }
            Err(refusal) => {
                let manager = Manager {
                    cabinet: Cabinet::new(0, Capacity::default(), 0),
                    library,
                    port,
                };
                (manager, Err(refusal))
            }
        }
    }

    // Gives library and port back.
    pub fn into_parts(self) -> (L, P)
        ensures library { result.0 ≡ self.library }
        ensures port { result.1 ≡ self.port }
    {
        let Manager { library, port, .. } = self;
        (library, port)
    }
}
