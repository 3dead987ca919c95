// Many calls of a manager.
ghost use Rattle.std.specs.Prelude.{◌≡◌, min, length, take, drop};
ghost use Rattle.library.specs.Library.{SameMeaning};
ghost use Rattle.manager.specs.Play.{Plays, PlaysLawfully};

use crate::call::{Call, Reply};
use crate::manager::Manager;
use crate::refusal::Refusal;
use library::Library;
use port::Port;

impl<L: Library, P: Port> Manager<L, P> {
    // Makes calls in order, as far as there is room for their replies, and tells how many.
    pub fn play(&mut self, calls: &[Call], replies: &mut [Result<Reply, Refusal>]) -> usize
        ensures count { result ≡ min (length calls.now) (length replies.old) }
        ensures rest { drop result replies.new ≡ drop result replies.old }
        ensures plays { Plays (L.Library.cell self.old.library) (take result calls.now) (take result replies.new) self.old.cabinet (P.Port.means self.old.port) self.new.cabinet (P.Port.means self.new.port) }
        ensures library { SameMeaning L.Library.layer L.Library.cell self.old.library self.new.library }
        ensures lawful { PlaysLawfully (L.Library.cell self.old.library) (take result calls.now) (take result replies.new) self.old.cabinet (P.Port.means self.old.port) self.new.cabinet (P.Port.means self.new.port) }
    {
        let count = calls.len().min(replies.len());
        for (i, call) in calls[..count].iter().enumerate() {
            replies[i] = self.do_call(*call);
        }
        count
    }
}
