ghost use Rattle.std.specs.Prelude.{◌≡◌, ◌+◌, ◌<◌, [], ◌∷◌, ◌++◌, length};
ghost use Rattle.stations.specs.Outgoing.{outgoing};

use crate::outbox::Outbox;
use arrayvec::ArrayVec;
use lines::note::Note;
use protocol::delivery::Post;

impl Outbox {
    pub(crate) fn empty() -> Outbox
        ensures { outgoing result ≡ [] }
    {
        Outbox {
            posts: ArrayVec::new(),
        }
    }

    // The station is a number below 8, as the rule gives the owner of an event: a `StationId` would be tested at each post.
    pub(crate) fn single(to: u8, note: Note) -> Outbox
        requires { to < 8 }
        ensures { outgoing result ≡ record { to = to; note = note } ∷ [] }
    {
        let mut out = Outbox::empty();
        out.push(to, note);
        out
    }

    pub(crate) fn push(&mut self, to: u8, note: Note)
        requires { (length (outgoing self.old) < 64) × (to < 8) }
        ensures posts { outgoing self.new ≡ outgoing self.old ++ record { to = to; note = note } ∷ [] }
        ensures count { length (outgoing self.new) ≡ length (outgoing self.old) + 1 }
    {
        self.posts.push(Post { to, note });
    }
}
