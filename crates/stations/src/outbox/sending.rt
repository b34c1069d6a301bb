ghost use Rattle.std.specs.Prelude.{◌≡◌, ℕ, ◌-◌, ◌<◌, true, length, is_ok, if◌then◌else◌, slice_index};
ghost use Rattle.std.specs.List.{All};
ghost use Rattle.protocol.specs.Queues.{post_all, queues, room_for};
ghost use Rattle.stations.specs.Outgoing.{outgoing};
ghost use Rattle.stations.specs.Paths.{Along};

use crate::outbox::Outbox;
use crate::station_id::StationId;
use lines::line::Line;
use protocol::delivery::{Post, StrayMessage};

// How many more messages each list from the station takes.
fn room_from<L: Line>(line: &L, from: u8) -> [usize; 8]
    requires { L.Line.sound line.now }
    ensures long { length result ≡ 8 }
    ensures room { (k : ℕ) → k < 8 → slice_index result k ≡ L.Line.most - length (queues (L.Line.waits line.now) from k) }
{
    StationId::all().map(
        |to|
            requires { L.Line.sound line.now }
        { line.limit().saturating_sub(line.count(from, to.into())) },
    )
}

// Whether the line has room for all the posts.
fn has_room<L: Line>(posts: &[Post], line: &L, from: u8) -> bool
    requires { L.Line.sound line.now × All (λ post. post.to < 8) posts.now }
    ensures { result ≡ room_for L.Line.most (queues (L.Line.waits line.now)) from posts.now }
{
    let mut room = room_from(line, from);
    for post in posts {
        let to = usize::from(post.to);
        if room[to] == 0 {
            return false;
        }
        room[to] -= 1;
    }
    true
}

// Puts all the posts, for which there is room, on the line, in order.
fn post_all<L: Line>(posts: &[Post], line: &mut L, from: u8)
    requires { (from < 8) × (L.Line.sound line.old × (All (λ post. post.to < 8) posts.now × (room_for L.Line.most (queues (L.Line.waits line.old)) from posts.now ≡ true))) }
    ensures kept { L.Line.sound line.new }
    ensures beside { Along L.Line.beside line.old line.new }
    ensures lists { queues (L.Line.waits line.new) ≡ post_all (queues (L.Line.waits line.old)) from posts.now }
{
    for post in posts {
        let _ = line.post(from, post.to, post.note.into());
    }
}

impl Outbox {
    /// Posts everything from the station, in order, if the line has room for all of it, and else posts nothing.
    pub fn send<L: Line>(self, line: &mut L, me: StationId) -> Result<(), StrayMessage>
        requires { L.Line.sound line.old }
        ensures kept { L.Line.sound line.new }
        ensures beside { Along L.Line.beside line.old line.new }
        ensures answer { is_ok result ≡ room_for L.Line.most (queues (L.Line.waits line.old)) me (outgoing self) }
        ensures lists { queues (L.Line.waits line.new) ≡ (if is_ok result then post_all (queues (L.Line.waits line.old)) me (outgoing self) else queues (L.Line.waits line.old)) }
    {
        let from = u8::from(me);
        let Outbox { posts } = self;
        let posts = posts.as_slice();
        if !has_room(posts, line, from) {
            return Err(StrayMessage);
        }
        post_all(posts, line, from);
        Ok(())
    }
}
