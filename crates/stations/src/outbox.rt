ghost use Rattle.std.specs.Prelude.{◌<◌};
ghost use Rattle.std.specs.List.{All};

use arrayvec::ArrayVec;
use protocol::delivery::Post;

mod posting;
mod sending;

/// What a step posts, in order. It can be neither copied nor let go: it is sent.
pub struct Outbox {
    posts: ArrayVec<Post, 64>,
    ghost to_stations: { All (λ post. post.to < 8) posts.items },
}
