ghost use Rattle.std.specs.Prelude.{◌<◌};

use lines::note::Note;

/// A note and the station that it goes to.
#[derive(Clone, Copy)]
pub struct Post {
    pub to: u8,
    pub note: Note,
}

// A post for the places of an `ArrayVec` that are not in use.
impl Default for Post {
    ghost is_default = { λ post. post.to < 8 };

    fn default() -> Post {
        Post {
            to: 0,
            note: Note::Ask { event: 0 },
        }
    }
}

/// A message that fits nothing, or whose posts find a full pair.
#[derive(Clone, Copy)]
pub struct StrayMessage;
