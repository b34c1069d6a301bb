use events::Marks;

/// An event of a graph: the station that owns it, and its marks at the start.
#[derive(Clone, Copy, Default)]
pub struct Event {
    pub owner: u8,
    pub marks: Marks,
}
