ghost use Rattle.std.specs.Prelude.{◌<◌, length};

use crate::draft::Draft;

/// A graph: a draft with at least one event.
#[derive(Drop)]
pub struct Graph {
    pub(crate) draft: Draft,
    ghost some: { 0 < length draft.events.items },
}
