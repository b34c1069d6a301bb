ghost use Rattle.std.specs.Prelude.{◌≡◌, ℕ, ◌+◌, ◌<◌, [], ◌∷◌, ◌++◌, length, Some, None, MatchResult};
ghost use Rattle.graph.specs.Content.{Content};
ghost use Rattle.graph.specs.Held.{content, held};
ghost use Rattle.text.specs.Declarations.{declarations};
ghost use Rattle.text.specs.Faults.{told};
ghost use Rattle.text.specs.Reading.{Refused, Writes, breaks};
ghost use Rattle.text.specs.declared.fault.Report.{Report};

use crate::declaration::Declaration;
use crate::fault::GraphFault;
use crate::parser::{Entries, Entry};
use graph::draft::Draft;
use graph::graph::Graph;

/// The draft that the first line begins, or its fault.
fn begin(first: Entry) -> Result<Draft, GraphFault>
    ensures { MatchResult result (λ d. declarations (held d) ≡ first.declaration ∷ [])
        (λ f. (0 < breaks None first.declaration) × (told f ≡ record { number = breaks None first.declaration; layer = 3; line = first.line })) }
{
    let line = first.line;
    let Declaration::Stations { stations, release } = first.declaration else {
        return Err(GraphFault::Order(line));
    };
    // A `match`: through the closure of a `map_err` the draft, of 1.8 KiB, would be copied twice more.
    match Draft::new(stations, release) {
        Ok(draft) => Ok(draft),
        Err(error) => Err(GraphFault::Build { error, line }),
    }
}

/// Adds what one more line declares, or gives its fault.
fn extend(draft: &mut Draft, entry: Entry) -> Result<(), GraphFault>
    ensures { MatchResult result (λ _. declarations (held draft.new) ≡ declarations (held draft.old) ++ entry.declaration ∷ [])
        (λ f. (0 < breaks (Some (held draft.old)) entry.declaration)
        × (told f ≡ record { number = breaks (Some (held draft.old)) entry.declaration; layer = 3; line = entry.line })) }
{
    let line = entry.line;
    let refused = |error| GraphFault::Build { error, line };
    match entry.declaration {
        Declaration::Stations { .. } => Err(GraphFault::Order(line)),
        Declaration::Event { .. } if draft.has_relations() => Err(GraphFault::Order(line)),
        Declaration::Event {
            number,
            owner,
            marks,
        } => draft.add_event(number, owner, marks).map_err(refused),
        Declaration::Relation { kind, from, to } => {
            draft.add_relation(kind, from, to).map_err(refused)
        }
    }
}

/// The graph that the lines declare, or the first fault.
fn build(text: &[u8]) -> Result<Graph, GraphFault>
    ensures { MatchResult result (λ g. Writes text.now (content g)) (λ f. Refused text.now (told f)) }
{
    let mut entries = Entries::try_from(text)?;
    let first = entries.next().ok_or(GraphFault::Order(1))??;
    let mut draft = begin(first)?;
    let mut last = first.line;
    for entry in entries {
        let entry = entry?;
        extend(&mut draft, entry)?;
        last = entry.line;
    }
    draft.finish().ok_or(GraphFault::Order(last + 1))
}

/// The graph that the text writes down, or the text's one fault.
pub fn read(text: &[u8]) -> Result<Graph, GraphFault>
    ensures outcome { MatchResult result (λ g. Writes text.now (content g)) (λ f. Refused text.now (told f)) }
    ensures exact { (c : Content) → Writes text.now c → MatchResult result (λ g. content g ≡ c) (λ _. ⊥) }
    ensures single { (p : Report) → Refused text.now p → MatchResult result (λ _. ⊥) (λ f. told f ≡ p) }
{
    build(text)
}

/// Puts the graph that the text writes down into its place, which a fault leaves as it was.
pub fn read_into(place: &mut Graph, text: &[u8]) -> Result<(), GraphFault>
    ensures { MatchResult result (λ _. Writes text.now (content place.new))
        (λ f. Refused text.now (told f) × (place.new ≡ place.old)) }
{
    *place = read(text)?;
    Ok(())
}
