ghost use Rattle.events.specs.Marks.{marks};
ghost use Rattle.runs.specs.Tables.{Tells, leaves};
ghost use Rattle.std.specs.Prelude.{◌≡◌, ℕ};

use protocol::answer::Answer;
use protocol::call::{Outcome, Reply};
use rules::rule::Rule;
use tables::table::Table;

/// A call of a table.
#[derive(Clone, Copy)]
pub enum TableCall {
    /// Asks for an event.
    Request(u8),
    /// Asks for the enabled and the owed events.
    WorkList,
}

/// Makes the call.
pub fn serve_table<R: Rule + Drop>(table: &mut Table<R>, call: TableCall) -> Outcome
    ensures rule { table.new.rule ≡ table.old.rule }
    ensures answer { Tells (R.Rule.meaning table.old.rule) (marks table.old.marking) call result }
    ensures marking { (k : ℕ) → marks table.new.marking k ≡ leaves (R.Rule.meaning table.old.rule) (marks table.old.marking) call k }
{
    match call {
        TableCall::Request(event) => {
            let decision = table.request(event)?;
            Ok(Reply::Answered(Answer { event, decision }))
        }
        TableCall::WorkList => Ok(Reply::Listed {
            enabled: table.enabled(),
            owed: table.owed(),
        }),
    }
}
