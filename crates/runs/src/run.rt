ghost use Rattle.std.specs.Prelude.{◌≡◌, min, length, take, drop};
ghost use Rattle.protocol.specs.Queues.{queues};
ghost use Rattle.runs.specs.Running.{Lasts, Promised};
ghost use Rattle.site.specs.Served.{CallServed};
ghost use Rattle.site.specs.Statuses.{status};

use lines::line::Line;
use protocol::answer::{Answer, Answers};
use protocol::call::{Call, Outcome, Reply};
use rules::decision::Decision;
use rules::rule::Rule;
use site::site::Site;

// A settle with a table of its own, of so many entries as are asked for, but no more than eight.
fn settle_within<R: Rule + Drop, L: Line + Drop>(site: &mut Site<R, L>, room: usize) -> Outcome
    requires { L.Line.sound site.old.line }
    ensures { CallServed R.Rule L.Line site.old (Call.Settle room) result site.new }
{
    let none = Answer {
        event: 0,
        decision: Decision::Accepted,
    };
    let mut table = [none; 8];
    let settlement = site.settle(&mut table[0..room.min(8)])?;
    let answers = Answers {
        table,
        count: settlement.answers,
    };
    Ok(Reply::Settled {
        answers,
        messages: settlement.messages,
    })
}

/// Makes the call.
pub fn serve<R: Rule + Drop, L: Line + Drop>(site: &mut Site<R, L>, call: Call) -> Outcome
    requires { L.Line.sound site.old.line }
    ensures { CallServed R.Rule L.Line site.old call result site.new }
{
    match call {
        Call::Start => {
            site.start()?;
            Ok(Reply::Started)
        }
        Call::Request { station, event } => {
            site.request(station, event)?;
            Ok(Reply::Opened)
        }
        Call::Carry { from, to } => Ok(site.carry(from, to)?.into()),
        Call::Settle { room } => settle_within(site, room),
        Call::WorkList => Ok(site.work_list()?.into()),
        Call::Tally { station } => {
            let owed = site.tally(station)?;
            Ok(Reply::Tallied { owed })
        }
    }
}

/// Makes one call after another, as long as there is a place for its outcome, and tells how many.
// The caller lends the places beside the calls, so that no memory is taken.
pub fn serve_all<R: Rule + Drop, L: Line + Drop>(
    site: &mut Site<R, L>,
    calls: &[Call],
    outcomes: &mut [Outcome],
) -> usize
    requires { L.Line.sound site.old.line }
    ensures rule { site.new.rule ≡ site.old.rule }
    ensures sound { L.Line.sound site.new.line }
    ensures count { result ≡ min (length calls.now) (length outcomes.old) }
    ensures rest { drop result outcomes.new ≡ drop result outcomes.old }
    ensures promise { Lasts (R.Rule.meaning site.old.rule) L.Line.most (status L.Line site.old) (take result calls.now) (take result outcomes.new) (status L.Line site.new) }
{
    let count = calls.len().min(outcomes.len());
    // The outcomes by index: of what is written through `iter_mut` in a zip a proof knows nothing.
    for (i, call) in calls[..count].iter().enumerate() {
        outcomes[i] = serve(site, *call);
    }
    count
}

/// Puts a site together from a rule and a line, and makes one call after another, as long as there is a place for its outcome.
pub fn run<R: Rule + Drop, L: Line + Drop>(
    rule: R,
    line: L,
    calls: &[Call],
    outcomes: &mut [Outcome],
) -> usize
    requires { L.Line.sound line }
    ensures count { result ≡ min (length calls.now) (length outcomes.old) }
    ensures rest { drop result outcomes.new ≡ drop result outcomes.old }
    ensures promise { Promised (R.Rule.meaning rule) L.Line.most (queues (L.Line.waits line)) (take result calls.now) (take result outcomes.new) }
{
    let mut site = Site::new(rule, line);
    serve_all(&mut site, calls, outcomes)
}
