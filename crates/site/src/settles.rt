ghost use Rattle.site.specs.Settling.{AllCarried, Settles};
ghost use Rattle.site.specs.Statuses.{site_of, status};
ghost use Rattle.std.specs.Prelude.{◌≡◌, ◌≤◌, length};

use crate::pairs::lowest_pair;
use crate::site::{CarryAnswer, Settlement, Site};
use crate::transfers::transfer;
use lines::line::Line;
use protocol::answer::Answer;
use protocol::delivery::StrayMessage;
use protocol::refusal::Refusal;
use rules::rule::Rule;
use stations::station::Station;

// More messages than a settle of eight stations and 64 events can carry.
const ENOUGH: usize = 1153;

// Carries from the lowest pair that holds a message until none waits, and notes the answers in the table, in order.
fn carry_all<R: Rule, L: Line>(
    rule: &R,
    line: &mut L,
    stations: &mut [Station; 8],
    table: &mut [Answer],
) -> Result<Settlement, StrayMessage>
    requires { (8 ≤ length table.old) × L.Line.sound line.old }
    ensures sound { L.Line.sound line.new }
    ensures settles { AllCarried (R.Rule.meaning rule.now) L.Line.most (site_of (L.Line.waits line.old) stations.old) table.old result table.new (site_of (L.Line.waits line.new) stations.new) }
{
    // Counted beside the table, which is lent: what a zip writes no proof sees.
    let mut answers = 0;
    // A count by `for`: it is a result, and bounds the carries.
    for messages in 0..ENOUGH {
        let Some(pair) = lowest_pair(line) else {
            return Ok(Settlement { answers, messages });
        };
        match transfer(rule, line, stations, pair)? {
            CarryAnswer::Carried => {}
            CarryAnswer::Answered(answer) if answers < 8 => {
                table[answers] = answer;
                answers += 1;
            }
            _ => return Err(StrayMessage),
        }
    }
    Err(StrayMessage)
}

impl<R: Rule + Drop, L: Line + Drop> Site<R, L> {
    /// Carries from the lowest pair that holds a message until none waits, and notes the answers in the table, in order.
    pub fn settle(&mut self, table: &mut [Answer]) -> Result<Settlement, Refusal>
        requires { L.Line.sound self.old.line }
        ensures rule { self.new.rule ≡ self.old.rule }
        ensures sound { L.Line.sound self.new.line }
        ensures settles { Settles (R.Rule.meaning self.old.rule) L.Line.most (status L.Line self.old) table.old result table.new (status L.Line self.new) }
    {
        let stations = self.stations.as_mut().ok_or(Refusal::WrongState)?;
        if table.len() < 8 {
            return Err(Refusal::ShortTable);
        }
        Ok(carry_all(&self.rule, &mut self.line, stations, table)?)
    }
}
