ghost use Rattle.protocol.specs.declared.call.Reply.TheVariants.{Listed};
ghost use Rattle.site.specs.Replies.{carry_reply};
ghost use Rattle.std.specs.Prelude.{◌≡◌, None};

use events::EventSet;
use lines::line::Line;
use protocol::answer::Answer;
use protocol::call::Reply;
use rules::rule::Rule;
use stations::station::Station;

/// Stations over a rule and a line.
#[derive(Drop)]
pub struct Site<R: Rule + Drop, L: Line + Drop> {
    pub(crate) rule: R,
    pub(crate) line: L,
    // None before the start: the site is closed.
    pub(crate) stations: Option<[Station; 8]>,
}

/// What a carry gives.
// An option of an option of an answer would not say which of the two is missing.
#[derive(Clone, Copy)]
pub enum CarryAnswer {
    /// No message waits on the pair.
    Nothing,
    Carried,
    /// The receiving station answers its request.
    Answered(Answer),
}

impl From<CarryAnswer> for Reply {
    ghost from_gives = { λ answer reply. reply ≡ carry_reply answer };

    fn from(answer: CarryAnswer) -> Reply {
        match answer {
            CarryAnswer::Nothing => Reply::Nothing,
            CarryAnswer::Carried => Reply::Carried,
            CarryAnswer::Answered(answer) => Reply::Answered(answer),
        }
    }
}

/// What a settle gives: how many answers are in the table, and how many messages were carried.
#[derive(Clone, Copy)]
pub struct Settlement {
    pub answers: usize,
    pub messages: usize,
}

/// The whole site's enabled and owed events.
#[derive(Clone, Copy)]
pub struct WorkList {
    pub enabled: EventSet,
    pub owed: EventSet,
}

impl From<WorkList> for Reply {
    ghost from_gives = { λ list reply. reply ≡ Listed list.enabled list.owed };

    fn from(list: WorkList) -> Reply {
        Reply::Listed {
            enabled: list.enabled,
            owed: list.owed,
        }
    }
}

impl<R: Rule + Drop, L: Line + Drop> Site<R, L> {
    /// A closed site. It takes every line: each call requires a sound one.
    pub fn new(rule: R, line: L) -> Site<R, L>
        ensures rule { result.rule ≡ rule }
        ensures line { result.line ≡ line }
        ensures closed { result.stations ≡ None }
    {
        Site {
            rule,
            line,
            stations: None,
        }
    }
}
