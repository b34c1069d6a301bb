use crate::play::{Case, Play};
use protocol::call::Call;
use runs::table::TableCall;

pub const CASES: [Case; 9] = [
    Case {
        title: "one settle after another",
        text: CHAINED,
        play: Play::Site(&ONE_AFTER_ANOTHER),
    },
    Case {
        title: "the second request is carried first",
        text: CHAINED,
        play: Play::Site(&SECOND_FIRST),
    },
    Case {
        title: "the first request is carried first",
        text: CHAINED,
        play: Play::Site(&FIRST_FIRST),
    },
    Case {
        title: "refused requests",
        text: CHAINED,
        play: Play::Site(&REFUSED),
    },
    Case {
        title: "an event that excludes itself",
        text: b"s 1 6\ne 0 0 4\nx 0 0\n",
        play: Play::Table(&TWICE),
    },
    Case {
        title: "an event that responds to itself",
        text: b"s 1 6\ne 0 0 4\nr 0 0\n",
        play: Play::Table(&ONCE_AND_LIST),
    },
    Case {
        title: "an excluded condition source",
        text: b"s 1 6\ne 0 0 0\ne 1 0 4\nc 0 1\n",
        play: Play::Table(&SECOND_EVENT),
    },
    Case {
        title: "a milestone holds until it is done",
        text: b"s 1 6\ne 0 0 6\ne 1 0 4\nm 0 1\n",
        play: Play::Table(&SECOND_FIRST_SECOND),
    },
    Case {
        title: "an empty text",
        text: b"",
        play: Play::Fault,
    },
];

/// Event 1 needs event 0 and event 2 needs event 1, and after event 0 event 1 is owed.
const CHAINED: &[u8] = b"s 2 6\ne 0 0 4\ne 1 1 4\ne 2 0 4\nc 0 1\nc 1 2\nr 0 1\n";

const ONE_AFTER_ANOTHER: [Call; 6] = [
    Call::Start,
    Call::Request {
        station: 1,
        event: 1,
    },
    Call::Settle { room: 8 },
    Call::Request {
        station: 0,
        event: 0,
    },
    Call::Settle { room: 8 },
    Call::WorkList,
];

const SECOND_FIRST: [Call; 5] = [
    Call::Start,
    Call::Request {
        station: 0,
        event: 0,
    },
    Call::Request {
        station: 1,
        event: 1,
    },
    Call::Carry { from: 1, to: 0 },
    Call::Settle { room: 8 },
];

const FIRST_FIRST: [Call; 5] = [
    Call::Start,
    Call::Request {
        station: 0,
        event: 0,
    },
    Call::Request {
        station: 1,
        event: 1,
    },
    Call::Carry { from: 0, to: 0 },
    Call::Settle { room: 8 },
];

const REFUSED: [Call; 6] = [
    Call::Start,
    Call::Request {
        station: 5,
        event: 0,
    },
    Call::Request {
        station: 0,
        event: 9,
    },
    Call::Request {
        station: 0,
        event: 1,
    },
    Call::Request {
        station: 0,
        event: 0,
    },
    Call::Request {
        station: 0,
        event: 2,
    },
];

const TWICE: [TableCall; 2] = [TableCall::Request(0), TableCall::Request(0)];

const ONCE_AND_LIST: [TableCall; 2] = [TableCall::Request(0), TableCall::WorkList];

const SECOND_EVENT: [TableCall; 1] = [TableCall::Request(1)];

const SECOND_FIRST_SECOND: [TableCall; 3] = [
    TableCall::Request(1),
    TableCall::Request(0),
    TableCall::Request(1),
];
