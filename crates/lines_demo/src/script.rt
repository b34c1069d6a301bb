use lines::message::Message;
use lines::play::LineCall;

const ASK: Message = Message {
    kind: 1,
    event: 5,
    extra: 0,
};

const GRANT: Message = Message {
    kind: 2,
    event: 6,
    extra: 7,
};

const SETTLE: Message = Message {
    kind: 3,
    event: 7,
    extra: 1,
};

/// How many calls there are.
pub const LENGTH: usize = 16;

/// The calls: the pair 0, 1 is filled and emptied by one, its neighbours hold one each, and the pair 0, 8 is none.
pub const CALLS: [LineCall; LENGTH] = [
    LineCall::Post {
        from: 0,
        to: 1,
        message: ASK,
    },
    LineCall::Post {
        from: 0,
        to: 1,
        message: GRANT,
    },
    LineCall::Post {
        from: 0,
        to: 2,
        message: GRANT,
    },
    LineCall::Post {
        from: 0,
        to: 1,
        message: SETTLE,
    },
    LineCall::Count { from: 0, to: 1 },
    LineCall::Post {
        from: 0,
        to: 1,
        message: ASK,
    },
    LineCall::Post {
        from: 0,
        to: 1,
        message: GRANT,
    },
    LineCall::Count { from: 0, to: 1 },
    LineCall::Take { from: 0, to: 1 },
    LineCall::Count { from: 0, to: 1 },
    LineCall::Take { from: 1, to: 0 },
    LineCall::Post {
        from: 7,
        to: 7,
        message: SETTLE,
    },
    LineCall::Post {
        from: 0,
        to: 8,
        message: ASK,
    },
    LineCall::Take { from: 0, to: 8 },
    LineCall::Count { from: 8, to: 0 },
    LineCall::Count { from: 0, to: 2 },
];
