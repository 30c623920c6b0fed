// Refusals 11 to 17, which change nothing, as tables.
use crate::desk::Row::{Ask, Before, Count, Cut, Lend, Note, Open, Owner, Start, Take, Word};
use crate::desk::{
    ABORT, COMPLETE, CONFIRM, FINITE, FOREVER, HELLO, NEVER, NONE, PAYLOAD, PUBLISH, Row, STOP,
};

// A session on P, until member 1 holds a tag.
pub const BEGUN: [Row; 4] = [
    Start(5),
    Ask([0, PUBLISH, 1, FINITE, 0, 0, 0]),
    Ask([1, PUBLISH, 1, FINITE, 10, 0, 0]),
    Ask([0, PAYLOAD, 0, FINITE, 10, 0, 77]),
];

// A session that has ended while member 1 holds a tag.
pub const ABORTED: [Row; 4] = [
    Start(5),
    Ask([0, PUBLISH, 1, FINITE, 0, 0, 0]),
    Ask([0, PAYLOAD, 0, FINITE, 20, 0, 77]),
    Ask([1, ABORT, 7, NONE, 0, 0, 0]),
];

// An opening, a request and the owner's abort.
pub const CALLS: [Row; 3] = [Open(6), Ask([0, COMPLETE, 0, FINITE, 0, 0, 0]), Owner(1)];

// 12: the same calls, then with too few slab words.
pub const FAR: [Row; 13] = [
    Open(6),
    Ask([0, COMPLETE, 0, FINITE, 0, 0, 0]),
    Owner(1),
    Before(12, 13),
    Lend(127),
    Open(6),
    Ask([0, COMPLETE, 0, FINITE, 0, 0, 0]),
    Owner(1),
    Lend(0),
    Open(6),
    Ask([0, COMPLETE, 0, FINITE, 0, 0, 0]),
    Owner(1),
    Lend(130),
];

// 13 to 15, each alone and with the next: a slab word too few, a state that is not well formed, a delivery word too few.
pub const SHORT: [Row; 31] = [
    Note(13),
    Lend(127),
    Open(6),
    Ask([0, COMPLETE, 0, FINITE, 0, 0, 0]),
    Owner(1),
    Before(13, 14),
    Count(3),
    Open(6),
    Ask([0, COMPLETE, 0, FINITE, 0, 0, 0]),
    Owner(1),
    Note(14),
    Lend(130),
    Ask([0, COMPLETE, 0, FINITE, 0, 0, 0]),
    Owner(1),
    Before(14, 15),
    Take(34),
    Ask([0, COMPLETE, 0, FINITE, 0, 0, 0]),
    Owner(1),
    Count(2),
    Note(15),
    Ask([0, COMPLETE, 0, FINITE, 0, 0, 0]),
    Owner(1),
    Take(0),
    Ask([0, COMPLETE, 0, FINITE, 0, 0, 0]),
    Owner(1),
    Take(40),
    // a slab word past the tags of member 1 that is not 0
    Note(14),
    Word(127, 1),
    Ask([0, COMPLETE, 0, FINITE, 0, 0, 0]),
    Owner(1),
    Word(127, 0),
];

// 15 before 16, and 16: not seven words, another kind or class, offset or microstep outside class 1.
pub const MALFORMED: [Row; 21] = [
    Cut(6),
    Take(34),
    Ask([0, COMPLETE, 0, FINITE, 0, 0, 0]),
    Note(16),
    Take(35),
    Ask([0, COMPLETE, 0, FINITE, 0, 0, 0]),
    Cut(0),
    Ask([0, COMPLETE, 0, FINITE, 0, 0, 0]),
    Cut(8),
    Ask([0, COMPLETE, 0, FINITE, 0, 0, 0]),
    Cut(7),
    Take(40),
    Ask([0, 0, 0, NONE, 0, 0, 0]),
    Ask([0, 8, 0, NONE, 0, 0, 0]),
    Ask([0, 4294967297, 5, NONE, 0, 0, 0]),
    Ask([0, PUBLISH, 1, 4, 0, 0, 0]),
    Ask([0, PUBLISH, 1, 18446744073709551615, 0, 0, 0]),
    Ask([0, PUBLISH, 1, NEVER, 1, 0, 0]),
    Ask([0, PUBLISH, 1, FOREVER, 0, 1, 0]),
    Ask([0, PUBLISH, 1, NONE, 1, 0, 0]),
    Ask([0, PUBLISH, 1, NONE, 0, 1, 0]),
];

// 16: an unused word not as said, class 3 in Complete and Payload. Then 16 before 17, and 17, which stands before all that ends a
// session.
pub const UNUSED: [Row; 26] = [
    Ask([0, HELLO, 5, FINITE, 0, 0, 0]),
    Ask([0, HELLO, 5, NONE, 0, 0, 1]),
    Ask([0, PUBLISH, 1, NONE, 0, 0, 1]),
    Ask([0, COMPLETE, 1, FINITE, 0, 0, 0]),
    Ask([0, COMPLETE, 0, FINITE, 0, 0, 1]),
    Ask([0, CONFIRM, 1, NEVER, 0, 0, 0]),
    Ask([0, CONFIRM, 1, NONE, 0, 0, 1]),
    Ask([0, STOP, 1, NONE, 0, 0, 0]),
    Ask([0, STOP, 0, FOREVER, 0, 0, 0]),
    Ask([0, STOP, 0, NONE, 0, 0, 1]),
    Ask([0, ABORT, 1, FINITE, 0, 0, 0]),
    Ask([0, ABORT, 1, NONE, 0, 0, 1]),
    Ask([0, COMPLETE, 0, NONE, 0, 0, 0]),
    Ask([0, PAYLOAD, 0, NONE, 0, 0, 7]),
    Before(16, 17),
    Ask([0, PUBLISH, 1, FINITE, 9223372036854775808, 0, 1]),
    Ask([0, COMPLETE, 1, FINITE, 9223372036854775808, 0, 0]),
    Ask([0, STOP, 0, FINITE, 18446744073709551615, 0, 0]),
    Note(17),
    Ask([0, PUBLISH, 1, FINITE, 9223372036854775808, 0, 0]),
    Ask([
        0,
        COMPLETE,
        0,
        FINITE,
        18446744073709551615,
        18446744073709551615,
        0,
    ]),
    Ask([0, PAYLOAD, 0, FINITE, 9223372036854775808, 0, 77]),
    Before(17, 21),
    Ask([2, PUBLISH, 1, FINITE, 9223372036854775808, 0, 0]),
    Before(17, 26),
    Ask([0, PAYLOAD, 9, FINITE, 9223372036854775808, 0, 77]),
];

// The session goes on as if nothing had been refused.
pub const GOES_ON: [Row; 8] = [
    Ask([0, COMPLETE, 0, FINITE, 0, 0, 0]),
    Ask([0, PUBLISH, 2, NONE, 0, 0, 0]),
    Ask([1, COMPLETE, 0, FINITE, 10, 0, 0]),
    Ask([1, PUBLISH, 2, NONE, 0, 0, 0]),
    Ask([0, CONFIRM, 2, NONE, 0, 0, 0]),
    Ask([1, CONFIRM, 2, NONE, 0, 0, 0]),
    Ask([0, STOP, 0, NONE, 0, 0, 0]),
    Ask([1, STOP, 0, NONE, 0, 0, 0]),
];

// The session has ended as it had.
pub const ENDED: [Row; 3] = [
    Ask([0, COMPLETE, 0, FINITE, 0, 0, 0]),
    Ask([18446744073709551615, STOP, 0, NONE, 0, 0, 0]),
    Owner(1),
];

// An offset of L is not refused.
pub const LARGEST: [Row; 6] = [
    Start(5),
    Ask([
        0,
        PUBLISH,
        1,
        FINITE,
        9223372036854775807,
        18446744073709551615,
        0,
    ]),
    Ask([1, PUBLISH, 1, FINITE, 9223372036854775807, 0, 0]),
    Ask([0, PAYLOAD, 0, FINITE, 9223372036854775807, 0, 77]),
    Ask([
        0,
        COMPLETE,
        0,
        FINITE,
        9223372036854775807,
        18446744073709551615,
        0,
    ]),
    Ask([
        1,
        COMPLETE,
        0,
        FINITE,
        9223372036854775807,
        18446744073709551615,
        0,
    ]),
];
