// The whole case on P, idle and stop, ended sessions, and no members, as tables.
use crate::desk::Row::{Ask, Cause, Lend, Open, Owner, Rest, Start, Take};
use crate::desk::{
    ABORT, COMPLETE, CONFIRM, FINITE, HELLO, NEVER, NONE, PAYLOAD, PUBLISH, Row, STOP,
};

// 01's whole case on P, identity 5.
pub const WHOLE: [Row; 14] = [
    Open(5),
    Ask([0, HELLO, 5, NONE, 0, 0, 0]),
    Ask([1, HELLO, 5, NONE, 0, 0, 0]),
    Ask([0, PUBLISH, 1, FINITE, 0, 0, 0]),
    Ask([1, PUBLISH, 1, FINITE, 10, 0, 0]),
    Ask([0, PAYLOAD, 0, FINITE, 10, 0, 77]),
    Ask([0, COMPLETE, 0, FINITE, 0, 0, 0]),
    Ask([0, PUBLISH, 2, NONE, 0, 0, 0]),
    Ask([1, COMPLETE, 0, FINITE, 10, 0, 0]),
    Ask([1, PUBLISH, 2, NONE, 0, 0, 0]),
    Ask([0, CONFIRM, 2, NONE, 0, 0, 0]),
    Ask([1, CONFIRM, 2, NONE, 0, 0, 0]),
    Ask([0, STOP, 0, NONE, 0, 0, 0]),
    Ask([1, STOP, 0, NONE, 0, 0, 0]),
];

// Both confirm and both stop, in every order.
pub const ORDERS: [Row; 28] = [
    // confirmed 0, 1 and stopped 0, 1
    Start(5),
    Ask([0, PUBLISH, 1, NONE, 0, 0, 0]),
    Ask([1, PUBLISH, 1, NONE, 0, 0, 0]),
    Ask([0, CONFIRM, 1, NONE, 0, 0, 0]),
    Ask([1, CONFIRM, 1, NONE, 0, 0, 0]),
    Ask([0, STOP, 0, NONE, 0, 0, 0]),
    Ask([1, STOP, 0, NONE, 0, 0, 0]),
    // confirmed 0, 1 and stopped 1, 0
    Start(5),
    Ask([1, PUBLISH, 1, NONE, 0, 0, 0]),
    Ask([0, PUBLISH, 1, NONE, 0, 0, 0]),
    Ask([0, CONFIRM, 1, NONE, 0, 0, 0]),
    Ask([1, CONFIRM, 1, NONE, 0, 0, 0]),
    Ask([1, STOP, 0, NONE, 0, 0, 0]),
    Ask([0, STOP, 0, NONE, 0, 0, 0]),
    // confirmed 1, 0 and stopped 0, 1; member 1 confirms before the other has published
    Start(5),
    Ask([1, PUBLISH, 1, NONE, 0, 0, 0]),
    Ask([1, CONFIRM, 1, NONE, 0, 0, 0]),
    Ask([0, PUBLISH, 1, NONE, 0, 0, 0]),
    Ask([0, CONFIRM, 1, NONE, 0, 0, 0]),
    Ask([0, STOP, 0, NONE, 0, 0, 0]),
    Ask([1, STOP, 0, NONE, 0, 0, 0]),
    // confirmed 1, 0 and stopped 1, 0
    Start(5),
    Ask([0, PUBLISH, 1, NONE, 0, 0, 0]),
    Ask([1, PUBLISH, 1, NONE, 0, 0, 0]),
    Ask([1, CONFIRM, 1, NONE, 0, 0, 0]),
    Ask([0, CONFIRM, 1, NONE, 0, 0, 0]),
    Ask([1, STOP, 0, NONE, 0, 0, 0]),
    Ask([0, STOP, 0, NONE, 0, 0, 0]),
];

// Idle at revision 1, and again at 2.
pub const AGAIN: [Row; 27] = [
    // member 0 publishes none at 2, confirms it twice, and is idle again; then member 1
    Rest(5),
    Ask([0, PUBLISH, 2, NONE, 0, 0, 0]),
    Ask([0, CONFIRM, 2, NONE, 0, 0, 0]),
    Ask([0, CONFIRM, 2, NONE, 0, 0, 0]),
    Ask([1, PUBLISH, 2, NONE, 0, 0, 0]),
    Ask([1, CONFIRM, 2, NONE, 0, 0, 0]),
    Ask([1, STOP, 0, NONE, 0, 0, 0]),
    Ask([0, STOP, 0, NONE, 0, 0, 0]),
    // member 1 stops at 1; member 0 is idle again alone, and stops at 2 with 3 published
    Rest(5),
    Ask([0, PUBLISH, 2, NONE, 0, 0, 0]),
    Ask([1, STOP, 0, NONE, 0, 0, 0]),
    Ask([0, CONFIRM, 2, NONE, 0, 0, 0]),
    Ask([0, PUBLISH, 3, NONE, 0, 0, 0]),
    Ask([0, STOP, 0, NONE, 0, 0, 0]),
    // a newer publication clears what was confirmed
    Start(5),
    Ask([0, PUBLISH, 1, NONE, 0, 0, 0]),
    Ask([0, CONFIRM, 1, NONE, 0, 0, 0]),
    Ask([0, PUBLISH, 2, NONE, 0, 0, 0]),
    Ask([1, PUBLISH, 1, NONE, 0, 0, 0]),
    Ask([1, CONFIRM, 1, NONE, 0, 0, 0]),
    Ask([0, CONFIRM, 2, NONE, 0, 0, 0]),
    // the same publication leaves it
    Start(5),
    Ask([0, PUBLISH, 1, NONE, 0, 0, 0]),
    Ask([0, CONFIRM, 1, NONE, 0, 0, 0]),
    Ask([0, PUBLISH, 1, NONE, 0, 0, 0]),
    Ask([1, PUBLISH, 1, NONE, 0, 0, 0]),
    Ask([1, CONFIRM, 1, NONE, 0, 0, 0]),
];

// A tag in transit keeps both from idle until it is completed; then Complete while idle: at completed, and past it.
pub const LATE: [Row; 16] = [
    Start(5),
    Ask([0, PUBLISH, 1, FINITE, 0, 0, 0]),
    Ask([1, PUBLISH, 1, FINITE, 10, 0, 0]),
    Ask([0, PAYLOAD, 0, FINITE, 10, 0, 77]),
    Ask([0, COMPLETE, 0, FINITE, 0, 0, 0]),
    Ask([0, PUBLISH, 2, NONE, 0, 0, 0]),
    Ask([1, PUBLISH, 2, NONE, 0, 0, 0]),
    Ask([0, CONFIRM, 2, NONE, 0, 0, 0]),
    Ask([1, CONFIRM, 2, NONE, 0, 0, 0]),
    Ask([1, COMPLETE, 0, FINITE, 10, 0, 0]),
    Ask([1, COMPLETE, 0, FINITE, 10, 0, 0]),
    Ask([1, COMPLETE, 0, FINITE, 25, 3, 0]),
    Ask([0, COMPLETE, 0, FINITE, 7, 0, 0]),
    Ask([0, STOP, 0, NONE, 0, 0, 0]),
    Ask([1, COMPLETE, 0, FINITE, 30, 0, 0]),
    Ask([1, STOP, 0, NONE, 0, 0, 0]),
];

// Ended sessions: Failed to the member word that is given; cause and code stay.
pub const ENDED: [Row; 18] = [
    // a member's abort
    Start(5),
    Ask([1, ABORT, 7, NONE, 0, 0, 0]),
    Ask([0, HELLO, 5, NONE, 0, 0, 0]),
    Ask([1, PUBLISH, 1, FINITE, 3, 0, 0]),
    Ask([2, STOP, 0, NONE, 0, 0, 0]),
    Ask([4294967296, CONFIRM, 1, NONE, 0, 0, 0]),
    Ask([18446744073709551615, COMPLETE, 0, FINITE, 1, 0, 0]),
    Ask([0, ABORT, 8, NONE, 0, 0, 0]),
    Owner(9),
    Ask([0, PAYLOAD, 0, FINITE, 10, 0, 77]),
    // the owner's abort, before anyone has joined
    Open(5),
    Owner(9),
    Owner(10),
    Ask([1, ABORT, 11, NONE, 0, 0, 0]),
    Ask([18446744073709551615, HELLO, 6, NONE, 0, 0, 0]),
    // the owner's abort with the largest code
    Start(5),
    Owner(18446744073709551615),
    Ask([0, STOP, 0, NONE, 0, 0, 0]),
];

// A code is given only with cause 20, whatever a state holds.
pub const CODES: [Row; 17] = [
    Start(5),
    Ask([0, PUBLISH, 1, NEVER, 0, 0, 0]),
    Owner(9),
    Ask([0, ABORT, 9, NONE, 0, 0, 0]),
    Ask([3, STOP, 0, NONE, 0, 0, 0]),
    Cause(24, 9),
    Ask([0, STOP, 0, NONE, 0, 0, 0]),
    Owner(3),
    Cause(20, 9),
    Ask([0, STOP, 0, NONE, 0, 0, 0]),
    Owner(3),
    Cause(18446744073709551615, 9),
    Ask([0, STOP, 0, NONE, 0, 0, 0]),
    Owner(3),
    // no cause: the session goes on, and what ends it leaves no code
    Cause(0, 9),
    Ask([0, PUBLISH, 1, NONE, 0, 0, 0]),
    Ask([0, STOP, 0, NONE, 0, 0, 0]),
];

// A plan without members is finished from the start.
pub const EMPTY: [Row; 23] = [
    Open(9),
    Owner(4),
    Owner(5),
    Ask([0, STOP, 0, NONE, 0, 0, 0]),
    Open(9),
    Ask([0, HELLO, 9, NONE, 0, 0, 0]),
    Ask([0, HELLO, 9, NONE, 0, 0, 0]),
    Ask([18446744073709551615, STOP, 0, NONE, 0, 0, 0]),
    Owner(4),
    // an abort from a member that is unknown, as all are
    Open(9),
    Ask([3, ABORT, 6, NONE, 0, 0, 0]),
    Ask([3, ABORT, 7, NONE, 0, 0, 0]),
    Owner(8),
    // no slab, and seven delivery words; six are too few
    Lend(0),
    Take(6),
    Open(9),
    Ask([0, HELLO, 9, NONE, 0, 0, 0]),
    Owner(4),
    Take(7),
    Ask([18446744073709551615, ABORT, 6, NONE, 0, 0, 0]),
    Ask([18446744073709551615, STOP, 0, NONE, 0, 0, 0]),
    Lend(130),
    Take(40),
];
