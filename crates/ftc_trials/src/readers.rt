//! Visits that only read, and servers that only keep copies.

use crate::trial::{A, Change, D, NO_EVENTS, Trial};

/// An address translator and a server that passes everything. Packet D reads what packet A wrote.
const TRANSLATOR: &str =
    "f 1\npartitions 4\nnat inside 10.0.0.0/8 outside 203.0.113.5 ports 20000-20009\npass\n";

pub const READERS: [Trial; 3] = [
    Trial {
        name: "a reader passes without an apply",
        chain: TRANSLATOR,
        script: "",
        packets: &[&A, &D],
        schedule: NO_EVENTS,
        journal: "ftc-journal 2
enter 0
visit 0 0 63
pass 0 0
take 0 0
apply 1 0 0 0
visit 1 0 63
pass 1 0
release 0
take 1 0
carry 0
enter 1
visit 0 1 63
pass 0 1
take 0 1
visit 1 1 63
pass 1 1
release 1
take 1 1
carry 1
",
        report: "ftc-report 1
packets 2
released 2
filtered 0
lost 0
fate 0 released
fate 1 released
store 0 3
key 66110a0000051389 4e20
key 6e 00004e21
key 72114e20 0a0000051389
store 1 0
",
        broken: &[
            // The packet comes to the buffer by the pass.
            (Change::Moved { event: 7, to: 6 }, "event 6"),
            // It is due at once: server 1 is the tail of group 0 and has the only visit that packet 0 needs.
            (Change::Moved { event: 8, to: 7 }, "event 7"),
            // The visit changed nothing, so its log is never applied.
            (
                Change::Instead {
                    event: 14,
                    line: "apply 1 1 0 1",
                },
                "event 14",
            ),
            // Server 1 hasn't taken the message as yet.
            (Change::Moved { event: 14, to: 13 }, "event 13"),
        ],
    },
    Trial {
        name: "a reader waits for what it read",
        chain: TRANSLATOR,
        script: "lose 0 0\n",
        packets: &[&A, &D],
        schedule: "ftc-journal 2
enter 0
visit 0 0 0
lose 0 0
enter 1
visit 0 1 0
pass 0 1
take 0 1
visit 1 1 0
",
        journal: "ftc-journal 2
enter 0
visit 0 0 0
lose 0 0
enter 1
visit 0 1 0
pass 0 1
take 0 1
pull 0
visit 1 1 63
pass 1 1
release 1
take 1 1
carry 1
",
        report: "ftc-report 1
packets 2
released 1
filtered 0
lost 1
fate 0 lost 2
fate 1 released
store 0 3
key 66110a0000051389 4e20
key 6e 00004e21
key 72114e20 0a0000051389
store 1 0
",
        broken: &[
            // Server 1 lacks packet 0's visit, which packet 1 read.
            (Change::Moved { event: 8, to: 7 }, "event 7"),
            (Change::LeftOut { event: 7 }, "event 7"),
            // The packet comes to the buffer by the pass, and is due at once.
            (Change::Moved { event: 10, to: 9 }, "event 9"),
            (Change::LeftOut { event: 10 }, "event 10"),
        ],
    },
    Trial {
        name: "a spare server",
        chain: "f 1\npartitions 64\nmonitor 8\nspare\n",
        script: "",
        packets: &[&A],
        schedule: "ftc-journal 1
",
        journal: "ftc-journal 2
enter 0
visit 0 0 63
pass 0 0
take 0 0
apply 1 0 0 0
visit 1 0 63
pass 1 0
release 0
take 1 0
carry 0
",
        report: "ftc-report 1
packets 1
released 1
filtered 0
lost 0
fate 0 released
store 0 1
key 6d0007 0000000000000001
store 1 0
",
        broken: &[
            // The message isn't ready before its log is applied.
            (Change::Moved { event: 5, to: 4 }, "event 4"),
            // A packet visits the spare server too.
            (Change::LeftOut { event: 5 }, "event 5"),
            // The packet comes to the buffer by the pass, and is due at once.
            (Change::Moved { event: 7, to: 6 }, "event 6"),
            (Change::LeftOut { event: 7 }, "event 7"),
        ],
    },
];
