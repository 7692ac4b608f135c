//! What is lost at a server that is down.

use crate::trial::{A, Change, NO_EVENTS, TWO, Trial};

pub const DOWN: [Trial; 2] = [
    Trial {
        name: "a packet enters at a down server",
        chain: TWO,
        script: "at 1 crash 0\nat 2 recover 0\n",
        packets: &[&A, &A],
        schedule: NO_EVENTS,
        journal: "ftc-journal 2
enter 0
visit 0 0 63
pass 0 0
take 0 0
apply 1 0 0 0
visit 1 0 63
pass 1 0
take 1 0
apply 0 0 1 0
carry 0
crash 0
enter 1
recover 0
pull 0
pull 1
propagate 2
pass 0 2
take 0 2
release 0
pass 1 2
take 1 2
carry 2
",
        report: "ftc-report 1
packets 2
released 1
filtered 0
lost 1
fate 0 released
fate 1 lost 11
store 0 1
key 6d0007 0000000000000001
store 1 1
key 6d0007 0000000000000001
",
        broken: &[
            // A line of the script for one entered packet is still to be done.
            (Change::Moved { event: 11, to: 10 }, "event 10"),
            // Only one packet has entered.
            (Change::Moved { event: 12, to: 11 }, "event 11"),
            // Server 0 is down and holds no message.
            (
                Change::Instead {
                    event: 12,
                    line: "visit 0 1 63",
                },
                "event 12",
            ),
            // No message begins before link 1 has no gap any more.
            (Change::Moved { event: 15, to: 14 }, "event 14"),
            // Server 1 doesn't know as yet that the new server 0 has packet 0's visit at server 1.
            (Change::Moved { event: 18, to: 17 }, "event 17"),
        ],
    },
    Trial {
        name: "a packet passes to a down server",
        chain: TWO,
        script: "at 1 crash 1\nat 1 recover 1\n",
        packets: &[&A],
        schedule: "ftc-journal 2
enter 0
visit 0 0 0
crash 1
",
        journal: "ftc-journal 2
enter 0
visit 0 0 0
crash 1
pass 0 0
recover 1
pull 0
pull 1
",
        report: "ftc-report 1
packets 1
released 0
filtered 0
lost 1
fate 0 lost 3
store 0 1
key 6d0007 0000000000000001
store 1 0
",
        broken: &[
            // The message isn't queued.
            (
                Change::Instead {
                    event: 4,
                    line: "take 0 0",
                },
                "event 4",
            ),
            // Server 0 has the visit.
            (
                Change::Instead {
                    event: 4,
                    line: "recover 1 0:0",
                },
                "event 4",
            ),
            // Server 0 still holds the message.
            (Change::LeftOut { event: 3 }, "unfinished"),
            // The message is queued once server 1 is up.
            (Change::Moved { event: 4, to: 3 }, "unfinished"),
            // Server 1 is down.
            (Change::Moved { event: 5, to: 4 }, "event 4"),
        ],
    },
];
