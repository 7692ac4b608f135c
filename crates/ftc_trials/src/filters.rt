//! Packets that a firewall filters.

use crate::trial::{A, Change, NO_EVENTS, Trial};

/// A monitor, a firewall that denies everything, and a server that passes everything.
const FILTER: &str = "f 2\npartitions 4\nmonitor 8\nfirewall\npass\n";

pub const FILTERS: [Trial; 3] = [
    Trial {
        name: "a filtered packet",
        chain: "f 1\npartitions 4\nmonitor 8\nfirewall\n",
        script: "",
        packets: &[&A],
        schedule: NO_EVENTS,
        journal: "ftc-journal 2
enter 0
visit 0 0 63
pass 0 0
take 0 0
apply 1 0 0 0
visit 1 0 63
pass 1 0
take 1 0
carry 0
",
        report: "ftc-report 1
packets 1
released 0
filtered 1
lost 0
fate 0 filtered 1
store 0 1
key 6d0007 0000000000000001
store 1 0
",
        broken: &[
            // The message isn't ready before its log is applied.
            (Change::Moved { event: 5, to: 4 }, "event 4"),
            // It has a packet, and that wasn't visited at server 1.
            (Change::Moved { event: 6, to: 5 }, "event 5"),
            // Server 0 hasn't taken the message as yet.
            (Change::Moved { event: 8, to: 7 }, "event 7"),
            // The visit at the firewall changed nothing.
            (
                Change::Instead {
                    event: 8,
                    line: "apply 0 0 1 0",
                },
                "event 8",
            ),
            // The packet didn't come to the buffer.
            (
                Change::Instead {
                    event: 8,
                    line: "release 0",
                },
                "event 8",
            ),
        ],
    },
    Trial {
        name: "a filtered packet stays filtered where its message is lost",
        chain: FILTER,
        script: "lose 1 0\n",
        packets: &[&A],
        schedule: NO_EVENTS,
        journal: "ftc-journal 2
enter 0
visit 0 0 63
pass 0 0
take 0 0
apply 1 0 0 0
visit 1 0 63
lose 1 0
pull 1
",
        report: "ftc-report 1
packets 1
released 0
filtered 1
lost 0
fate 0 filtered 1
store 0 1
key 6d0007 0000000000000001
store 1 0
store 2 0
",
        broken: &[
            // Its packet wasn't visited at server 1 as yet.
            (Change::Moved { event: 6, to: 5 }, "event 5"),
            // The script has that message lost there.
            (
                Change::Instead {
                    event: 6,
                    line: "pass 1 0",
                },
                "event 6",
            ),
            // The link has no gap before it loses something.
            (Change::Moved { event: 7, to: 6 }, "event 6"),
            (Change::LeftOut { event: 7 }, "unfinished"),
        ],
    },
    Trial {
        name: "a filtered packet whose visit is undone is lost",
        chain: FILTER,
        script: "at 1 crash 0\nat 1 crash 1\nat 1 recover 0\nat 1 recover 1\n",
        packets: &[&A],
        schedule: "ftc-journal 2
enter 0
visit 0 0 0
pass 0 0
take 0 0
apply 1 0 0 0
visit 1 0 0
crash 0
crash 1
recover 0
",
        journal: "ftc-journal 2
enter 0
visit 0 0 0
pass 0 0
take 0 0
apply 1 0 0 0
visit 1 0 0
crash 0
crash 1
recover 0 0:0 1:0
pull 2
recover 1
pull 0
pull 1
pull 2
",
        report: "ftc-report 1
packets 1
released 0
filtered 0
lost 1
fate 0 lost 8
store 0 0
store 1 0
store 2 0
",
        broken: &[
            // The visit at the firewall is a later one of a packet whose visit at server 0 is undone.
            (
                Change::Instead {
                    event: 8,
                    line: "recover 0 0:0",
                },
                "event 8",
            ),
            // Server 0 is down.
            (Change::Moved { event: 9, to: 8 }, "event 8"),
            // Link 2 has one gap for both recoveries then, and for the second pull there is none.
            (Change::Moved { event: 10, to: 9 }, "event 13"),
            // Server 1 is down.
            (Change::Moved { event: 11, to: 10 }, "event 10"),
        ],
    },
];
