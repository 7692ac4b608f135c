//! Two servers stop at once and are replaced in one order or the other. Nothing is lost, and the runs have the same
//! trace.

use crate::trial::{A, Change, NO_EVENTS, Trial};

/// Four monitors, of which two may be down at once.
const FOUR: &str = "f 2\npartitions 4\nmonitor 8\nmonitor 8\nmonitor 8\nmonitor 8\n";

const REPORT: &str = "ftc-report 1
packets 2
released 2
filtered 0
lost 0
fate 0 released
fate 1 released
store 0 1
key 6d0007 0000000000000002
store 1 1
key 6d0007 0000000000000002
store 2 1
key 6d0007 0000000000000002
store 3 1
key 6d0007 0000000000000002
";

pub const RECOVERIES: [Trial; 2] = [
    Trial {
        name: "the later server is replaced first",
        chain: FOUR,
        script: "at 1 crash 1\nat 1 crash 2\nat 1 recover 2\nat 1 recover 1\n",
        packets: &[&A, &A],
        schedule: NO_EVENTS,
        journal: "ftc-journal 2
enter 0
visit 0 0 63
pass 0 0
take 0 0
apply 1 0 0 0
visit 1 0 63
pass 1 0
take 1 0
apply 2 0 0 0
apply 2 0 1 0
visit 2 0 63
pass 2 0
take 2 0
apply 3 0 1 0
apply 3 0 2 0
visit 3 0 63
pass 3 0
take 3 0
apply 0 0 2 0
apply 0 0 3 0
carry 0
crash 1
crash 2
recover 2
pull 2
pull 3
recover 1
pull 0
pull 1
pull 2
enter 1
visit 0 1 63
pass 0 1
take 0 1
apply 1 1 0 1
visit 1 1 63
pass 1 1
take 1 1
apply 2 1 0 1
apply 2 1 1 1
visit 2 1 63
pass 2 1
take 2 1
release 0
apply 3 1 1 1
apply 3 1 2 1
visit 3 1 63
pass 3 1
take 3 1
apply 0 1 2 1
apply 0 1 3 1
carry 1
propagate 2
pass 0 2
take 0 2
apply 1 2 3 1
pass 1 2
take 1 2
pass 2 2
take 2 2
release 1
pass 3 2
take 3 2
carry 2
",
        report: REPORT,
        broken: &[
            // The next line of the script is that of server 1, and then that of server 2.
            (Change::Moved { event: 22, to: 21 }, "event 21"),
            (Change::Moved { event: 26, to: 23 }, "event 23"),
            // Server 3 has both visits whose groups begin at the servers that are down.
            (
                Change::Instead {
                    event: 23,
                    line: "recover 2 1:0 2:0",
                },
                "event 23",
            ),
            // Server 1 is down.
            (
                Change::Instead {
                    event: 24,
                    line: "pull 1",
                },
                "event 24",
            ),
            // The recovery of server 1 makes another gap of link 2, behind the server after it.
            (Change::LeftOut { event: 29 }, "unfinished"),
            // Server 1 has packet 0's visit at server 3 since it was replaced.
            (
                Change::Instead {
                    event: 34,
                    line: "apply 1 1 3 0",
                },
                "event 34",
            ),
            // Server 3 learns by message 1 that servers 0 and 1 have what they are the tails for.
            (Change::Moved { event: 43, to: 42 }, "event 42"),
            // While packet 0 is due, no apply is legal.
            (Change::LeftOut { event: 43 }, "event 43"),
        ],
    },
    Trial {
        name: "the earlier server is replaced first",
        chain: FOUR,
        script: "at 1 crash 1\nat 1 crash 2\nat 1 recover 1\nat 1 recover 2\n",
        packets: &[&A, &A],
        schedule: NO_EVENTS,
        journal: "ftc-journal 2
enter 0
visit 0 0 63
pass 0 0
take 0 0
apply 1 0 0 0
visit 1 0 63
pass 1 0
take 1 0
apply 2 0 0 0
apply 2 0 1 0
visit 2 0 63
pass 2 0
take 2 0
apply 3 0 1 0
apply 3 0 2 0
visit 3 0 63
pass 3 0
take 3 0
apply 0 0 2 0
apply 0 0 3 0
carry 0
crash 1
crash 2
recover 1
pull 0
pull 3
recover 2
pull 1
pull 2
pull 3
enter 1
visit 0 1 63
pass 0 1
take 0 1
apply 1 1 0 1
visit 1 1 63
pass 1 1
take 1 1
apply 2 1 0 1
apply 2 1 1 1
visit 2 1 63
pass 2 1
take 2 1
release 0
apply 3 1 1 1
apply 3 1 2 1
visit 3 1 63
pass 3 1
take 3 1
apply 0 1 2 1
apply 0 1 3 1
carry 1
propagate 2
pass 0 2
take 0 2
apply 1 2 3 1
pass 1 2
take 1 2
pass 2 2
take 2 2
release 1
pass 3 2
take 3 2
carry 2
",
        report: REPORT,
        broken: &[
            // The next line of the script is that of server 1.
            (Change::Moved { event: 26, to: 23 }, "event 23"),
            // Server 2 is down.
            (Change::Moved { event: 27, to: 24 }, "event 24"),
            // Link 3 has one gap for both recoveries then, and for the second pull there is none.
            (Change::Moved { event: 26, to: 25 }, "event 29"),
            // Server 1 is down until then.
            (Change::Moved { event: 24, to: 23 }, "event 23"),
            // Server 3 learns by message 2 that server 1 has packet 1's visit at server 3.
            (Change::Moved { event: 60, to: 59 }, "event 59"),
        ],
    },
];
