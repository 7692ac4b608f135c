//! Visits that no live server has any more, and what goes with them.

use crate::trial::{A, C, Change, D, Trial};

pub const UNDONE: [Trial; 3] = [
    Trial {
        name: "a gap out of the server after",
        chain: "f 3\npartitions 4\nmonitor 8\nmonitor 1\npass\npass\n",
        script: "lose 1 0\nat 2 crash 0\nat 2 crash 1\nat 2 recover 1\nat 2 recover 0\n",
        packets: &[&A, &C],
        schedule: "ftc-journal 2
enter 0
enter 1
visit 0 0 0
pass 0 0
take 0 0
apply 1 0 0 0
visit 1 0 0
lose 1 0
visit 0 1 0
pass 0 1
take 0 1
apply 1 1 0 1
visit 1 1 0
pass 1 1
take 1 1
apply 2 1 0 1
crash 0
crash 1
recover 1
recover 0
",
        journal: "ftc-journal 2
enter 0
enter 1
visit 0 0 0
pass 0 0
take 0 0
apply 1 0 0 0
visit 1 0 0
lose 1 0
visit 0 1 0
pass 0 1
take 0 1
apply 1 1 0 1
visit 1 1 0
pass 1 1
take 1 1
apply 2 1 0 1
crash 0
crash 1
recover 1 0:0 1:0 1:1
recover 0
pull 0
pull 1
pull 2
pull 3
",
        report: "ftc-report 1
packets 2
released 0
filtered 0
lost 2
fate 0 lost 7
fate 1 lost 18
store 0 1
key 6d0000 0000000000000001
store 1 0
store 2 0
store 3 0
",
        broken: &[
            // Packet 0's visit at server 1 stands before that of packet 1, and server 2 lacks it.
            (
                Change::Instead {
                    event: 15,
                    line: "apply 2 1 1 1",
                },
                "event 15",
            ),
            // Server 2 hasn't taken the message as yet.
            (Change::Moved { event: 15, to: 14 }, "event 14"),
            // The next line of the script is the crash of server 0.
            (Change::Moved { event: 17, to: 16 }, "event 16"),
            // Server 2 has packet 1's visit at server 0 and no other visit.
            (
                Change::Instead {
                    event: 18,
                    line: "recover 1 0:0 1:0",
                },
                "event 18",
            ),
            (
                Change::Instead {
                    event: 18,
                    line: "recover 1 0:0 1:0 0:1 1:1",
                },
                "event 18",
            ),
            // Undone visits are listed in the order of the trace.
            (
                Change::Instead {
                    event: 18,
                    line: "recover 1 0:0 1:1 1:0",
                },
                "event 18",
            ),
            // The next line of the script is the recovery of server 1.
            (Change::Moved { event: 19, to: 18 }, "event 18"),
            // Server 2 is the one after server 1, and so there is a gap behind it.
            (Change::LeftOut { event: 22 }, "unfinished"),
        ],
    },
    Trial {
        name: "a later visit that touches nothing is undone",
        chain: "f 2\npartitions 4\nmonitor 8\npass\nmonitor 8\n",
        script: "at 1 crash 0\nat 1 crash 1\nat 1 recover 1\nat 1 recover 0\n",
        packets: &[&A],
        schedule: "ftc-journal 2
enter 0
visit 0 0 0
pass 0 0
take 0 0
apply 1 0 0 0
visit 1 0 0
pass 1 0
crash 0
crash 1
recover 1
recover 0
",
        journal: "ftc-journal 2
enter 0
visit 0 0 0
pass 0 0
take 0 0
apply 1 0 0 0
visit 1 0 0
pass 1 0
crash 0
crash 1
recover 1 0:0 1:0
recover 0
pull 0
pull 1
pull 2
",
        report: "ftc-report 1
packets 1
released 0
filtered 0
lost 1
fate 0 lost 9
store 0 0
store 1 0
store 2 0
",
        broken: &[
            // The visit at server 1 is a later one of a packet whose visit at server 0 is undone.
            (
                Change::Instead {
                    event: 9,
                    line: "recover 1 0:0",
                },
                "event 9",
            ),
            // The next line of the script is the recovery of server 1.
            (Change::Moved { event: 10, to: 9 }, "event 9"),
            // The message was on the link into server 2, and the recovery drops it.
            (
                Change::Instead {
                    event: 10,
                    line: "take 1 0",
                },
                "event 10",
            ),
            // Server 0 is down.
            (Change::Moved { event: 11, to: 10 }, "event 10"),
        ],
    },
    Trial {
        name: "a visit that only reads is undone with what it read",
        chain: "f 2\npartitions 1\nnat inside 10.0.0.0/8 outside 203.0.113.5 ports 20000-20009\nmonitor 8\npass\n",
        script: "lose 0 0\nat 2 crash 0\nat 2 recover 0\n",
        packets: &[&A, &D],
        schedule: "ftc-journal 2
enter 0
enter 1
visit 0 0 0
lose 0 0
visit 0 1 0
pass 0 1
crash 0
take 0 1
visit 1 1 0
recover 0
",
        journal: "ftc-journal 2
enter 0
enter 1
visit 0 0 0
lose 0 0
visit 0 1 0
pass 0 1
crash 0
take 0 1
recover 0 0:0 0:1
pull 0
pull 1
pull 2
",
        report: "ftc-report 1
packets 2
released 0
filtered 0
lost 2
fate 0 lost 3
fate 1 lost 8
store 0 0
store 1 0
store 2 0
",
        broken: &[
            // Server 1 lacks packet 0's visit, which packet 1 read.
            (
                Change::Instead {
                    event: 8,
                    line: "visit 1 1 0",
                },
                "event 8",
            ),
            // And so it lacks packet 1's visit too.
            (
                Change::Instead {
                    event: 8,
                    line: "recover 0 0:0",
                },
                "event 8",
            ),
            // The recovery drops what is on the link into server 1.
            (Change::Moved { event: 8, to: 7 }, "event 8"),
            // It also dropped the message that server 1 held, which wasn't ready.
            (
                Change::Instead {
                    event: 9,
                    line: "visit 1 1 0",
                },
                "event 9",
            ),
            // Server 0 is down.
            (Change::Moved { event: 9, to: 8 }, "event 8"),
        ],
    },
];
