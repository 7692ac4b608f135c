//! A server stops and is replaced.

use crate::trial::{A, Change, TWO, Trial};

pub const CRASHES: [Trial; 4] = [
    Trial {
        name: "a crash undoes a visit",
        chain: TWO,
        script: "at 1 crash 0\nat 1 recover 0\n",
        packets: &[&A, &A],
        schedule: "ftc-journal 2
enter 0
visit 0 0 0
crash 0
recover 0
",
        journal: "ftc-journal 2
enter 0
visit 0 0 0
crash 0
recover 0 0:0
pull 0
pull 1
enter 1
visit 0 1 63
pass 0 1
take 0 1
apply 1 1 0 1
visit 1 1 63
pass 1 1
take 1 1
apply 0 1 1 1
carry 1
propagate 2
pass 0 2
take 0 2
release 1
pass 1 2
take 1 2
carry 2
",
        report: "ftc-report 1
packets 2
released 1
filtered 0
lost 1
fate 0 lost 2
fate 1 released
store 0 1
key 6d0007 0000000000000001
store 1 1
key 6d0007 0000000000000001
",
        broken: &[
            // The next line of the script is the crash.
            (Change::Moved { event: 3, to: 2 }, "event 2"),
            // No server has packet 0's visit any more, so it is undone and has to be listed.
            (
                Change::Instead {
                    event: 3,
                    line: "recover 0",
                },
                "event 3",
            ),
            // One end of the link is down.
            (Change::Moved { event: 4, to: 3 }, "event 3"),
            // A line of the script for one entered packet is still to be done.
            (Change::Moved { event: 6, to: 3 }, "event 3"),
        ],
    },
    Trial {
        name: "a crash after passing",
        chain: TWO,
        script: "at 1 crash 0\nat 1 recover 0\n",
        packets: &[&A],
        schedule: "ftc-journal 2
enter 0
visit 0 0 0
pass 0 0
crash 0
",
        journal: "ftc-journal 2
enter 0
visit 0 0 0
pass 0 0
crash 0
take 0 0
apply 1 0 0 0
visit 1 0 63
pass 1 0
recover 0
pull 0
pull 1
propagate 1
pass 0 1
take 0 1
release 0
pass 1 1
take 1 1
carry 1
",
        report: "ftc-report 1
packets 1
released 1
filtered 0
lost 0
fate 0 released
store 0 1
key 6d0007 0000000000000001
store 1 1
key 6d0007 0000000000000001
",
        broken: &[
            // Server 1 has the visit, so it isn't undone.
            (
                Change::Instead {
                    event: 8,
                    line: "recover 0 0:0",
                },
                "event 8",
            ),
            // Server 1 hasn't taken the message with the log: the visit would be undone.
            (Change::Moved { event: 8, to: 4 }, "event 4"),
            // The message to server 0 is queued once that is up, and then no message is to begin as long as it
            // is there.
            (Change::Moved { event: 8, to: 7 }, "event 11"),
            // Link 1 has a gap.
            (Change::Moved { event: 11, to: 10 }, "event 10"),
        ],
    },
    Trial {
        name: "a lost ring message into a down server",
        chain: TWO,
        script: "at 1 crash 0\nat 1 recover 0\nlose 1 0\n",
        packets: &[&A],
        schedule: "ftc-journal 2
enter 0
visit 0 0 0
pass 0 0
take 0 0
apply 1 0 0 0
visit 1 0 0
crash 0
pass 1 0
lose 1 0
",
        journal: "ftc-journal 2
enter 0
visit 0 0 0
pass 0 0
take 0 0
apply 1 0 0 0
visit 1 0 0
crash 0
lose 1 0
recover 0
pull 0
pull 1
propagate 1
pass 0 1
take 0 1
release 0
pass 1 1
take 1 1
carry 1
",
        report: "ftc-report 1
packets 1
released 1
filtered 0
lost 0
fate 0 released
store 0 1
key 6d0007 0000000000000001
store 1 1
key 6d0007 0000000000000001
",
        broken: &[
            // A message for a down server counts as one that is sent, and the script has it lost.
            (
                Change::Instead {
                    event: 7,
                    line: "pass 1 0",
                },
                "event 7",
            ),
            // Link 1 has a gap.
            (Change::Moved { event: 11, to: 10 }, "event 10"),
            // Server 1 doesn't know as yet that the new server 0 has its visit.
            (Change::Moved { event: 14, to: 13 }, "event 13"),
        ],
    },
    Trial {
        name: "a crash of the last server",
        chain: TWO,
        script: "at 3 crash 1\nat 3 recover 1\n",
        packets: &[&A, &A, &A],
        schedule: "ftc-journal 2
enter 0
visit 0 0 0
pass 0 0
take 0 0
apply 1 0 0 0
visit 1 0 0
pass 1 0
enter 1
visit 0 1 0
pass 0 1
take 0 1
apply 1 1 0 1
visit 1 1 0
pass 1 1
enter 2
visit 0 2 0
pass 0 2
take 0 2
apply 1 2 0 2
visit 1 2 0
pass 1 2
crash 1
",
        journal: "ftc-journal 2
enter 0
visit 0 0 0
pass 0 0
take 0 0
apply 1 0 0 0
visit 1 0 0
pass 1 0
enter 1
visit 0 1 0
pass 0 1
take 0 1
apply 1 1 0 1
visit 1 1 0
pass 1 1
enter 2
visit 0 2 0
pass 0 2
take 0 2
apply 1 2 0 2
visit 1 2 0
pass 1 2
crash 1
take 1 0
apply 0 0 1 0
carry 0
take 1 1
apply 0 1 1 1
carry 1
take 1 2
apply 0 2 1 2
carry 2
recover 1
pull 0
pull 1
",
        report: "ftc-report 1
packets 3
released 0
filtered 0
lost 3
fate 0 lost 21
fate 1 lost 21
fate 2 lost 21
store 0 1
key 6d0007 0000000000000003
store 1 1
key 6d0007 0000000000000003
",
        broken: &[
            // Server 1 is down, and holds the message no more.
            (Change::Moved { event: 21, to: 20 }, "event 21"),
            // Only two packets have entered.
            (Change::Moved { event: 21, to: 14 }, "event 14"),
            // Server 0 lacks the visits at server 1 as long as it hasn't their logs, so they would be undone.
            (Change::Moved { event: 31, to: 22 }, "event 22"),
            (Change::Moved { event: 31, to: 29 }, "event 29"),
            // The message isn't ready before its log is applied.
            (Change::Moved { event: 24, to: 23 }, "event 23"),
            // The forwarder has no log, and no packet is withheld.
            (
                Change::Instead {
                    event: 33,
                    line: "propagate 3",
                },
                "event 33",
            ),
        ],
    },
];
