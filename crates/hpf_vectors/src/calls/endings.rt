//! Statuses.

/// A status of each kind.
pub(super) const ROWS: &str = r#"
ending Ok~status 0
ending Usage 1~status 1 usage 1: hpfturn ACTION MAP [NAME] [--workers N] [--stage N] [--proc N] [--seed N] [--frames N]
ending Usage 9~status 1 usage 9: hpfturn ACTION MAP [NAME] [--workers N] [--stage N] [--proc N] [--seed N] [--frames N]
ending MapRefused 27 3 20~status 2 map refused 27 BlockTooSmall at 3:20
ending MapRefused 9 1 1~status 2 map refused 9 NotBuilt at 1:1
ending MapRefused 5 0 0~status 2 map refused 5 TooLong at 0:0
ending MapRefused 45 4294967295 7~status 2 map refused 45 at 4294967295:7
ending InputRefused 11 20~status 3 input refused 11 Truncated at 20
ending InputRefused 0 0~status 3 input refused 0 NotBuilt at 0
ending InputRefused 255 18446744073709551615~status 3 input refused 255 at 18446744073709551615
ending PlanTooLarge 167772160~status 4 plan too large: 167772160 elements
ending ReadFault~status 5 read fault
ending WriteFault~status 6 write fault
ending LoadFault~status 7 load fault
ending OutOfMemory~status 8 out of memory
"#;
