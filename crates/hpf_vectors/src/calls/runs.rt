//! Rows for the frames of a run.

/// Runs that end well, and that are refused.
pub(super) const ROWS: &str = r#"
# Runs that end well

row nine elements on four processors
words hpfturn run M
for S 1 2 3 7 40
file M
| INTEGER A(9)
| !HPF$ PROCESSORS P(4)
| !HPF$ DISTRIBUTE A(BLOCK) ONTO P
| !PIPE$ INPUT A
input = 48504646 01 01 04 00 00000009
= 01 00000000 00000001 00000002 00000003 00000004 00000005 00000006 00000007 00000008 00000009
= 00 00000001
step S
gives
status 0
load "M" limit 1048576
input left 0
out
= 48504646 01010400 00000009 01000000 00000000 01000000 02000000 03000000
= 04000000 05000000 06000000 07000000 08000000 09000000 0001
notes
| mark 0 0 held 3 sum 14
| mark 0 1 held 3 sum 32
| mark 0 2 held 3 sum 50
| mark 0 3 held 0 sum 0

row one frame of three elements
words hpfturn run M
for S 1 2 3 7 40
file M @ M13
input @ F3
step S
gives
status 0
load "M" limit 1048576
input left 0
out @ F3
notes
| mark 0 0 held 2 sum 5
| mark 0 1 held 1 sum 3

row no frame
words hpfturn run M
for S 1 2 3 7 40
file M @ M13
input @ H3
= 00 00000000
step S
gives
status 0
load "M" limit 1048576
input left 0
out = 48504646 01010400 00000003 00000000 00
notes
| mark 0 0 held 2 sum 0
| mark 0 1 held 1 sum 0

row two frames, with the least and the greatest elements
words hpfturn run M
for S 1 2 3 7 40
file M @ M13
input @ H3
= 01 00000000 ffffffff 00000000 7fffffff
= 01 00000001 80000000 00000005 00000000
= 00 00000002
step S
gives
status 0
load "M" limit 1048576
input left 0
out
= 48504646 01010400 00000003 01000000 00ffffff ff000000 007fffff ff010000
= 00018000 00000000 00050000 00000000 000002
notes
| mark 0 0 held 2 sum 18446744069414584339
| mark 0 1 held 1 sum 2147483647

row each object has a step of its own
words hpfturn run M
file M @ M13
input @ F3
input step 3
out step 1
notes step 40
gives
status 0
load "M" limit 1048576
input left 0
out @ F3
notes
| mark 0 0 held 2 sum 5
| mark 0 1 held 1 sum 3

row sinks with no room to spare
words hpfturn run M
file M @ M13
input @ F3
out room 34
notes room 44
gives
status 0
load "M" limit 1048576
input left 0
out @ F3
notes
| mark 0 0 held 2 sum 5
| mark 0 1 held 1 sum 3

row 65536 elements on 64 processors, and no frame
words hpfturn run M
file M
| INTEGER Z(65536)
| !HPF$ PROCESSORS A(64)
| !HPF$ DISTRIBUTE Z(BLOCK) ONTO A
| !PIPE$ INPUT Z
input = 48504646 01 01 04 00 00010000
= 00 00000000
step 7
gives
status 0
load "M" limit 1048576
input left 0
out = 48504646 01010400 00010000 00000000 00
notes
| mark 0 0 held 1024 sum 0
| mark 0 1 held 1024 sum 0
| mark 0 2 held 1024 sum 0
| mark 0 3 held 1024 sum 0
| mark 0 4 held 1024 sum 0
| mark 0 5 held 1024 sum 0
| mark 0 6 held 1024 sum 0
| mark 0 7 held 1024 sum 0
| mark 0 8 held 1024 sum 0
| mark 0 9 held 1024 sum 0
| mark 0 10 held 1024 sum 0
| mark 0 11 held 1024 sum 0
| mark 0 12 held 1024 sum 0
| mark 0 13 held 1024 sum 0
| mark 0 14 held 1024 sum 0
| mark 0 15 held 1024 sum 0
| mark 0 16 held 1024 sum 0
| mark 0 17 held 1024 sum 0
| mark 0 18 held 1024 sum 0
| mark 0 19 held 1024 sum 0
| mark 0 20 held 1024 sum 0
| mark 0 21 held 1024 sum 0
| mark 0 22 held 1024 sum 0
| mark 0 23 held 1024 sum 0
| mark 0 24 held 1024 sum 0
| mark 0 25 held 1024 sum 0
| mark 0 26 held 1024 sum 0
| mark 0 27 held 1024 sum 0
| mark 0 28 held 1024 sum 0
| mark 0 29 held 1024 sum 0
| mark 0 30 held 1024 sum 0
| mark 0 31 held 1024 sum 0
| mark 0 32 held 1024 sum 0
| mark 0 33 held 1024 sum 0
| mark 0 34 held 1024 sum 0
| mark 0 35 held 1024 sum 0
| mark 0 36 held 1024 sum 0
| mark 0 37 held 1024 sum 0
| mark 0 38 held 1024 sum 0
| mark 0 39 held 1024 sum 0
| mark 0 40 held 1024 sum 0
| mark 0 41 held 1024 sum 0
| mark 0 42 held 1024 sum 0
| mark 0 43 held 1024 sum 0
| mark 0 44 held 1024 sum 0
| mark 0 45 held 1024 sum 0
| mark 0 46 held 1024 sum 0
| mark 0 47 held 1024 sum 0
| mark 0 48 held 1024 sum 0
| mark 0 49 held 1024 sum 0
| mark 0 50 held 1024 sum 0
| mark 0 51 held 1024 sum 0
| mark 0 52 held 1024 sum 0
| mark 0 53 held 1024 sum 0
| mark 0 54 held 1024 sum 0
| mark 0 55 held 1024 sum 0
| mark 0 56 held 1024 sum 0
| mark 0 57 held 1024 sum 0
| mark 0 58 held 1024 sum 0
| mark 0 59 held 1024 sum 0
| mark 0 60 held 1024 sum 0
| mark 0 61 held 1024 sum 0
| mark 0 62 held 1024 sum 0
| mark 0 63 held 1024 sum 0

row one element on one processor, and no frame
words hpfturn run M
file M
| INTEGER B(1)
| !HPF$ PROCESSORS A(1)
| !HPF$ DISTRIBUTE B(BLOCK) ONTO A
| !PIPE$ INPUT B
input = 48504646 01 01 04 00 00000001
= 00 00000000
step 7
gives
status 0
load "M" limit 1048576
input left 0
out = 48504646 01010400 00000001 00000000 00
notes | mark 0 0 held 1 sum 0

row 65536 elements, each of them 1
words hpfturn run M
file M
| INTEGER A(65536)
| !HPF$ PROCESSORS P(4)
| !HPF$ DISTRIBUTE A(BLOCK) ONTO P
| !PIPE$ INPUT A
input = 48504646 01 01 04 00 00010000
= 01 00000000
65536 * = 00000001
= 00 00000001
gives
status 0
load "M" limit 1048576
input left 0
out
= 48504646 01010400 00010000 01000000 00000000 01000000 01000000 01000000
8191 * = 01000000 01000000 01000000 01000000 01000000 01000000 01000000 01000000
= 01000000 01000000 01000000 01000000 01000000 0001
notes
| mark 0 0 held 16384 sum 134225920
| mark 0 1 held 16384 sum 134225920
| mark 0 2 held 16384 sum 134225920
| mark 0 3 held 16384 sum 134225920

row a frame of several pieces
words hpfturn run M
for S 7 1000 4096
file M
| INTEGER A(5000)
| !HPF$ PROCESSORS P(3)
| !HPF$ DISTRIBUTE A(BLOCK) ONTO P
| !PIPE$ INPUT A
input = 48504646 01 01 04 00 00001388
= 01 00000000
625 * = 80000000 7fffffff 00000000 ffffffff 00000001 01020304 fefdfcfb 00ff00ff
= 00 00000001
step S
gives
status 0
load "M" limit 1048576
input left 0
out
= 48504646 01010400 00001388 01000000 00800000 007fffff ff000000 00ffffff
624 * = ff000000 01010203 04fefdfc fb00ff00 ff800000 007fffff ff000000 00ffffff
= ff000000 01010203 04fefdfc fb00ff00 ff000000 0001
notes
| mark 0 0 held 1667 sum 3351311603454
| mark 0 1 held 1667 sum 3366923276637
| mark 0 2 held 1666 sum 3356132800409

# Inputs that are refused

row an empty input
words hpfturn run M
file M @ M13
gives
status 3 input refused 0 NotBuilt at 0
load "M" limit 1048576

row an input that is cut short
words hpfturn run M
for N 0..33
for S 1 7 40
file M @ M13
input @ F3 N
step S
gives for N 0..11
status 3 input refused 0 NotBuilt at 0
load "M" limit 1048576
gives for N 12..28
status 3 input refused 0 NotBuilt at 0
load "M" limit 1048576
out @ H3
gives for N 29..33
status 3 input refused 0 NotBuilt at 0
load "M" limit 1048576
out @ F3 29

row a byte behind the end
words hpfturn run M
for S 1 2 3 7 40
file M @ M13
input @ F3
= 00
step S
gives
status 3 input refused 0 NotBuilt at 0
load "M" limit 1048576
out @ F3 29

row the number 0 again
words hpfturn run M
for S 1 2 3 7 40
file M @ M13
input @ F3 29
= 01 00000000 00000001 00000002 00000003
step S
gives
status 3 input refused 0 NotBuilt at 0
load "M" limit 1048576
out @ F3 29

row the number 2 behind number 0
words hpfturn run M
for S 1 2 3 7 40
file M @ M13
input @ F3 29
= 01 00000002 00000001 00000002 00000003
step S
gives
status 3 input refused 0 NotBuilt at 0
load "M" limit 1048576
out @ F3 29

row the number 1 at first
words hpfturn run M
for S 1 2 3 7 40
file M @ M13
input @ H3
= 01 00000001 00000001 00000002 00000003
= 00 00000001
step S
gives
status 3 input refused 0 NotBuilt at 0
load "M" limit 1048576
out @ H3

row an end that counts no frame
words hpfturn run M
for S 1 2 3 7 40
file M @ M13
input @ F3 29
= 00 00000000
step S
gives
status 3 input refused 0 NotBuilt at 0
load "M" limit 1048576
out @ F3 29

row an end that counts a frame too many
words hpfturn run M
for S 1 2 3 7 40
file M @ M13
input @ F3 29
= 00 00000002
step S
gives
status 3 input refused 0 NotBuilt at 0
load "M" limit 1048576
out @ F3 29

row the mark 2
words hpfturn run M
for S 1 2 3 7 40
file M @ M13
input @ H3
= 02 00000000 00000001 00000002 00000003
= 00 00000001
step S
gives
status 3 input refused 0 NotBuilt at 0
load "M" limit 1048576
out @ H3

row the mark 255 behind a frame
words hpfturn run M
for S 1 2 3 7 40
file M @ M13
input @ F3 29
= ff 00000001 00000001 00000002 00000003
step S
gives
status 3 input refused 0 NotBuilt at 0
load "M" limit 1048576
out @ F3 29

row the extent 4
words hpfturn run M
for S 1 2 3 7 40
file M @ M13
input = 48504646 01 01 04 00 00000004
= 00 00000000
step S
gives
status 3 input refused 0 NotBuilt at 0
load "M" limit 1048576

row two extents
words hpfturn run M
for S 1 2 3 7 40
file M @ M13
input = 48504646 01 02 04 00 00000003 00000001
= 00 00000000
step S
gives
status 3 input refused 0 NotBuilt at 0
load "M" limit 1048576

row another beginning
words hpfturn run M
for S 1 2 3 7 40
file M @ M13
input = 68504646 01 01 04 00 00000003
= 00 00000000
step S
gives
status 3 input refused 0 NotBuilt at 0
load "M" limit 1048576

row version 2
words hpfturn run M
for S 1 2 3 7 40
file M @ M13
input = 48504646 02 01 04 00 00000003
= 00 00000000
step S
gives
status 3 input refused 0 NotBuilt at 0
load "M" limit 1048576

row another rank
words hpfturn run M
for S 1 2 3 7 40
file M @ M13
input = 48504646 01 02 04 00 00000003
= 00 00000000
step S
gives
status 3 input refused 0 NotBuilt at 0
load "M" limit 1048576

row elements of 8 bytes
words hpfturn run M
for S 1 2 3 7 40
file M @ M13
input = 48504646 01 01 08 00 00000003
= 00 00000000
step S
gives
status 3 input refused 0 NotBuilt at 0
load "M" limit 1048576

row another byte behind the width
words hpfturn run M
for S 1 2 3 7 40
file M @ M13
input = 48504646 01 01 04 01 00000003
= 00 00000000
step S
gives
status 3 input refused 0 NotBuilt at 0
load "M" limit 1048576
"#;
