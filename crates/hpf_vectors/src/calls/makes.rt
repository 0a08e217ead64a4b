//! Rows for files of frames that are made.

/// Files that are made, writes that fail, and maps that are refused.
pub(super) const ROWS: &str = r#"
# Files that are made

text G3
= 48504646 01 01 04 00 00000003
= 01 00000000 ffff8000 ffff8007 ffff800e
= 00 00000001

row a frame of three elements
words hpfturn make M --frames 1
for S 1 2 3 7 40
file M @ M13
step S
gives
status 0
load "M" limit 1048576
input left 0
out @ G3

row no frame
words hpfturn make M --frames 0 --seed 9
file M @ M13
gives
status 0
load "M" limit 1048576
input left 0
out = 48504646 01010400 00000003 00 00000000

row the greatest seed, with a frame that goes on behind it
words hpfturn make M --seed 4294967295 --frames 2
for S 1 40 4096
file M @ M13
step S
gives
status 0
load "M" limit 1048576
input left 0
out
= 48504646 01010400 00000003
= 01 00000000 00007fff ffff8006 ffff800d
= 01 00000001 ffff801e ffff8025 ffff802c
= 00 00000002

row frames of three dimensions, whatever their lower bounds
words hpfturn make M --frames 2 --seed 7
for S 1 3 4096
file M
| INTEGER A(2,1,0:1)
| !HPF$ PROCESSORS P(2)
| !HPF$ DISTRIBUTE A(*,*,CYCLIC) ONTO P
| !PIPE$ INPUT A
step S
gives
status 0
load "M" limit 1048576
input left 0
out
= 48504646 01030400 00000002 00000001 00000002
= 01 00000000 ffff8007 ffff800e ffff8015 ffff801c
= 01 00000001 ffff8026 ffff802d ffff8034 ffff803b
= 00 00000002

row neither frames nor notes are used
words hpfturn make M --frames 1
file M @ M13
input @ F3
input fails 0
notes fails 0
notes room 0
gives
status 0
load "M" limit 1048576
input left 34
out @ G3

# Writes that fail. With a step of 1 each call moves a byte; call 34 is the flush, and the last.

row a write that fails
words hpfturn make M --frames 1
for N 0..35
file M @ M13
step 1
out fails N
gives for N 0
status 6 write fault
load "M" limit 1048576
out failed 1
gives for N 1..34
status 6 write fault
load "M" limit 1048576
out @ G3 N
out failed 1
gives for N 35
status 0
load "M" limit 1048576
input left 0
out @ G3

# Maps that are refused

row no line of a pipeline
words hpfturn make M --frames 1
file M - INTEGER A(3)
gives
status 2 map refused 42 Pipeline at 2:1
load "M" limit 1048576
input left 0

row an array that isn't mapped
words hpfturn make M --frames 1
file M
| INTEGER A(3)
| !PIPE$ INPUT A
gives
status 2 map refused 42 Pipeline at 2:14
load "M" limit 1048576
input left 0
"#;
