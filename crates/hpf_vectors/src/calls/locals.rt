//! Rows for what a processor holds of an array.

/// Parts that are told, with their shadows, and marks over them.
pub(super) const ROWS: &str = r#"
# Parts

row a part with no shadow
words hpfturn local M a --proc 0
file M @ M13
input @ F3
input fails 0
notes fails 0
notes room 0
gives
status 0
load "M" limit 1048576
input left 34
out
| 0 (1) owned
| 1 (2) owned

row the last part with a shadow
words hpfturn local M A --proc 3
file M | INTEGER A(10)
| !HPF$ PROCESSORS P(4)
| !HPF$ DISTRIBUTE A(BLOCK) ONTO P
| !HPF$ SHADOW A(1:2)
gives
status 0
load "M" limit 1048576
input left 0
out
| 0 (9) shadow
| 1 (10) owned

row a part with a shadow at both ends
words hpfturn local M A --proc=1
for S 1 3 40
file M | INTEGER A(10)
| !HPF$ PROCESSORS P(4)
| !HPF$ DISTRIBUTE A(BLOCK) ONTO P
| !HPF$ SHADOW A(1:2)
step S
gives
status 0
load "M" limit 1048576
input left 0
out
| 0 (3) shadow
| 1 (4) owned
| 2 (5) owned
| 3 (6) owned
| 4 (7) shadow
| 5 (8) shadow

row a corner is held
words hpfturn local M A --proc 0
file M | INTEGER A(4,4)
| !HPF$ PROCESSORS P(2,2)
| !HPF$ DISTRIBUTE A(BLOCK,BLOCK) ONTO P
| !HPF$ SHADOW A(1,1)
gives
status 0
load "M" limit 1048576
input left 0
out
| 0 (1,1) owned
| 1 (2,1) owned
| 2 (3,1) shadow
| 3 (1,2) owned
| 4 (2,2) owned
| 5 (3,2) shadow
| 6 (1,3) shadow
| 7 (2,3) shadow
| 8 (3,3) shadow

row a processor that holds nothing
words hpfturn local M A --proc 3
file M | INTEGER A(9)
| !HPF$ PROCESSORS P(4)
| !HPF$ DISTRIBUTE A(BLOCK) ONTO P
| !HPF$ SHADOW A(1)
gives
status 0
load "M" limit 1048576
input left 0

row a part in several pieces, whose shadows meet
words hpfturn local M A --proc 1
file M | INTEGER A(-5:6)
| !HPF$ PROCESSORS P(3)
| !HPF$ DISTRIBUTE A(CYCLIC(2)) ONTO P
| !HPF$ SHADOW A(0:3)
gives
status 0
load "M" limit 1048576
input left 0
out
| 0 (-3) owned
| 1 (-2) owned
| 2 (-1) shadow
| 3 (0) shadow
| 4 (1) shadow
| 5 (3) owned
| 6 (4) owned
| 7 (5) shadow
| 8 (6) shadow

row widths above the extent
words hpfturn local M A --proc 1
file M | INTEGER A(3)
| !HPF$ PROCESSORS P(3)
| !HPF$ DISTRIBUTE A(BLOCK) ONTO P
| !HPF$ SHADOW A(2147483647)
gives
status 0
load "M" limit 1048576
input left 0
out
| 0 (1) shadow
| 1 (2) owned
| 2 (3) shadow

row a shadow of the base is none of the alignee
words hpfturn local M A --proc 0
file M | INTEGER A(4), B(4)
| !HPF$ PROCESSORS P(2)
| !HPF$ ALIGN A WITH B
| !HPF$ DISTRIBUTE B(BLOCK) ONTO P
| !HPF$ SHADOW B(1)
gives
status 0
load "M" limit 1048576
input left 0
out
| 0 (1) owned
| 1 (2) owned

# Names and processors that aren't there

row a processor that the arrangement hasn't
words hpfturn local M a --proc 2
file M @ M13
input @ F3
gives
status 1 usage 3: hpfturn ACTION MAP [NAME] [--workers N] [--stage N] [--proc N] [--seed N] [--frames N]
load "M" limit 1048576
input left 34

row the last processor that words can name
words hpfturn local M A --proc 63
file M @ M13
gives
status 1 usage 3: hpfturn ACTION MAP [NAME] [--workers N] [--stage N] [--proc N] [--seed N] [--frames N]
load "M" limit 1048576
input left 0

row neither name nor processor is there
words hpfturn local M B --proc 63
file M @ M13
gives
status 1 usage 2: hpfturn ACTION MAP [NAME] [--workers N] [--stage N] [--proc N] [--seed N] [--frames N]
load "M" limit 1048576
input left 0

row a processor too many in a text that is refused
words hpfturn local M A --proc 2
file M | INTEGER A(0)
gives
status 2 map refused 25 Empty at 1:11
load "M" limit 1048576
input left 0

# What is written

row a write of a part that fails: call 24 is the flush, and the last
words hpfturn local M A --proc 0
for N 0 11 23..25
file M @ M13
step 1
out fails N
gives for N 0
status 6 write fault
load "M" limit 1048576
out failed 1
gives for N 11
status 6 write fault
load "M" limit 1048576
out - 0 (1) owned
out failed 1
gives for N 23
status 6 write fault
load "M" limit 1048576
out
| 0 (1) owned
- 1 (2) owned
out failed 1
gives for N 24
status 6 write fault
load "M" limit 1048576
out
| 0 (1) owned
| 1 (2) owned
out failed 1
gives for N 25
status 0
load "M" limit 1048576
input left 0
out
| 0 (1) owned
| 1 (2) owned

row out is full of a part
words hpfturn local M A --proc 0
for N 0 11 23 24
file M @ M13
step 1
out room N
gives for N 0
status 6 write fault
load "M" limit 1048576
out failed 1
gives for N 11
status 6 write fault
load "M" limit 1048576
out - 0 (1) owned
out failed 1
gives for N 23
status 6 write fault
load "M" limit 1048576
out
| 0 (1) owned
- 1 (2) owned
out failed 1
gives for N 24
status 0
load "M" limit 1048576
input left 0
out
| 0 (1) owned
| 1 (2) owned

# Shadows that are refused

row a second shadow
words hpfturn check M
file M | INTEGER A(3)
| !HPF$ SHADOW A(1)
| !HPF$ SHADOW A(1)
gives
status 2 map refused 41 Shadow at 3:14
load "M" limit 1048576
input left 0

row a shadow of a template
words hpfturn check M
file M | !HPF$ TEMPLATE T(3)
| !HPF$ SHADOW T(1,1)
gives
status 2 map refused 41 Shadow at 2:14
load "M" limit 1048576
input left 0

row a negative width
words hpfturn check M
file M | INTEGER A(3)
| !HPF$ SHADOW A(1:-1)
gives
status 2 map refused 41 Shadow at 2:18
load "M" limit 1048576
input left 0

# Marks over what is held

row marks with a shadow
words hpfturn run M
file M | INTEGER A(6)
| !HPF$ PROCESSORS P(2)
| !HPF$ DISTRIBUTE A(BLOCK) ONTO P
| !HPF$ SHADOW A(1)
| !PIPE$ INPUT A
input = 48504646 01 01 04 00 00000006
= 01 00000000 00000001 00000002 00000003 00000004 00000005 00000006
= 00 00000001
gives
status 0
load "M" limit 1048576
input left 0
out
= 48504646 01010400 00000006 01000000 00000000 01000000 02000000 03000000
= 04000000 05000000 06000000 0001
notes
| mark 0 0 held 4 sum 30
| mark 0 1 held 4 sum 50

row marks of a matrix with a shadow
words hpfturn run M
file M | INTEGER A(4,4)
| !HPF$ PROCESSORS P(2,2)
| !HPF$ DISTRIBUTE A(BLOCK,BLOCK) ONTO P
| !HPF$ SHADOW A(1,1)
| !PIPE$ INPUT A
input = 48504646 01 02 04 00 00000004 00000004
= 01 00000000 00000001 00000002 00000003 00000004 00000005 00000006 00000007 00000008
= 00000009 0000000a 0000000b 0000000c 0000000d 0000000e 0000000f 00000010
= 00 00000001
gives
status 0
load "M" limit 1048576
input left 0
out
= 48504646 01020400 00000004 00000004 01000000 00000000 01000000 02000000
= 03000000 04000000 05000000 06000000 07000000 08000000 09000000 0a000000
= 0b000000 0c000000 0d000000 0e000000 0f000000 10000000 0001
notes
| mark 0 0 held 9 sum 348
| mark 0 1 held 9 sum 393
| mark 0 2 held 9 sum 528
| mark 0 3 held 9 sum 573

"#;
