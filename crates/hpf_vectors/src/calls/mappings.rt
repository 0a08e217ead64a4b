//! Rows for runs over arrays of any rank, bounds and alignment. The elements of a frame count from 1.

/// Runs, and their marks.
pub(super) const ROWS: &str = r#"
text FOUR
= 01 00000000 00000001 00000002 00000003 00000004
= 00 00000001

text TEN
= 48504646 01 01 04 00 0000000a
= 01 00000000 00000001 00000002 00000003 00000004 00000005 00000006 00000007 00000008 00000009 0000000a
= 00 00000001

row ten elements on four processors
words hpfturn run M
file M | INTEGER A(10)
| !HPF$ PROCESSORS P(4)
| !HPF$ DISTRIBUTE A(BLOCK) ONTO P
| !PIPE$ INPUT A
input @ TEN
gives
status 0
load "M" limit 1048576
input left 0
out @ TEN
notes
| mark 0 0 held 3 sum 14
| mark 0 1 held 3 sum 32
| mark 0 2 held 3 sum 50
| mark 0 3 held 1 sum 10

row an array that is aligned the other way round
words hpfturn run M
for S 1 3 40
file M | INTEGER A(10)
| !HPF$ TEMPLATE T(10)
| !HPF$ PROCESSORS P(4)
| !HPF$ ALIGN A(I) WITH T(11-I)
| !HPF$ DISTRIBUTE T(BLOCK) ONTO P
| !PIPE$ INPUT A
input @ TEN
step S
gives
status 0
load "M" limit 1048576
input left 0
out @ TEN
notes
| mark 0 0 held 3 sum 56
| mark 0 1 held 3 sum 38
| mark 0 2 held 3 sum 20
| mark 0 3 held 1 sum 1

row an array that is replicated: each owner marks its copy
words hpfturn run M
file M | INTEGER A(4)
| !HPF$ TEMPLATE T(4,4)
| !HPF$ PROCESSORS P(2,3)
| !HPF$ ALIGN A(I) WITH T(I,*)
| !HPF$ DISTRIBUTE T(BLOCK,BLOCK) ONTO P
| !PIPE$ INPUT A
input = 48504646 01 01 04 00 00000004
@ FOUR
gives
status 0
load "M" limit 1048576
input left 0
out
= 48504646 01010400 00000004 01000000 00000000 01000000 02000000 03000000
= 04000000 0001
notes
| mark 0 0 held 2 sum 5
| mark 0 1 held 2 sum 11
| mark 0 2 held 2 sum 5
| mark 0 3 held 2 sum 11
| mark 0 4 held 0 sum 0
| mark 0 5 held 0 sum 0

row an array that is collapsed
words hpfturn run M
file M | INTEGER A(4)
| !HPF$ PROCESSORS P(2)
| !HPF$ TEMPLATE T(2)
| !HPF$ ALIGN A(*) WITH T(2)
| !HPF$ DISTRIBUTE T(BLOCK) ONTO P
| !PIPE$ INPUT A
input = 48504646 01 01 04 00 00000004
@ FOUR
gives
status 0
load "M" limit 1048576
input left 0
out
= 48504646 01010400 00000004 01000000 00000000 01000000 02000000 03000000
= 04000000 0001
notes
| mark 0 0 held 0 sum 0
| mark 0 1 held 4 sum 30

row a chain with a stride
words hpfturn run M
file M | INTEGER A(4), B(8)
| !HPF$ TEMPLATE T(0:9)
| !HPF$ PROCESSORS P(5)
| !HPF$ ALIGN A(:) WITH B(7:1:-2)
| !HPF$ ALIGN B(I) WITH T(I+1)
| !HPF$ DISTRIBUTE T(BLOCK) ONTO P
| !PIPE$ INPUT A
input = 48504646 01 01 04 00 00000004
@ FOUR
gives
status 0
load "M" limit 1048576
input left 0
out
= 48504646 01010400 00000004 01000000 00000000 01000000 02000000 03000000
= 04000000 0001
notes
| mark 0 0 held 0 sum 0
| mark 0 1 held 1 sum 4
| mark 0 2 held 1 sum 3
| mark 0 3 held 1 sum 2
| mark 0 4 held 1 sum 1

row a matrix
words hpfturn run M
for S 1 3 40
file M | INTEGER A(4,3)
| !HPF$ PROCESSORS P(2,2)
| !HPF$ DISTRIBUTE A(BLOCK,BLOCK) ONTO P
| !PIPE$ INPUT A
input = 48504646 01 02 04 00 00000004 00000003
= 01 00000000 00000001 00000002 00000003 00000004 00000005 00000006 00000007 00000008 00000009 0000000a 0000000b 0000000c
= 00 00000001
step S
gives
status 0
load "M" limit 1048576
input left 0
out
= 48504646 01020400 00000004 00000003 01000000 00000000 01000000 02000000
= 03000000 04000000 05000000 06000000 07000000 08000000 09000000 0a000000
= 0b000000 0c000000 0001
notes
| mark 0 0 held 4 sum 44
| mark 0 1 held 4 sum 64
| mark 0 2 held 2 sum 29
| mark 0 3 held 2 sum 35

row a matrix that is divided across its rows, by its columns alone
words hpfturn run M
file M | INTEGER A(2,2)
| !HPF$ TEMPLATE T(2)
| !HPF$ PROCESSORS P(2)
| !HPF$ ALIGN A(*,J) WITH T(J)
| !HPF$ DISTRIBUTE T(BLOCK) ONTO P
| !PIPE$ INPUT A
input = 48504646 01 02 04 00 00000002 00000002
@ FOUR
gives
status 0
load "M" limit 1048576
input left 0
out
= 48504646 01020400 00000002 00000002 01000000 00000000 01000000 02000000
= 03000000 04000000 0001
notes
| mark 0 0 held 2 sum 5
| mark 0 1 held 2 sum 11

row a matrix that is transposed
words hpfturn run M
file M | INTEGER A(2,2)
| !HPF$ TEMPLATE T(2,2)
| !HPF$ PROCESSORS P(1,2)
| !HPF$ ALIGN A(I,J) WITH T(J,I)
| !HPF$ DISTRIBUTE T(BLOCK,BLOCK) ONTO P
| !PIPE$ INPUT A
input = 48504646 01 02 04 00 00000002 00000002
@ FOUR
gives
status 0
load "M" limit 1048576
input left 0
out
= 48504646 01020400 00000002 00000002 01000000 00000000 01000000 02000000
= 03000000 04000000 0001
notes
| mark 0 0 held 2 sum 7
| mark 0 1 held 2 sum 10

row a lower bound of -3
words hpfturn run M
file M | INTEGER A(-3:2)
| !HPF$ PROCESSORS P(0:3)
| !HPF$ DISTRIBUTE A(BLOCK) ONTO P
| !PIPE$ INPUT A
input = 48504646 01 01 04 00 00000006
= 01 00000000 00000001 00000002 00000003 00000004 00000005 00000006
= 00 00000001
gives
status 0
load "M" limit 1048576
input left 0
out
= 48504646 01010400 00000006 01000000 00000000 01000000 02000000 03000000
= 04000000 05000000 06000000 0001
notes
| mark 0 0 held 2 sum 5
| mark 0 1 held 2 sum 11
| mark 0 2 held 2 sum 17
| mark 0 3 held 0 sum 0

row seven dimensions
words hpfturn run M
file M | INTEGER A(1,2,1,1,2,1,1)
| !HPF$ PROCESSORS P(1,1,1,1,2,1,1)
| !HPF$ DISTRIBUTE A(BLOCK,BLOCK,BLOCK,BLOCK,BLOCK,BLOCK,BLOCK) ONTO P
| !PIPE$ INPUT A
input = 48504646 01 07 04 00 00000001 00000002 00000001 00000001 00000002 00000001 00000001
@ FOUR
gives
status 0
load "M" limit 1048576
input left 0
out
= 48504646 01070400 00000001 00000002 00000001 00000001 00000002 00000001
= 00000001 01000000 00000000 01000000 02000000 03000000 04000000 0001
notes
| mark 0 0 held 2 sum 5
| mark 0 1 held 2 sum 11

row the second of two arrays is the input
words hpfturn run M
file M | INTEGER A(4), B(3)
| !HPF$ PROCESSORS P(4), Q(2)
| !HPF$ DISTRIBUTE A(BLOCK) ONTO P
| !HPF$ DISTRIBUTE B(BLOCK) ONTO Q
| !PIPE$ INPUT B
input @ F3
gives
status 0
load "M" limit 1048576
input left 0
out @ F3
notes @ MARKS

row the frames of another array
words hpfturn run M
file M | INTEGER A(4), B(3)
| !HPF$ PROCESSORS P(4), Q(2)
| !HPF$ DISTRIBUTE A(BLOCK) ONTO P
| !HPF$ DISTRIBUTE B(BLOCK) ONTO Q
| !PIPE$ INPUT A
input @ F3
gives
status 3 input refused 0 NotBuilt at 0
load "M" limit 1048576

row the extents of a matrix the wrong way round
words hpfturn run M
file M | INTEGER A(1,4)
| !HPF$ PROCESSORS P(1,2)
| !HPF$ DISTRIBUTE A(BLOCK,BLOCK) ONTO P
| !PIPE$ INPUT A
input = 48504646 01 02 04 00 00000004 00000001
@ FOUR
gives
status 3 input refused 0 NotBuilt at 0
load "M" limit 1048576

row as many elements as a run takes, in two dimensions
words hpfturn run M
file M | INTEGER A(256,256)
| !HPF$ PROCESSORS P(2,2)
| !HPF$ DISTRIBUTE A(BLOCK,BLOCK) ONTO P
| !PIPE$ INPUT A
input = 48504646 01 02 04 00 00000100 00000100
= 01 00000000
65536 * = 00000001
= 00 00000001
gives
status 0
load "M" limit 1048576
input left 0
out
= 48504646 01020400 00000100 00000100 01000000 00000000 01000000 01000000
8191 * = 01000000 01000000 01000000 01000000 01000000 01000000 01000000 01000000
= 01000000 01000000 01000000 01000000 01000000 01000000 0001
notes
| mark 0 0 held 16384 sum 134225920
| mark 0 1 held 16384 sum 134225920
| mark 0 2 held 16384 sum 134225920
| mark 0 3 held 16384 sum 134225920

row a row of elements more
words hpfturn run M
file M | INTEGER A(257,256)
| !HPF$ PROCESSORS P(2,2)
| !HPF$ DISTRIBUTE A(BLOCK,BLOCK) ONTO P
| !PIPE$ INPUT A
input = 48504646 01 02 04 00 00000101 00000100
gives
status 2 map refused 9 NotBuilt at 1:1
load "M" limit 1048576
input left 16

row too many elements beside a breach
words hpfturn run M
file M | INTEGER A(65537)
| !HPF$ PROCESSORS P(2)
| !HPF$ DISTRIBUTE A(BLOCK) ONTO P
| !PIPE$ INPUT A
| INTEGER B(0)
input @ F3
gives
status 2 map refused 25 Empty at 5:11
load "M" limit 1048576
input left 34

row too many elements of an array that isn't the input
words hpfturn run M
file M | INTEGER B(65537)
@ M13
input @ F3
gives
status 0
load "M" limit 1048576
input left 0
out @ F3
notes @ MARKS

"#;
