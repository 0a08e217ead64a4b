//! Rows for mapping texts, each of which is to be run.

/// Texts that are run, and texts that are refused.
pub(super) const ROWS: &str = r#"
# Maps that are run, however they are written

row a map in small letters, with no line feed at its end
words hpfturn run M
file M
| integer a(3)
| !hpf$ processors p(2)
| !hpf$ distribute a(block) onto p
- !pipe$ input a
input @ F3
step 7
gives
status 0
load "M" limit 1048576
input left 0
out @ F3
notes
| mark 0 0 held 2 sum 5
| mark 0 1 held 1 sum 3

row a map with blanks, comments, a tab, a carriage return and the name behind
words hpfturn run M
file M
| ! rows
|
|   INTEGER :: A ( (03) ) ! three
= 09
- !HPF$PROCESSORS P(2)
= 0d 0a
| !HPF$ DISTRIBUTE (BLOCK) ONTO P :: A
| !PIPE$ INPUT A
input @ F3
step 7
gives
status 0
load "M" limit 1048576
input left 0
out @ F3
notes
| mark 0 0 held 2 sum 5
| mark 0 1 held 1 sum 3

row a map with statements that go on, and other names
words hpfturn run M
file M
| INTEGER &
|  & RADAR_1(+3)
| !HPF$ PROCESSORS &
| !HPF$ A(2)
| !HPF$ DISTRIBUTE RADAR_1(BLOCK) ONTO A
| !PIPE$ INPUT Radar_1
input @ F3
step 7
gives
status 0
load "M" limit 1048576
input left 0
out @ F3
notes
| mark 0 0 held 2 sum 5
| mark 0 1 held 1 sum 3

# Maps that are refused

row one line
words hpfturn run M
file M - INTEGER A(3)
input @ F3
gives
status 2 map refused 42 Pipeline at 2:1
load "M" limit 1048576
input left 34

row the same with its line feed
words hpfturn run M
file M | INTEGER A(3)
input @ F3
gives
status 2 map refused 42 Pipeline at 2:1
load "M" limit 1048576
input left 34

row an empty map
words hpfturn run M
file M
input @ F3
gives
status 2 map refused 42 Pipeline at 1:1
load "M" limit 1048576
input left 34

row array and processors of one name
words hpfturn run M
file M
| INTEGER A(3)
| !HPF$ PROCESSORS A(2)
| !HPF$ DISTRIBUTE A(BLOCK) ONTO A
| !PIPE$ INPUT A
input @ F3
gives
status 2 map refused 21 Twice at 2:18
load "M" limit 1048576
input left 34

row another array is distributed
words hpfturn run M
file M
| INTEGER A(3)
| !HPF$ PROCESSORS P(2)
| !HPF$ DISTRIBUTE B(BLOCK) ONTO P
| !PIPE$ INPUT A
input @ F3
gives
status 2 map refused 22 Unknown at 3:18
load "M" limit 1048576
input left 34

row it is distributed onto other processors
words hpfturn run M
file M
| INTEGER A(3)
| !HPF$ PROCESSORS P(2)
| !HPF$ DISTRIBUTE A(BLOCK) ONTO Q
| !PIPE$ INPUT A
input @ F3
gives
status 2 map refused 22 Unknown at 3:32
load "M" limit 1048576
input left 34

row another array is the input
words hpfturn run M
file M
| INTEGER A(3)
| !HPF$ PROCESSORS P(2)
| !HPF$ DISTRIBUTE A(BLOCK) ONTO P
| !PIPE$ INPUT B
input @ F3
gives
status 2 map refused 22 Unknown at 4:14
load "M" limit 1048576
input left 34

row it is distributed onto no processors by name
words hpfturn run M
file M
| INTEGER A(3)
| !HPF$ PROCESSORS P(2)
| !HPF$ DISTRIBUTE A(BLOCK)
| !PIPE$ INPUT A
input @ F3
gives
status 0
load "M" limit 1048576
input left 0
out @ F3
notes
| mark 0 0 held 2 sum 5
| mark 0 1 held 1 sum 3

row blocks of a width
words hpfturn run M
file M
| INTEGER A(3)
| !HPF$ PROCESSORS P(2)
| !HPF$ DISTRIBUTE A(BLOCK(2)) ONTO P
| !PIPE$ INPUT A
input @ F3
gives
status 0
load "M" limit 1048576
input left 0
out @ F3
notes
| mark 0 0 held 2 sum 5
| mark 0 1 held 1 sum 3

row another format
words hpfturn run M
file M
| INTEGER A(3)
| !HPF$ PROCESSORS P(2)
| !HPF$ DISTRIBUTE A(CYCLIC) ONTO P
| !PIPE$ INPUT A
input @ F3
gives
status 0
load "M" limit 1048576
input left 0
out @ F3
notes
| mark 0 0 held 2 sum 7
| mark 0 1 held 1 sum 2

row an array that is distributed twice
words hpfturn run M
file M
| INTEGER A(3)
| !HPF$ PROCESSORS P(2)
| !HPF$ DISTRIBUTE (BLOCK) ONTO P :: A, A
| !PIPE$ INPUT A
input @ F3
gives
status 2 map refused 35 MappedTwice at 3:39
load "M" limit 1048576
input left 34

row a lower bound
words hpfturn run M
file M
| INTEGER A(1:3)
@ ON_TWO
input @ F3
gives
status 0
load "M" limit 1048576
input left 0
out @ F3
notes
| mark 0 0 held 2 sum 5
| mark 0 1 held 1 sum 3

row a sum as extent
words hpfturn run M
file M
| INTEGER A(1+2)
@ ON_TWO
input @ F3
gives
status 0
load "M" limit 1048576
input left 0
out @ F3
notes
| mark 0 0 held 2 sum 5
| mark 0 1 held 1 sum 3

row an extent with a sign
words hpfturn run M
file M
| INTEGER A(-3)
@ ON_TWO
input @ F3
gives
status 2 map refused 25 Empty at 1:11
load "M" limit 1048576
input left 34

row a name as extent
words hpfturn run M
file M
| INTEGER A(N)
@ ON_TWO
input @ F3
gives
status 2 map refused 22 Unknown at 1:11
load "M" limit 1048576
input left 34

row two dimensions
words hpfturn run M
file M
| INTEGER A(3,3)
@ ON_TWO
input @ F3
gives
status 2 map refused 24 Rank at 3:18
load "M" limit 1048576
input left 34

row two arrays
words hpfturn run M
file M
| INTEGER A(3), B(3)
@ ON_TWO
input @ F3
gives
status 0
load "M" limit 1048576
input left 0
out @ F3
notes
| mark 0 0 held 2 sum 5
| mark 0 1 held 1 sum 3

row a shape in front
words hpfturn run M
file M
| INTEGER, DIMENSION(3) :: A
@ ON_TWO
input @ F3
gives
status 0
load "M" limit 1048576
input left 0
out @ F3
notes
| mark 0 0 held 2 sum 5
| mark 0 1 held 1 sum 3

row no elements
words hpfturn run M
file M
| INTEGER A(0)
@ ON_TWO
input @ F3
gives
status 2 map refused 25 Empty at 1:11
load "M" limit 1048576
input left 34

row 65537 elements
words hpfturn run M
file M
| INTEGER A(65537)
@ ON_TWO
input @ F3
gives
status 2 map refused 9 NotBuilt at 1:1
load "M" limit 1048576
input left 34

row no processors
words hpfturn run M
file M
| INTEGER A(3)
| !HPF$ PROCESSORS P(0)
| !HPF$ DISTRIBUTE A(BLOCK) ONTO P
| !PIPE$ INPUT A
input @ F3
gives
status 2 map refused 25 Empty at 2:20
load "M" limit 1048576
input left 34

row 65 processors
words hpfturn run M
file M
| INTEGER A(3)
| !HPF$ PROCESSORS P(65)
| !HPF$ DISTRIBUTE A(BLOCK) ONTO P
| !PIPE$ INPUT A
input @ F3
gives
status 2 map refused 26 Limit at 2:18
load "M" limit 1048576
input left 34

row buffers
words hpfturn run M
file M
| INTEGER A(3)
| !HPF$ PROCESSORS P(2)
| !HPF$ DISTRIBUTE A(BLOCK) ONTO P
| !PIPE$ INPUT A BUFFERS(2)
input @ F3
gives
status 0
load "M" limit 1048576
input left 0
out @ F3
notes
| mark 0 0 held 2 sum 5
| mark 0 1 held 1 sum 3

row a stage
words hpfturn run M
file M
@ M13
| !PIPE$ STAGE A
input @ F3
gives
status 2 map refused 9 NotBuilt at 1:1
load "M" limit 1048576
input left 34

row a stage beside breaches
words hpfturn run M
file M
| INTEGER A(0)
| !PIPE$ STAGE B
input @ F3
gives
status 2 map refused 9 NotBuilt at 1:1
load "M" limit 1048576
input left 34

row a stage behind a line that isn't a statement
words hpfturn run M
file M
| INTEGER A(
| !PIPE$ STAGE B
input @ F3
gives
status 2 map refused 10 Syntax at 1:11
load "M" limit 1048576
input left 34

row an operation
words hpfturn run M
file M
| INTEGER A(3)
| !HPF$ PROCESSORS P(2)
| !HPF$ DISTRIBUTE A(BLOCK) ONTO P
| !PIPE$ INPUT A ADD(0)
input @ F3
gives
status 2 map refused 9 NotBuilt at 1:1
load "M" limit 1048576
input left 34

row a template in place of processors
words hpfturn run M
file M
| INTEGER A(3)
| !HPF$ TEMPLATE P(2)
| !HPF$ DISTRIBUTE A(BLOCK) ONTO P
| !PIPE$ INPUT A
input @ F3
gives
status 2 map refused 23 Kind at 3:32
load "M" limit 1048576
input left 34

row another order
words hpfturn run M
file M
| !HPF$ PROCESSORS P(2)
| INTEGER A(3)
| !HPF$ DISTRIBUTE A(BLOCK) ONTO P
| !PIPE$ INPUT A
input @ F3
gives
status 0
load "M" limit 1048576
input left 0
out @ F3
notes
| mark 0 0 held 2 sum 5
| mark 0 1 held 1 sum 3

row a line more in front
words hpfturn run M
file M
| IMPLICIT NONE
@ M13
input @ F3
gives
status 0
load "M" limit 1048576
input left 0
out @ F3
notes
| mark 0 0 held 2 sum 5
| mark 0 1 held 1 sum 3

row a byte that begins no token
words hpfturn run M
file M - INTEGER A(8) ;
input @ F3
gives
status 2 map refused 1 BadByte at 1:14
load "M" limit 1048576
input left 34

row a statement that should go on
words hpfturn run M
file M - !HPF$ PROCESSORS P(4), &
input @ F3
gives
status 2 map refused 4 DanglingContinuation at 1:24
load "M" limit 1048576
input left 34

row a statement that stops
words hpfturn run M
file M - !HPF$ DISTRIBUTE A(BLOCK
input @ F3
gives
status 2 map refused 10 Syntax at 1:25
load "M" limit 1048576
input left 34

row a byte that begins no token, below a statement that stops
words hpfturn run M
file M | INTEGER A(3
| !PIPE$ INPUT A ;
input @ F3
gives
status 2 map refused 1 BadByte at 2:16
load "M" limit 1048576
input left 34

"#;
