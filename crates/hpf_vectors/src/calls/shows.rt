//! Rows for canonical texts.

/// Texts that are shown, and that are refused.
pub(super) const ROWS: &str = r#"
row an empty text, and sinks with no room
words hpfturn show M
file M
step 1
out room 0
notes room 0
gives
status 0
load "M" limit 1048576
input left 0

row parentheses and signs
words hpfturn show M
file M - integer a((1+2)*3,-(2-5))
step 7
gives
status 0
load "M" limit 1048576
input left 0
out | INTEGER A((1+2)*3, -(2-5))

row differences
words hpfturn show M
file M - INTEGER A((1-2)-3, 1-(2-3))
step 7
gives
status 0
load "M" limit 1048576
input left 0
out | INTEGER A(1-2-3, 1-(2-3))

row a triplet
words hpfturn show M
file M - !hpf$ align b(:) with t(7:1:-2,0)
step 7
gives
status 0
load "M" limit 1048576
input left 0
out | !HPF$ ALIGN B(:) WITH T(7:1:-2, 0)

row statements in free form
words hpfturn show M
for S 1 3 7 40
file M |   integer , parameter::n=(4)
| integer a(n,0:n-1)
| !hpf$ processors p(2)
| !hpf$ distribute a(block , &
| !hpf$ *)onto p
step S
gives
status 0
load "M" limit 1048576
input left 0
out
| INTEGER, PARAMETER :: N = 4
| INTEGER A(N, 0:N-1)
| !HPF$ PROCESSORS P(2)
| !HPF$ DISTRIBUTE A(BLOCK, *) ONTO P

row what is shown is shown again
words hpfturn show M
file M | INTEGER, PARAMETER :: N = 4
| INTEGER A(N, 0:N-1)
| !HPF$ PROCESSORS P(2)
| !HPF$ DISTRIBUTE A(BLOCK, *) ONTO P
gives
status 0
load "M" limit 1048576
input left 0
out
| INTEGER, PARAMETER :: N = 4
| INTEGER A(N, 0:N-1)
| !HPF$ PROCESSORS P(2)
| !HPF$ DISTRIBUTE A(BLOCK, *) ONTO P

row 50000 statements
words hpfturn show M
file M
50000 * | integer a
gives
status 0
load "M" limit 1048576
input left 0
out 50000 * | INTEGER A

row as many blanks as a text may have bytes
words hpfturn show M
file M 1048576 * = 20
gives
status 0
load "M" limit 1048576
input left 0

row a blank more
words hpfturn show M
file M 1048577 * = 20
gives
status 2 map refused 5 TooLong at 0:0
load "M" limit 1048576
input left 0

row a byte that begins no token, shown
words hpfturn show M
file M - INTEGER A(8) ;
gives
status 2 map refused 1 BadByte at 1:14
load "M" limit 1048576
input left 0

row a statement that should go on, shown
words hpfturn show M
file M - !HPF$ PROCESSORS P(4), &
gives
status 2 map refused 4 DanglingContinuation at 1:24
load "M" limit 1048576
input left 0

row a statement that stops, shown
words hpfturn show M
file M - !HPF$ DISTRIBUTE A(BLOCK
gives
status 2 map refused 10 Syntax at 1:25
load "M" limit 1048576
input left 0

row a reserved word as a name
words hpfturn show M
file M - INTEGER BLOCK
gives
status 2 map refused 10 Syntax at 1:9
load "M" limit 1048576
input left 0

text CANONICAL
| INTEGER A(3)

row a write of a canonical text that fails: call 13 is the flush, and the last
words hpfturn show M
for N 0..14
file M - integer a(3)
step 1
out fails N
gives for N 0
status 6 write fault
load "M" limit 1048576
out failed 1
gives for N 1..13
status 6 write fault
load "M" limit 1048576
out @ M13 N
out failed 1
gives for N 14
status 0
load "M" limit 1048576
input left 0
out @ M13 13

row writes of a canonical text that fail one after another
words hpfturn show M
file M - integer a(3)
step 1
out fails 5 6
gives
status 6 write fault
load "M" limit 1048576
out - INTEG
out failed 1

row out is full of a canonical text
words hpfturn show M
for N 0..13
file M - integer a(3)
step 1
out room N
gives for N 0
status 6 write fault
load "M" limit 1048576
out failed 1
gives for N 1..12
status 6 write fault
load "M" limit 1048576
out @ M13 N
out failed 1
gives for N 13
status 0
load "M" limit 1048576
input left 0
out @ M13 N

row neither input nor notes are touched
words hpfturn show M
file M - integer a(3)
input @ F3
input fails 0
notes fails 0
notes room 0
gives
status 0
load "M" limit 1048576
input left 34
out @ CANONICAL

"#;
