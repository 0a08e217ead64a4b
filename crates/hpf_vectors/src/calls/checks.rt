//! Rows for texts that are checked, and no more.

/// Texts that are accepted, and texts that are refused.
pub(super) const ROWS: &str = r#"
# Texts that are accepted

row counts of each kind
words hpfturn check M
file M | INTEGER A(3), B(3), N
| INTEGER, PARAMETER :: K = 2
| !HPF$ TEMPLATE T(3), U(4), V(5)
| !HPF$ PROCESSORS P(K), Q(2,2), R(1), S(4)
| !HPF$ ALIGN B WITH T
| !HPF$ DISTRIBUTE (BLOCK) ONTO P :: A, T
| !PIPE$ INPUT B
gives
status 0
load "M" limit 1048576
input left 0
out | accepted arrays 2 templates 3 arrangements 4 stages 1

row a check asks for no pipeline, nor for frames
words hpfturn check M
file M - INTEGER A(3)
input @ F3
input fails 0
notes fails 0
notes room 0
gives
status 0
load "M" limit 1048576
input left 34
out | accepted arrays 1 templates 0 arrangements 0 stages 0

row an empty text is checked, and step by step
words hpfturn check M
for S 1 7 40
file M
step S
gives
status 0
load "M" limit 1048576
input left 0
out | accepted arrays 0 templates 0 arrangements 0 stages 0

row statements in free form, checked
words hpfturn check M
file M |   integer , parameter::n=(4)
| integer a(n,0:n-1)
| !hpf$ processors p(2)
| !hpf$ distribute a(block , &
| !hpf$ *)onto p
gives
status 0
load "M" limit 1048576
input left 0
out | accepted arrays 1 templates 0 arrangements 1 stages 0

row as many blanks as a text may have bytes, checked
words hpfturn check M
file M 1048576 * = 20
gives
status 0
load "M" limit 1048576
input left 0
out | accepted arrays 0 templates 0 arrangements 0 stages 0

row a blank more, checked
words hpfturn check M
file M 1048577 * = 20
gives
status 2 map refused 5 TooLong at 0:0
load "M" limit 1048576
input left 0

row more elements than a run takes
words hpfturn check M
file M | INTEGER A(65537)
@ ON_TWO
gives
status 0
load "M" limit 1048576
input left 0
out | accepted arrays 1 templates 0 arrangements 1 stages 1

# Texts that are refused

row a cycle of two
words hpfturn check M
file M | INTEGER A(4), B(4)
| !HPF$ ALIGN A WITH B
| !HPF$ ALIGN B WITH A
gives
status 2 map refused 40 Cycle at 2:13
load "M" limit 1048576
input left 0

row a place outside the base
words hpfturn check M
file M | INTEGER A(4)
| !HPF$ TEMPLATE T(4)
| !HPF$ ALIGN A(I) WITH T(I+1)
gives
status 2 map refused 39 Outside at 3:13
load "M" limit 1048576
input left 0

row a dummy in two subscripts
words hpfturn check M
file M | INTEGER A(4)
| !HPF$ TEMPLATE T(4,4)
| !HPF$ ALIGN A(I) WITH T(I,I)
gives
status 2 map refused 36 DummyTwice at 3:27
load "M" limit 1048576
input left 0

row a byte that begins no token, checked
words hpfturn check M
file M - INTEGER A(8) ;
gives
status 2 map refused 1 BadByte at 1:14
load "M" limit 1048576
input left 0

row a statement that should go on, checked
words hpfturn check M
file M - !HPF$ PROCESSORS P(4), &
gives
status 2 map refused 4 DanglingContinuation at 1:24
load "M" limit 1048576
input left 0

row a statement that stops, checked
words hpfturn check M
file M - !HPF$ DISTRIBUTE A(BLOCK
gives
status 2 map refused 10 Syntax at 1:25
load "M" limit 1048576
input left 0

row a map to be checked that the loader doesn't hold
words hpfturn check N
file M @ M13
gives
status 7 load fault
load "N" limit 1048576 failed
input left 0

row another format, checked
words hpfturn check M
file M | INTEGER A(3)
| !HPF$ PROCESSORS P(2)
| !HPF$ DISTRIBUTE A(CYCLIC) ONTO P
gives
status 0
load "M" limit 1048576
input left 0
out | accepted arrays 1 templates 0 arrangements 1 stages 0

row blocks of a width beside a name that is declared twice
words hpfturn check M
file M | INTEGER A(3), A(4)
| !HPF$ PROCESSORS P(2)
| !HPF$ DISTRIBUTE A(BLOCK(2)) ONTO P
gives
status 2 map refused 21 Twice at 1:15
load "M" limit 1048576
input left 0

row a shadow
words hpfturn check M
file M | INTEGER A(3)
| !HPF$ SHADOW A(1)
gives
status 0
load "M" limit 1048576
input left 0
out | accepted arrays 1 templates 0 arrangements 0 stages 0

row a shadow of an unknown name
words hpfturn check M
file M | !HPF$ SHADOW B(1)
gives
status 2 map refused 22 Unknown at 1:14
load "M" limit 1048576
input left 0

# Stages

row three stages
words hpfturn check M
file M
@ M13
| !PIPE$ STAGE A
| !PIPE$ STAGE A PERMUTE(1) BUFFERS(8)
gives
status 0
load "M" limit 1048576
input left 0
out | accepted arrays 1 templates 0 arrangements 1 stages 3

row a stage of an unknown name
words hpfturn check M
file M - !PIPE$ STAGE B
gives
status 2 map refused 22 Unknown at 1:14
load "M" limit 1048576
input left 0

row a stage before any input
words hpfturn check M
file M
| !PIPE$ STAGE A
@ M13
gives
status 2 map refused 42 Pipeline at 1:14
load "M" limit 1048576
input left 0

row nine buffers
words hpfturn check M
file M
| INTEGER A(3)
| !HPF$ PROCESSORS P(2)
| !HPF$ DISTRIBUTE A(BLOCK) ONTO P
| !PIPE$ INPUT A BUFFERS(9)
gives
status 2 map refused 26 Limit at 4:24
load "M" limit 1048576
input left 0

row no buffer
words hpfturn check M
file M
| INTEGER A(3)
| !HPF$ PROCESSORS P(2)
| !HPF$ DISTRIBUTE A(BLOCK) ONTO P
| !PIPE$ INPUT A BUFFERS(0)
gives
status 2 map refused 26 Limit at 4:24
load "M" limit 1048576
input left 0

row sixteen stages behind an input
words hpfturn check M
file M
@ M13
16 * | !PIPE$ STAGE A
gives
status 2 map refused 26 Limit at 20:14
load "M" limit 1048576
input left 0

row fifteen stages behind an input
words hpfturn check M
file M
@ M13
15 * | !PIPE$ STAGE A
gives
status 0
load "M" limit 1048576
input left 0
out | accepted arrays 1 templates 0 arrangements 1 stages 16

# Operations aren't built, alone and beside a breach, which comes after, or a fault, which comes before

row an operation, checked
words hpfturn check M
file M | INTEGER A(3)
| !PIPE$ INPUT A MUL(2)
gives
status 2 map refused 9 NotBuilt at 1:1
load "M" limit 1048576
input left 0

row an operation of an unknown name
words hpfturn check M
file M - !PIPE$ INPUT A PREFIX(1)
gives
status 2 map refused 9 NotBuilt at 1:1
load "M" limit 1048576
input left 0

row an operation below a statement that stops
words hpfturn check M
file M | INTEGER A(3
| !PIPE$ INPUT A MUL(2)
gives
status 2 map refused 10 Syntax at 1:12
load "M" limit 1048576
input left 0

# What a check writes

row a write of counts that fails: call 54 is the flush, and the last
words hpfturn check M
for N 0 20 53..55
file M @ M13
step 1
out fails N
gives for N 0
status 6 write fault
load "M" limit 1048576
out failed 1
gives for N 20
status 6 write fault
load "M" limit 1048576
out - accepted arrays 1 te
out failed 1
gives for N 53
status 6 write fault
load "M" limit 1048576
out - accepted arrays 1 templates 0 arrangements 1 stages 1
out failed 1
gives for N 54
status 6 write fault
load "M" limit 1048576
out | accepted arrays 1 templates 0 arrangements 1 stages 1
out failed 1
gives for N 55
status 0
load "M" limit 1048576
input left 0
out | accepted arrays 1 templates 0 arrangements 1 stages 1

text COUNTS
| accepted arrays 1 templates 0 arrangements 1 stages 1

row out is full of counts
words hpfturn check M
for N 0 20 53 54
file M @ M13
step 1
out room N
gives for N 0
status 6 write fault
load "M" limit 1048576
out failed 1
gives for N 20 53
status 6 write fault
load "M" limit 1048576
out @ COUNTS N
out failed 1
gives for N 54
status 0
load "M" limit 1048576
input left 0
out @ COUNTS

"#;
