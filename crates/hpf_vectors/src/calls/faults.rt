//! Rows for runs of which a call fails, and for ends that can't fail.

/// Each call of an object that fails in turn, and room that is needed and no more.
pub(super) const ROWS: &str = r#"
# Runs of which a call fails. With a step of 1 each call moves a byte.

row a read that fails: no run over these bytes makes read 35
words hpfturn run M
for N 0..35
file M @ M13
input @ F3
step 1
input fails N
gives for N 0..11
status 5 read fault
load "M" limit 1048576
input left 34-N
input failed 1
gives for N 12..28
status 5 read fault
load "M" limit 1048576
input left 34-N
input failed 1
out @ H3
gives for N 29..34
status 5 read fault
load "M" limit 1048576
input left 34-N
input failed 1
out @ F3 29
gives for N 35
status 0
load "M" limit 1048576
input left 0
out @ F3
notes
| mark 0 0 held 2 sum 5
| mark 0 1 held 1 sum 3

row a write that fails: call 34 is the flush, and the last
words hpfturn run M
for N 0..35
file M @ M13
input @ F3
step 1
out fails N
gives for N 0
status 6 write fault
load "M" limit 1048576
out failed 1
gives for N 1..34
status 6 write fault
load "M" limit 1048576
out @ F3 N
out failed 1
gives for N 35
status 0
load "M" limit 1048576
input left 0
out @ F3
notes
| mark 0 0 held 2 sum 5
| mark 0 1 held 1 sum 3

text MARKS
| mark 0 0 held 2 sum 5
| mark 0 1 held 1 sum 3

row a write of notes that fails: call 43 is the last that writes
words hpfturn run M
for N 0..44
file M @ M13
input @ F3
step 1
notes fails N
gives for N 0
status 6 write fault
load "M" limit 1048576
out @ F3
notes failed 1
gives for N 1..43
status 6 write fault
load "M" limit 1048576
out @ F3
notes @ MARKS N
notes failed 1
gives for N 44
status 0
load "M" limit 1048576
input left 0
out @ F3
notes @ MARKS

row reads that fail one after another: the second isn't made
words hpfturn run M
file M @ M13
input @ F3
step 1
input fails 20 21
gives
status 5 read fault
load "M" limit 1048576
input left 14
input failed 1
out @ H3

row writes that fail one after another
words hpfturn run M
file M @ M13
input @ F3
step 1
out fails 20 21
gives
status 6 write fault
load "M" limit 1048576
out @ F3 20
out failed 1

row a flush that fails, and the call behind it
words hpfturn run M
file M @ M13
input @ F3
step 1
out fails 34 35
gives
status 6 write fault
load "M" limit 1048576
out @ F3
out failed 1

row writes of notes that fail one after another
words hpfturn run M
file M @ M13
input @ F3
step 1
notes fails 20 21
gives
status 6 write fault
load "M" limit 1048576
out @ F3
notes @ MARKS 20
notes failed 1

row out is full
words hpfturn run M
for N 0..33
for S 1 7 40
file M @ M13
input @ F3
out room N
step S
gives for N 0
status 6 write fault
load "M" limit 1048576
out failed 1
gives for N 1..33
status 6 write fault
load "M" limit 1048576
out @ F3 N
out failed 1

row the notes are full
words hpfturn run M
for N 0..43
for S 1 7 40
file M @ M13
input @ F3
notes room N
step S
gives for N 0
status 6 write fault
load "M" limit 1048576
out @ F3
notes failed 1
gives for N 1..43
status 6 write fault
load "M" limit 1048576
out @ F3
notes @ MARKS N
notes failed 1

# Ends that can't fail, with the room that is needed and no more.
sure a run with just the room that it needs
words hpfturn run M
file M @ M13
input @ F3
step 1
out room 34
notes room 44
gives
status 0
out @ F3
notes @ MARKS
status 0
out @ F3
notes @ MARKS

"#;
