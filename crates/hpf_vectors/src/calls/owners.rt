//! Rows for the owners of the elements of an array.

/// Arrays whose owners are told, and names that are no mapped array.
pub(super) const ROWS: &str = r#"
# Owners

row owners by a name in small letters
words hpfturn owners M a
file M @ M13
input @ F3
input fails 0
notes fails 0
notes room 0
gives
status 0
load "M" limit 1048576
input left 34
out
| (1) 0
| (2) 0
| (3) 1

row ten elements in blocks
words hpfturn owners M A
file M | INTEGER A(10)
| !HPF$ PROCESSORS P(4)
| !HPF$ DISTRIBUTE A(BLOCK) ONTO P
gives
status 0
load "M" limit 1048576
input left 0
out
| (1) 0
| (2) 0
| (3) 0
| (4) 1
| (5) 1
| (6) 1
| (7) 2
| (8) 2
| (9) 2
| (10) 3

row ten elements in blocks of two, dealt in turn
words hpfturn owners M A
file M | INTEGER A(10)
| !HPF$ PROCESSORS P(3)
| !HPF$ DISTRIBUTE A(CYCLIC(2)) ONTO P
gives
status 0
load "M" limit 1048576
input left 0
out
| (1) 0
| (2) 0
| (3) 1
| (4) 1
| (5) 2
| (6) 2
| (7) 0
| (8) 0
| (9) 1
| (10) 1

row blocks of three
words hpfturn owners M A
file M | INTEGER A(10)
| !HPF$ PROCESSORS P(4)
| !HPF$ DISTRIBUTE A(BLOCK(3)) ONTO P
gives
status 0
load "M" limit 1048576
input left 0
out
| (1) 0
| (2) 0
| (3) 0
| (4) 1
| (5) 1
| (6) 1
| (7) 2
| (8) 2
| (9) 2
| (10) 3

row blocks of two, which are too small
words hpfturn owners M A
file M | INTEGER A(10)
| !HPF$ PROCESSORS P(4)
| !HPF$ DISTRIBUTE A(BLOCK(2)) ONTO P
gives
status 2 map refused 27 BlockTooSmall at 3:20
load "M" limit 1048576
input left 0

row blocks of given lengths
words hpfturn owners M A
file M | INTEGER A(10)
| INTEGER, PARAMETER :: G(3) = (/ 3, 0, 7 /)
| !HPF$ PROCESSORS P(3)
| !HPF$ DISTRIBUTE A(GEN_BLOCK(G)) ONTO P
gives
status 0
load "M" limit 1048576
input left 0
out
| (1) 0
| (2) 0
| (3) 0
| (4) 2
| (5) 2
| (6) 2
| (7) 2
| (8) 2
| (9) 2
| (10) 2

row the last block is cut at the upper bound
words hpfturn owners M A
file M | INTEGER A(10)
| INTEGER, PARAMETER :: G(3) = (/ 3, 0, 9 /)
| !HPF$ PROCESSORS P(3)
| !HPF$ DISTRIBUTE A(GEN_BLOCK(G)) ONTO P
gives
status 0
load "M" limit 1048576
input left 0
out
| (1) 0
| (2) 0
| (3) 0
| (4) 2
| (5) 2
| (6) 2
| (7) 2
| (8) 2
| (9) 2
| (10) 2

row given lengths that come to less than the extent
words hpfturn owners M A
file M | INTEGER A(10)
| INTEGER, PARAMETER :: G(3) = (/ 3, 0, 6 /)
| !HPF$ PROCESSORS P(3)
| !HPF$ DISTRIBUTE A(GEN_BLOCK(G)) ONTO P
gives
status 2 map refused 31 LengthSum at 4:20
load "M" limit 1048576
input left 0

row given places
words hpfturn owners M A
file M | INTEGER A(5)
| INTEGER, PARAMETER :: V(5) = (/ 2, 1, 2, 2, 1 /)
| !HPF$ PROCESSORS P(2)
| !HPF$ DISTRIBUTE A(INDIRECT(V)) ONTO P
gives
status 0
load "M" limit 1048576
input left 0
out
| (1) 1
| (2) 0
| (3) 1
| (4) 1
| (5) 0

row a given place above the bounds of the arrangement
words hpfturn owners M A
file M | INTEGER A(5)
| INTEGER, PARAMETER :: V(5) = (/ 2, 1, 3, 2, 1 /)
| !HPF$ PROCESSORS P(2)
| !HPF$ DISTRIBUTE A(INDIRECT(V)) ONTO P
gives
status 2 map refused 33 PlaceValue at 4:20
load "M" limit 1048576
input left 0

row a given place above the bounds of an arrangement from 0
words hpfturn owners M A
file M | INTEGER A(5)
| INTEGER, PARAMETER :: V(5) = (/ 1, 0, 2, 0, 1 /)
| !HPF$ PROCESSORS P(0:1)
| !HPF$ DISTRIBUTE A(INDIRECT(V)) ONTO P
gives
status 2 map refused 33 PlaceValue at 4:20
load "M" limit 1048576
input left 0

row every other position of a template
words hpfturn owners M A
file M | INTEGER A(5)
| !HPF$ TEMPLATE T(9)
| !HPF$ PROCESSORS P(2)
| !HPF$ ALIGN A(I) WITH T(2*I-1)
| !HPF$ DISTRIBUTE T(CYCLIC(3)) ONTO P
gives
status 0
load "M" limit 1048576
input left 0
out
| (1) 0
| (2) 0
| (3) 1
| (4) 0
| (5) 0

row an array the other way round
words hpfturn owners M A
file M | INTEGER A(10)
| !HPF$ TEMPLATE T(10)
| !HPF$ PROCESSORS P(4)
| !HPF$ ALIGN A(I) WITH T(11-I)
| !HPF$ DISTRIBUTE T(BLOCK) ONTO P
gives
status 0
load "M" limit 1048576
input left 0
out
| (1) 3
| (2) 2
| (3) 2
| (4) 2
| (5) 1
| (6) 1
| (7) 1
| (8) 0
| (9) 0
| (10) 0

row a replicated array
words hpfturn owners M A
for S 1 3 40
file M | INTEGER A(4)
| !HPF$ TEMPLATE T(4,4)
| !HPF$ PROCESSORS P(2,3)
| !HPF$ ALIGN A(I) WITH T(I,*)
| !HPF$ DISTRIBUTE T(BLOCK,BLOCK) ONTO P
step S
gives
status 0
load "M" limit 1048576
input left 0
out
| (1) 0 2
| (2) 0 2
| (3) 1 3
| (4) 1 3

row a matrix with lower bounds
words hpfturn owners M A
file M | INTEGER A(-1:0,-2147483647:-2147483645)
| !HPF$ PROCESSORS P(2)
| !HPF$ DISTRIBUTE A(*,CYCLIC) ONTO P
gives
status 0
load "M" limit 1048576
input left 0
out
| (-1,-2147483647) 0
| (0,-2147483647) 0
| (-1,-2147483646) 1
| (0,-2147483646) 1
| (-1,-2147483645) 0
| (0,-2147483645) 0

row lines of 64 owners
words hpfturn owners M A
file M | INTEGER A(30)
| !HPF$ TEMPLATE T(64)
| !HPF$ PROCESSORS P(64)
| !HPF$ ALIGN A(*) WITH T(*)
| !HPF$ DISTRIBUTE T(BLOCK) ONTO P
step 1000
gives
status 0
load "M" limit 1048576
input left 0
out
| (1) 0 1 2 3 4 5 6 7 8 9 10 11 12 13 14 15 16 17 18 19 20 21 22 23 24 25 26 27 28 29 30 31 32 33 34 35 36 37 38 39 40 41 42 43 44 45 46 47 48 49 50 51 52 53 54 55 56 57 58 59 60 61 62 63
| (2) 0 1 2 3 4 5 6 7 8 9 10 11 12 13 14 15 16 17 18 19 20 21 22 23 24 25 26 27 28 29 30 31 32 33 34 35 36 37 38 39 40 41 42 43 44 45 46 47 48 49 50 51 52 53 54 55 56 57 58 59 60 61 62 63
| (3) 0 1 2 3 4 5 6 7 8 9 10 11 12 13 14 15 16 17 18 19 20 21 22 23 24 25 26 27 28 29 30 31 32 33 34 35 36 37 38 39 40 41 42 43 44 45 46 47 48 49 50 51 52 53 54 55 56 57 58 59 60 61 62 63
| (4) 0 1 2 3 4 5 6 7 8 9 10 11 12 13 14 15 16 17 18 19 20 21 22 23 24 25 26 27 28 29 30 31 32 33 34 35 36 37 38 39 40 41 42 43 44 45 46 47 48 49 50 51 52 53 54 55 56 57 58 59 60 61 62 63
| (5) 0 1 2 3 4 5 6 7 8 9 10 11 12 13 14 15 16 17 18 19 20 21 22 23 24 25 26 27 28 29 30 31 32 33 34 35 36 37 38 39 40 41 42 43 44 45 46 47 48 49 50 51 52 53 54 55 56 57 58 59 60 61 62 63
| (6) 0 1 2 3 4 5 6 7 8 9 10 11 12 13 14 15 16 17 18 19 20 21 22 23 24 25 26 27 28 29 30 31 32 33 34 35 36 37 38 39 40 41 42 43 44 45 46 47 48 49 50 51 52 53 54 55 56 57 58 59 60 61 62 63
| (7) 0 1 2 3 4 5 6 7 8 9 10 11 12 13 14 15 16 17 18 19 20 21 22 23 24 25 26 27 28 29 30 31 32 33 34 35 36 37 38 39 40 41 42 43 44 45 46 47 48 49 50 51 52 53 54 55 56 57 58 59 60 61 62 63
| (8) 0 1 2 3 4 5 6 7 8 9 10 11 12 13 14 15 16 17 18 19 20 21 22 23 24 25 26 27 28 29 30 31 32 33 34 35 36 37 38 39 40 41 42 43 44 45 46 47 48 49 50 51 52 53 54 55 56 57 58 59 60 61 62 63
| (9) 0 1 2 3 4 5 6 7 8 9 10 11 12 13 14 15 16 17 18 19 20 21 22 23 24 25 26 27 28 29 30 31 32 33 34 35 36 37 38 39 40 41 42 43 44 45 46 47 48 49 50 51 52 53 54 55 56 57 58 59 60 61 62 63
| (10) 0 1 2 3 4 5 6 7 8 9 10 11 12 13 14 15 16 17 18 19 20 21 22 23 24 25 26 27 28 29 30 31 32 33 34 35 36 37 38 39 40 41 42 43 44 45 46 47 48 49 50 51 52 53 54 55 56 57 58 59 60 61 62 63
| (11) 0 1 2 3 4 5 6 7 8 9 10 11 12 13 14 15 16 17 18 19 20 21 22 23 24 25 26 27 28 29 30 31 32 33 34 35 36 37 38 39 40 41 42 43 44 45 46 47 48 49 50 51 52 53 54 55 56 57 58 59 60 61 62 63
| (12) 0 1 2 3 4 5 6 7 8 9 10 11 12 13 14 15 16 17 18 19 20 21 22 23 24 25 26 27 28 29 30 31 32 33 34 35 36 37 38 39 40 41 42 43 44 45 46 47 48 49 50 51 52 53 54 55 56 57 58 59 60 61 62 63
| (13) 0 1 2 3 4 5 6 7 8 9 10 11 12 13 14 15 16 17 18 19 20 21 22 23 24 25 26 27 28 29 30 31 32 33 34 35 36 37 38 39 40 41 42 43 44 45 46 47 48 49 50 51 52 53 54 55 56 57 58 59 60 61 62 63
| (14) 0 1 2 3 4 5 6 7 8 9 10 11 12 13 14 15 16 17 18 19 20 21 22 23 24 25 26 27 28 29 30 31 32 33 34 35 36 37 38 39 40 41 42 43 44 45 46 47 48 49 50 51 52 53 54 55 56 57 58 59 60 61 62 63
| (15) 0 1 2 3 4 5 6 7 8 9 10 11 12 13 14 15 16 17 18 19 20 21 22 23 24 25 26 27 28 29 30 31 32 33 34 35 36 37 38 39 40 41 42 43 44 45 46 47 48 49 50 51 52 53 54 55 56 57 58 59 60 61 62 63
| (16) 0 1 2 3 4 5 6 7 8 9 10 11 12 13 14 15 16 17 18 19 20 21 22 23 24 25 26 27 28 29 30 31 32 33 34 35 36 37 38 39 40 41 42 43 44 45 46 47 48 49 50 51 52 53 54 55 56 57 58 59 60 61 62 63
| (17) 0 1 2 3 4 5 6 7 8 9 10 11 12 13 14 15 16 17 18 19 20 21 22 23 24 25 26 27 28 29 30 31 32 33 34 35 36 37 38 39 40 41 42 43 44 45 46 47 48 49 50 51 52 53 54 55 56 57 58 59 60 61 62 63
| (18) 0 1 2 3 4 5 6 7 8 9 10 11 12 13 14 15 16 17 18 19 20 21 22 23 24 25 26 27 28 29 30 31 32 33 34 35 36 37 38 39 40 41 42 43 44 45 46 47 48 49 50 51 52 53 54 55 56 57 58 59 60 61 62 63
| (19) 0 1 2 3 4 5 6 7 8 9 10 11 12 13 14 15 16 17 18 19 20 21 22 23 24 25 26 27 28 29 30 31 32 33 34 35 36 37 38 39 40 41 42 43 44 45 46 47 48 49 50 51 52 53 54 55 56 57 58 59 60 61 62 63
| (20) 0 1 2 3 4 5 6 7 8 9 10 11 12 13 14 15 16 17 18 19 20 21 22 23 24 25 26 27 28 29 30 31 32 33 34 35 36 37 38 39 40 41 42 43 44 45 46 47 48 49 50 51 52 53 54 55 56 57 58 59 60 61 62 63
| (21) 0 1 2 3 4 5 6 7 8 9 10 11 12 13 14 15 16 17 18 19 20 21 22 23 24 25 26 27 28 29 30 31 32 33 34 35 36 37 38 39 40 41 42 43 44 45 46 47 48 49 50 51 52 53 54 55 56 57 58 59 60 61 62 63
| (22) 0 1 2 3 4 5 6 7 8 9 10 11 12 13 14 15 16 17 18 19 20 21 22 23 24 25 26 27 28 29 30 31 32 33 34 35 36 37 38 39 40 41 42 43 44 45 46 47 48 49 50 51 52 53 54 55 56 57 58 59 60 61 62 63
| (23) 0 1 2 3 4 5 6 7 8 9 10 11 12 13 14 15 16 17 18 19 20 21 22 23 24 25 26 27 28 29 30 31 32 33 34 35 36 37 38 39 40 41 42 43 44 45 46 47 48 49 50 51 52 53 54 55 56 57 58 59 60 61 62 63
| (24) 0 1 2 3 4 5 6 7 8 9 10 11 12 13 14 15 16 17 18 19 20 21 22 23 24 25 26 27 28 29 30 31 32 33 34 35 36 37 38 39 40 41 42 43 44 45 46 47 48 49 50 51 52 53 54 55 56 57 58 59 60 61 62 63
| (25) 0 1 2 3 4 5 6 7 8 9 10 11 12 13 14 15 16 17 18 19 20 21 22 23 24 25 26 27 28 29 30 31 32 33 34 35 36 37 38 39 40 41 42 43 44 45 46 47 48 49 50 51 52 53 54 55 56 57 58 59 60 61 62 63
| (26) 0 1 2 3 4 5 6 7 8 9 10 11 12 13 14 15 16 17 18 19 20 21 22 23 24 25 26 27 28 29 30 31 32 33 34 35 36 37 38 39 40 41 42 43 44 45 46 47 48 49 50 51 52 53 54 55 56 57 58 59 60 61 62 63
| (27) 0 1 2 3 4 5 6 7 8 9 10 11 12 13 14 15 16 17 18 19 20 21 22 23 24 25 26 27 28 29 30 31 32 33 34 35 36 37 38 39 40 41 42 43 44 45 46 47 48 49 50 51 52 53 54 55 56 57 58 59 60 61 62 63
| (28) 0 1 2 3 4 5 6 7 8 9 10 11 12 13 14 15 16 17 18 19 20 21 22 23 24 25 26 27 28 29 30 31 32 33 34 35 36 37 38 39 40 41 42 43 44 45 46 47 48 49 50 51 52 53 54 55 56 57 58 59 60 61 62 63
| (29) 0 1 2 3 4 5 6 7 8 9 10 11 12 13 14 15 16 17 18 19 20 21 22 23 24 25 26 27 28 29 30 31 32 33 34 35 36 37 38 39 40 41 42 43 44 45 46 47 48 49 50 51 52 53 54 55 56 57 58 59 60 61 62 63
| (30) 0 1 2 3 4 5 6 7 8 9 10 11 12 13 14 15 16 17 18 19 20 21 22 23 24 25 26 27 28 29 30 31 32 33 34 35 36 37 38 39 40 41 42 43 44 45 46 47 48 49 50 51 52 53 54 55 56 57 58 59 60 61 62 63

# Names that are no mapped array. What the text is refused for comes first.

row a name that nothing declares
words hpfturn owners M B
file M @ M13
input @ F3
gives
status 1 usage 2: hpfturn ACTION MAP [NAME] [--workers N] [--stage N] [--proc N] [--seed N] [--frames N]
load "M" limit 1048576
input left 34

row the name of an arrangement
words hpfturn owners M P
file M @ M13
gives
status 1 usage 2: hpfturn ACTION MAP [NAME] [--workers N] [--stage N] [--proc N] [--seed N] [--frames N]
load "M" limit 1048576
input left 0

row a name that can be none
words hpfturn owners M A-
file M @ M13
gives
status 1 usage 2: hpfturn ACTION MAP [NAME] [--workers N] [--stage N] [--proc N] [--seed N] [--frames N]
load "M" limit 1048576
input left 0

row a name of no letters
words hpfturn owners M ""
file M @ M13
gives
status 1 usage 2: hpfturn ACTION MAP [NAME] [--workers N] [--stage N] [--proc N] [--seed N] [--frames N]
load "M" limit 1048576
input left 0

row a name of 32 letters
words hpfturn owners M ABCDEFGHIJKLMNOPQRSTUVWXYZABCDEF
file M @ M13
gives
status 1 usage 2: hpfturn ACTION MAP [NAME] [--workers N] [--stage N] [--proc N] [--seed N] [--frames N]
load "M" limit 1048576
input left 0

row an array that isn't distributed
words hpfturn owners M B
file M | INTEGER A(3), B(3)
@ ON_TWO
gives
status 1 usage 2: hpfturn ACTION MAP [NAME] [--workers N] [--stage N] [--proc N] [--seed N] [--frames N]
load "M" limit 1048576
input left 0

row the name of a template
words hpfturn owners M T
file M | !HPF$ TEMPLATE T(3)
| !HPF$ PROCESSORS P(2)
| !HPF$ DISTRIBUTE T(BLOCK) ONTO P
gives
status 1 usage 2: hpfturn ACTION MAP [NAME] [--workers N] [--stage N] [--proc N] [--seed N] [--frames N]
load "M" limit 1048576
input left 0

row a name that nothing declares in a text that is refused
words hpfturn owners M B
file M | INTEGER A(0)
gives
status 2 map refused 25 Empty at 1:11
load "M" limit 1048576
input left 0

row owners in a map that the loader doesn't hold
words hpfturn owners N A
file M @ M13
gives
status 7 load fault
load "N" limit 1048576 failed
input left 0

# What is written

text OWNERS
| (1) 0
| (2) 0
| (3) 1

row a write of owners that fails: call 18 is the flush, and the last
words hpfturn owners M A
for N 0 7 17..19
file M @ M13
step 1
out fails N
gives for N 0
status 6 write fault
load "M" limit 1048576
out failed 1
gives for N 7 17..18
status 6 write fault
load "M" limit 1048576
out @ OWNERS N
out failed 1
gives for N 19
status 0
load "M" limit 1048576
input left 0
out @ OWNERS

row out is full of owners
words hpfturn owners M A
for N 0 7 17 18
file M @ M13
step 1
out room N
gives for N 0
status 6 write fault
load "M" limit 1048576
out failed 1
gives for N 7 17
status 6 write fault
load "M" limit 1048576
out @ OWNERS N
out failed 1
gives for N 18
status 0
load "M" limit 1048576
input left 0
out @ OWNERS

"#;
