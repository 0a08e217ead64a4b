//! Rows for the words of the command line, and for the file that they name.

/// Words that are refused, and files that are there or not.
pub(super) const ROWS: &str = r#"
# Words

row a file by the name of an action
words run show run
file run | integer a(3)
gives
status 0
load "run" limit 1048576
input left 0
out @ M13 13

row a file with no name
words "" show ""
file "" | integer a(3)
gives
status 0
load "" limit 1048576
input left 0
out @ M13 13

row a file with a blank in its name, and others
words hpfturn show "a map"
file a | integer b(4)
file "a map" | integer a(3)
file map | integer c(5)
gives
status 0
load "a map" limit 1048576
input left 0
out @ M13 13

row no words
words
file M @ M13
input @ F3
gives
status 1 usage 1: hpfturn ACTION MAP [NAME] [--workers N] [--stage N] [--proc N] [--seed N] [--frames N]
input left 34

row the program's name alone
words hpfturn
file M @ M13
input @ F3
gives
status 1 usage 1: hpfturn ACTION MAP [NAME] [--workers N] [--stage N] [--proc N] [--seed N] [--frames N]
input left 34

row no map
words hpfturn run
file M @ M13
input @ F3
gives
status 1 usage 1: hpfturn ACTION MAP [NAME] [--workers N] [--stage N] [--proc N] [--seed N] [--frames N]
input left 34

row a name behind the map
words hpfturn run M A
file M @ M13
input @ F3
gives
status 1 usage 1: hpfturn ACTION MAP [NAME] [--workers N] [--stage N] [--proc N] [--seed N] [--frames N]
input left 34

row an action in another case
words hpfturn Run M
file M @ M13
input @ F3
gives
status 1 usage 1: hpfturn ACTION MAP [NAME] [--workers N] [--stage N] [--proc N] [--seed N] [--frames N]
input left 34

row an action with a letter more
words hpfturn runs M
file M @ M13
input @ F3
gives
status 1 usage 1: hpfturn ACTION MAP [NAME] [--workers N] [--stage N] [--proc N] [--seed N] [--frames N]
input left 34

row another action in capital letters
words hpfturn SHOW M
file M @ M13
input @ F3
gives
status 1 usage 1: hpfturn ACTION MAP [NAME] [--workers N] [--stage N] [--proc N] [--seed N] [--frames N]
input left 34

row a map named by a hyphen
words hpfturn run -
file - @ M13
input @ F3
gives
status 0
load "-" limit 1048576
input left 0
out @ F3
notes
| mark 0 0 held 2 sum 5
| mark 0 1 held 1 sum 3

row two hyphens, and no map
words hpfturn show --
file -- @ M13
input @ F3
gives
status 1 usage 1: hpfturn ACTION MAP [NAME] [--workers N] [--stage N] [--proc N] [--seed N] [--frames N]
input left 34

row a map named by two hyphens
words hpfturn show -- --
file -- | integer a(3)
gives
status 0
load "--" limit 1048576
input left 0
out @ M13 13

row the most workers
words hpfturn run --workers=64 M
file M @ M13
input @ F3
gives
status 0
load "M" limit 1048576
input left 0
out @ F3
notes
| mark 0 0 held 2 sum 5
| mark 0 1 held 1 sum 3

row a worker too many
words hpfturn run M --workers 65
file M @ M13
input @ F3
gives
status 1 usage 1: hpfturn ACTION MAP [NAME] [--workers N] [--stage N] [--proc N] [--seed N] [--frames N]
input left 34

row an option of other actions
words hpfturn run M --seed 1
file M @ M13
input @ F3
gives
status 1 usage 1: hpfturn ACTION MAP [NAME] [--workers N] [--stage N] [--proc N] [--seed N] [--frames N]
input left 34

row a name behind a map that is checked
words hpfturn check M A
file M @ M13
input @ F3
gives
status 1 usage 1: hpfturn ACTION MAP [NAME] [--workers N] [--stage N] [--proc N] [--seed N] [--frames N]
input left 34

row action and map the wrong way round
words hpfturn M run
file M @ M13
input @ F3
gives
status 1 usage 1: hpfturn ACTION MAP [NAME] [--workers N] [--stage N] [--proc N] [--seed N] [--frames N]
input left 34

# Actions that are, and that aren't built

row a check
words hpfturn check M
file M @ M13
input @ F3
gives
status 0
load "M" limit 1048576
input left 34
out | accepted arrays 1 templates 0 arrangements 1 stages 1

row a plan
words hpfturn plan M
file M @ M13
input @ F3
gives
status 1 usage 9: hpfturn ACTION MAP [NAME] [--workers N] [--stage N] [--proc N] [--seed N] [--frames N]
input left 34

row parts of a stage
words hpfturn parts M --stage 0 --workers 2
file M @ M13
input @ F3
gives
status 1 usage 9: hpfturn ACTION MAP [NAME] [--workers N] [--stage N] [--proc N] [--seed N] [--frames N]
input left 34

row a run on generated frames
words hpfturn trial M --frames 1
file M @ M13
input @ F3
gives
status 1 usage 9: hpfturn ACTION MAP [NAME] [--workers N] [--stage N] [--proc N] [--seed N] [--frames N]
input left 34

row calls that what isn't built doesn't make
words hpfturn trial M --frames 1
loader fails 0
input fails 0
out fails 0
notes fails 0
gives
status 1 usage 9: hpfturn ACTION MAP [NAME] [--workers N] [--stage N] [--proc N] [--seed N] [--frames N]
input left 0

# Maps that aren't loaded

row a map that the loader doesn't hold
words hpfturn run N
file M @ M13
input @ F3
gives
status 7 load fault
load "N" limit 1048576 failed
input left 34

row a map to be shown that the loader doesn't hold
words hpfturn show N
file M @ M13
gives
status 7 load fault
load "N" limit 1048576 failed
input left 0

row a name in another case
words hpfturn run m
file M @ M13
input @ F3
gives
status 7 load fault
load "m" limit 1048576 failed
input left 34

row a load that fails, and isn't tried again
words hpfturn run M
file M @ M13
input @ F3
loader fails 0
gives
status 7 load fault
load "M" limit 1048576 failed
input left 34

row a load of a map to be shown that fails
words hpfturn show M
file M @ M13
loader fails 0
gives
status 7 load fault
load "M" limit 1048576 failed
input left 0

row the second load would fail
words hpfturn run M
file M @ M13
input @ F3
loader fails 1 2
gives
status 0
load "M" limit 1048576
input left 0
out @ F3
notes
| mark 0 0 held 2 sum 5
| mark 0 1 held 1 sum 3

row calls of the loader, the input and the notes that a faulty command line doesn't make
words hpfturn
loader fails 0
input fails 0
out fails 0
notes fails 0
gives
status 1 usage 1: hpfturn ACTION MAP [NAME] [--workers N] [--stage N] [--proc N] [--seed N] [--frames N]
input left 0

"#;
