//! Command lines, which are read and no more.

/// Words with and without what each action needs and may have, numbers, options, and words with hyphens.
pub(super) const ROWS: &str = r#"
# Each action with all that it needs

asks hpfturn check M~check "M"
asks hpfturn show M~show "M"
asks hpfturn owners M A~owners "M" name "A" is A
asks hpfturn local M A --proc 0~local "M" name "A" is A processor 0
asks hpfturn plan M~plan "M"
asks hpfturn run M~run "M" workers 1
asks hpfturn parts M --stage 0~parts "M" stage 0 workers 1
asks hpfturn make M --frames 0~make "M" frames 0 seed 0
asks hpfturn trial M --frames 0~trial "M" frames 0 seed 0 workers 1

# With what it may have

asks hpfturn run M --workers 2~run "M" workers 2
asks hpfturn parts M --stage 1 --workers 3~parts "M" stage 1 workers 3
asks hpfturn make M --frames 4 --seed 5~make "M" frames 4 seed 5
asks hpfturn trial M --frames 4 --seed 5~trial "M" frames 4 seed 5 workers 1
asks hpfturn trial M --frames 4 --workers 6~trial "M" frames 4 seed 0 workers 6
asks hpfturn trial M --frames 4 --seed 5 --workers 6~trial "M" frames 4 seed 5 workers 6

# Without something that it needs

asks ~refused
asks hpfturn~refused
asks hpfturn check~refused
asks hpfturn run --workers 2~refused
asks hpfturn owners M~refused
asks hpfturn local M A~refused
asks hpfturn local M --proc 0~refused
asks hpfturn local M~refused
asks hpfturn parts M~refused
asks hpfturn parts M --workers 2~refused
asks hpfturn make M~refused
asks hpfturn make M --seed 1~refused
asks hpfturn trial M~refused
asks hpfturn trial M --seed 1 --workers 2~refused

# With what it may not have

asks hpfturn check M A~refused
asks hpfturn check M --workers 1~refused
asks hpfturn check M --stage 0~refused
asks hpfturn check M --proc 0~refused
asks hpfturn check M --seed 0~refused
asks hpfturn check M --frames 0~refused
asks hpfturn show M A~refused
asks hpfturn show M --workers 1~refused
asks hpfturn show M --stage 0~refused
asks hpfturn show M --proc 0~refused
asks hpfturn show M --seed 0~refused
asks hpfturn show M --frames 0~refused
asks hpfturn owners M A --workers 1~refused
asks hpfturn owners M A --stage 0~refused
asks hpfturn owners M A --proc 0~refused
asks hpfturn owners M A --seed 0~refused
asks hpfturn owners M A --frames 0~refused
asks hpfturn local M A --proc 0 --workers 1~refused
asks hpfturn local M A --proc 0 --stage 0~refused
asks hpfturn local M A --proc 0 --seed 0~refused
asks hpfturn local M A --proc 0 --frames 0~refused
asks hpfturn plan M A~refused
asks hpfturn plan M --workers 1~refused
asks hpfturn plan M --stage 0~refused
asks hpfturn plan M --proc 0~refused
asks hpfturn plan M --seed 0~refused
asks hpfturn plan M --frames 0~refused
asks hpfturn run M A~refused
asks hpfturn run M --stage 0~refused
asks hpfturn run M --proc 0~refused
asks hpfturn run M --seed 1~refused
asks hpfturn run M --frames 0~refused
asks hpfturn parts M --stage 0 A~refused
asks hpfturn parts M --stage 0 --proc 0~refused
asks hpfturn parts M --stage 0 --seed 0~refused
asks hpfturn parts M --stage 0 --frames 0~refused
asks hpfturn make M --frames 0 A~refused
asks hpfturn make M --frames 0 --workers 1~refused
asks hpfturn make M --frames 0 --stage 0~refused
asks hpfturn make M --frames 0 --proc 0~refused
asks hpfturn trial M --frames 0 A~refused
asks hpfturn trial M --frames 0 --stage 0~refused
asks hpfturn trial M --frames 0 --proc 0~refused

# Values at both ends, and beyond

asks hpfturn run M --workers 0~refused
asks hpfturn run M --workers 1~run "M" workers 1
asks hpfturn run M --workers 64~run "M" workers 64
asks hpfturn run M --workers 65~refused
asks hpfturn parts M --stage 15~parts "M" stage 15 workers 1
asks hpfturn parts M --stage 16~refused
asks hpfturn parts M --stage=-1~refused
asks hpfturn local M A --proc 63~local "M" name "A" is A processor 63
asks hpfturn local M A --proc 64~refused
asks hpfturn make M --frames 4294967295 --seed 4294967295~make "M" frames 4294967295 seed 4294967295
asks hpfturn make M --frames 4294967296~refused
asks hpfturn make M --frames 0 --seed 4294967296~refused
asks hpfturn make M --frames 0 --seed=-1~refused
asks hpfturn make M --frames 99999999999999999999~refused

# Numbers as they may be written

asks hpfturn run M --workers +3~run "M" workers 3
asks hpfturn run M --workers=+3~run "M" workers 3
asks hpfturn run M --workers 007~run "M" workers 7
asks hpfturn run M --workers 000000000000000000000000003~run "M" workers 3
asks hpfturn run M --workers=3~run "M" workers 3
asks hpfturn make M --frames 1 --seed=-0~make "M" frames 1 seed 0
asks hpfturn make M --frames 1 --seed -0~refused
asks hpfturn make M --frames 1 --seed=+0~make "M" frames 1 seed 0
asks hpfturn run M --workers ++3~refused
asks hpfturn run M --workers 3.0~refused
asks hpfturn run M --workers 0x3~refused
asks hpfturn run M --workers three~refused
asks hpfturn run M --workers " 3"~refused
asks hpfturn run M --workers=~refused
asks hpfturn run M --workers ""~refused
asks hpfturn run M --workers -~refused

# Options

asks hpfturn run M --workers~refused
asks hpfturn run M --workers --workers~refused
asks hpfturn run M --workers 2 --workers 2~refused
asks hpfturn make M --frames 1 --frames=2~refused
asks hpfturn run M --work 2~refused
asks hpfturn run M --Workers 2~refused
asks hpfturn run M -workers 2~refused
asks hpfturn run M --speed 2~refused
asks hpfturn run M -w 2~refused
asks hpfturn run M --width 4~refused
asks hpfturn show M --dim 1~refused
asks hpfturn -h~refused
asks hpfturn show M -h~refused
asks hpfturn --help~refused
asks hpfturn show M --help~refused
asks hpfturn -V~refused
asks hpfturn show M --version~refused
asks hpfturn run M --workers 2 3~refused
asks hpfturn --workers 2 run M~run "M" workers 2
asks hpfturn run --workers 2 M~run "M" workers 2
asks hpfturn --stage=3 parts --workers 2 M~parts "M" stage 3 workers 2
asks hpfturn trial --seed 1 M --workers 2 --frames 3~trial "M" frames 3 seed 1 workers 2
asks hpfturn local --proc 1 M A~local "M" name "A" is A processor 1

# Hyphens, empty words and other words

asks hpfturn -- run M~run "M" workers 1
asks hpfturn run -- M~run "M" workers 1
asks hpfturn run M --~run "M" workers 1
asks hpfturn show --~refused
asks hpfturn show -- --~show "--"
asks hpfturn show -- --help~show "--help"
asks hpfturn run --workers 2 -- M~run "M" workers 2
asks hpfturn run M -- --workers 2~refused
asks hpfturn owners M -- --workers~owners "M" name "--workers" isn't A
asks hpfturn show -~show "-"
asks hpfturn owners - -~owners "-" name "-" isn't A
asks hpfturn - M~refused
asks hpfturn show ""~show ""
asks hpfturn owners M ""~owners "M" name "" isn't A
asks hpfturn "" M~refused
asks "" show M~show "M"
asks show show show~show "show"
asks run M~refused
asks hpfturn help~refused
asks hpfturn help M~refused
asks hpfturn help show~refused
asks hpfturn Run M~refused
asks hpfturn RUN M~refused
asks hpfturn runs M~refused
asks hpfturn ru M~refused
asks hpfturn "run " M~refused
asks hpfturn verify M~refused
asks hpfturn reduce M~refused
asks hpfturn owners M a~owners "M" name "a" is A
asks hpfturn owners M B~owners "M" name "B" isn't A
asks hpfturn owners M Aa~owners "M" name "Aa" isn't A
asks hpfturn owners M A B~refused
asks hpfturn show M A B~refused
asks hpfturn M run~refused
"#;
