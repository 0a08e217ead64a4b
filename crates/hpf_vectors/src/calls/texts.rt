//! Texts that the rows call by their names.

/// Mapping texts, and frames.
pub(super) const ROWS: &str = r#"
text M13
| INTEGER A(3)
| !HPF$ PROCESSORS P(2)
| !HPF$ DISTRIBUTE A(BLOCK) ONTO P
| !PIPE$ INPUT A

# What stands below the first line of it.
text ON_TWO
| !HPF$ PROCESSORS P(2)
| !HPF$ DISTRIBUTE A(BLOCK) ONTO P
| !PIPE$ INPUT A

# Frames of three elements: the header up to byte 12, one frame up to byte 29, and the end.
text H3
= 48504646 01 01 04 00 00000003
text F3
@ H3
= 01 00000000 00000001 00000002 00000003
= 00 00000001
"#;
