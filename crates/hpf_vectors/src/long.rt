//! Words, and texts that are too long to write.

/// Words, and the names that they are.
pub(super) const WORDS: &str = r#"
word a~A
word Gen_Block~GEN_BLOCK
word z9_~Z9_
word ABCDEFGHIJKLMNOPQRSTUVWXYZABCDE~ABCDEFGHIJKLMNOPQRSTUVWXYZABCDE
word ABCDEFGHIJKLMNOPQRSTUVWXYZABCDEF~no name
word ~no name
word _A~no name
word 9A~no name
word A B~no name
word A-~no name
word é~no name
"#;

/// Messages of errors.
pub(super) const MESSAGES: &str = r#"
message refused~refused with code 4 at 12:3
message memory~out of memory
"#;

/// Texts of up to a megabyte: two bytes again and again, and a front with lines again and again.
pub(super) const TEXTS: &str = r#"
last \x20\x20~1048576~0 tokens
last \x20\x20~1048577~refused 5 at 0:0
last A\x20~1048576~524289 tokens, the last at 1:1048576
last 00~1048576~2 tokens, the last at 1:1048577
last A\n~200000~200000 tokens, the last at 100000:2
last &\n~1048576~refused 4 at 524288:1
printed IMPLICIT NONE~\nINTEGER A\n!HPF$ SHADOW A(1)\n!PIPE$ INPUT A~17000~731014 bytes, canonical is true
printed INTEGER A~, A~50000~150010 bytes, canonical is true
"#;
