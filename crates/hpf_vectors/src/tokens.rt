//! Texts, and their tokens with their places, or their refusal.

/// One statement.
pub(super) const STATEMENTS: &str = r#"
tokens ~
tokens  \t ~
tokens IMPLICIT NONE~IMPLICIT@1:1 NONE@1:10 end@1:14 
tokens INTEGER A(8)\n~INTEGER@1:1 A@1:9 (@1:10 8@1:11 )@1:12 end@1:13 
tokens integer a_1b~INTEGER@1:1 A_1B@1:9 end@1:13 
tokens INTEGER A(8) ;~refused 1 at 1:14
tokens INTEGER A(2147483648)~refused 2 at 1:11
tokens INTEGER A(2147483647)~INTEGER@1:1 A@1:9 (@1:10 2147483647@1:11 )@1:21 end@1:22 
tokens INTEGER ABCDEFGHIJKLMNOPQRSTUVWXYZABCDEF~refused 3 at 1:9
tokens INTEGER ABCDEFGHIJKLMNOPQRSTUVWXYZABCDE~INTEGER@1:1 ABCDEFGHIJKLMNOPQRSTUVWXYZABCDE@1:9 end@1:40 
tokens 12AB~refused 2 at 1:1
tokens A 3_~refused 2 at 1:3
tokens 00000000000000000012~12@1:1 end@1:21 
tokens 99999999999999999999999999999~refused 2 at 1:1
tokens _A~refused 1 at 1:1
tokens A&B~refused 1 at 1:2
tokens A & B~refused 1 at 1:3
tokens A;B~refused 1 at 1:2
tokens A % B ; C~refused 1 at 1:3
tokens (/3,0,7/)~(/@1:1 3@1:3 ,@1:4 0@1:5 ,@1:6 7@1:7 /)@1:8 end@1:10 
tokens / )~refused 1 at 1:1
tokens ( /~refused 1 at 1:3
tokens (/)~(/@1:1 )@1:3 end@1:4 
tokens (//)~(/@1:1 /)@1:3 end@1:5 
tokens 3/)~3@1:1 /)@1:2 end@1:4 
tokens A/B~refused 1 at 1:2
tokens :::~::@1:1 :@1:3 end@1:4 
tokens : :~:@1:1 :@1:3 end@1:4 
tokens *+-=,~*@1:1 +@1:2 -@1:3 =@1:4 ,@1:5 end@1:6 
tokens A**2~A@1:1 *@1:2 *@1:3 2@1:4 end@1:5 
tokens \tA\tB~A@1:2 B@1:4 end@1:5 
tokens A   ~A@1:1 end@1:2 
tokens (1:9)~(@1:1 1@1:2 :@1:3 9@1:4 )@1:5 end@1:6 
"#;

/// Comments.
pub(super) const COMMENTS: &str = r#"
tokens ! a comment ; & é~
tokens A ! a comment &~A@1:1 end@1:2 
tokens A!HPF$ B~A@1:1 end@1:2 
tokens \t! x\nB~B@2:1 end@2:2 
tokens A!é;\x01~A@1:1 end@1:2 
tokens é~refused 1 at 1:1
tokens A é~refused 1 at 1:3
tokens !HP$ A~
tokens ! !HPF$ A~
"#;

/// The ends of lines.
pub(super) const LINE_ENDS: &str = r#"
tokens A\nB~A@1:1 end@1:2 B@2:1 end@2:2 
tokens A\r\nB\r\n~A@1:1 end@1:2 B@2:1 end@2:2 
tokens A\r~refused 1 at 1:2
tokens A\rB~refused 1 at 1:2
tokens A\r\r\nB~refused 1 at 1:2
tokens A ! x\rB~A@1:1 end@1:2 
tokens A ! x\r~A@1:1 end@1:2 
tokens \r\n\r\nA~A@3:1 end@3:2 
tokens \n\n\tA~A@3:2 end@3:3 
tokens  \r\nA~A@2:1 end@2:2 
tokens \r~refused 1 at 1:1
tokens A\n\n~A@1:1 end@1:2 
"#;

/// Directives and pipeline lines.
pub(super) const PREFIXES: &str = r#"
tokens !HPF$ PROCESSORS P(4)~!HPF$@1:1 PROCESSORS@1:7 P@1:18 (@1:19 4@1:20 )@1:21 end@1:22 
tokens !HPF$ PROCESSORS P(4), &~refused 4 at 1:24
tokens !HPF$INTEGER~!HPF$@1:1 INTEGER@1:6 end@1:13 
tokens   !hPf$ A~!HPF$@1:3 A@1:9 end@1:10 
tokens !HPF$~!HPF$@1:1 end@1:6 
tokens !HPF$ ! A~!HPF$@1:1 end@1:6 
tokens !pipe$ INPUT A~!PIPE$@1:1 INPUT@1:8 A@1:14 end@1:15 
tokens !PIPE$STAGE B~!PIPE$@1:1 STAGE@1:7 B@1:13 end@1:14 
tokens \t!PIPE$~!PIPE$@1:2 end@1:8 
"#;

/// Statements that go on.
pub(super) const CONTINUATIONS: &str = r#"
tokens A &\nB~A@1:1 B@2:1 end@2:2 
tokens A &\n&B~A@1:1 B@2:2 end@2:3 
tokens A &\n & B~A@1:1 B@2:4 end@2:5 
tokens A & ! comment\n! comment\n\n  B~A@1:1 B@4:3 end@4:4 
tokens A &\n&\nB~A@1:1 B@3:1 end@3:2 
tokens &\nA~A@2:1 end@2:2 
tokens &\n&\nA~A@3:1 end@3:2 
tokens A &~refused 4 at 1:3
tokens A &\n! comment\n\n~refused 4 at 1:3
tokens A&\n\n&\n~refused 4 at 3:1
tokens A &\n!PIPE$ B~refused 4 at 1:3
tokens A &\n!HPF$ B~refused 4 at 1:3
tokens !HPF$ A, &\n!PIPE$ B~refused 4 at 1:10
tokens !HPF$ A &\nB~refused 4 at 1:9
tokens !PIPE$ A &\n!HPF$ B~refused 4 at 1:10
tokens !HPF$ A &\n!HPF$ B~!HPF$@1:1 A@1:7 B@2:7 end@2:8 
tokens !HPF$ A &\n!hpf$& B~!HPF$@1:1 A@1:7 B@2:8 end@2:9 
tokens !HPF$ A &\n!HPF$~!HPF$@1:1 A@1:7 end@1:8 
tokens !HPF$ &\n!HPF$~!HPF$@1:1 end@1:6 
tokens !HPF$ A &\n!HPF$ &\n!HPF$ B~!HPF$@1:1 A@1:7 B@3:7 end@3:8 
tokens !PIPE$ A &\n! c\n!PIPE$ &B~!PIPE$@1:1 A@1:8 B@3:9 end@3:10 
tokens AB&\nCD~AB@1:1 CD@2:1 end@2:3 
tokens A &&~refused 1 at 1:3
tokens A &\n&& \nB~A@1:1 B@3:1 end@3:2 
tokens A &\n&&&\nB~refused 1 at 2:2
tokens & A~refused 1 at 1:1
tokens A &\n& & B~refused 1 at 2:3
tokens A &\r\nB~A@1:1 B@2:1 end@2:2 
tokens A &\n; &\nB~refused 1 at 2:1
tokens A ; &~refused 1 at 1:3
tokens A &\n!PIPE$ ;~refused 4 at 1:3
tokens A ;\nB &~refused 1 at 1:3
tokens A\nB &\n; C~refused 1 at 3:1
tokens A\n!HPF$ B\nC~A@1:1 end@1:2 !HPF$@2:1 B@2:7 end@2:8 C@3:1 end@3:2 
tokens A &\nB\nC~A@1:1 B@2:1 end@2:2 C@3:1 end@3:2 
tokens A & \t! x & y\nB~A@1:1 B@2:1 end@2:2 
tokens 3 4 &\n5A~refused 2 at 2:1
tokens A\n2147483648 ;~refused 2 at 2:1
"#;
