//! Texts that are made, and mappings that are made by hand.

/// Long chains of arrays, and long lists.
pub(super) const TEXTS: &str = r#"
chain 1023~0 0 1 1 2 2 3 3
cycle 1023~refused 40 at 2:13
steep 300~0
list INDIRECT 1~accepted
list GEN_BLOCK 1~refused 29 at 4:20
list INDIRECT 20000~refused 35 at 5:18
"#;

/// What a program tells of a text besides its mappings.
pub(super) const PROGRAMS: &str = r#"
counts INTEGER A(3), B(3)\n!HPF$ TEMPLATE T(3)\n!HPF$ PROCESSORS P(2)\n!HPF$ ALIGN B WITH T\n!HPF$ DISTRIBUTE T(BLOCK) ONTO P\n!PIPE$ INPUT B\n~arrays 2 templates 1 arrangements 1 stages 1
"#;

/// What processors own or hold under mappings that are made by hand: how many elements, and the index of each with its place.
pub(super) const PARTS: &str = r#"
# A(10), CYCLIC(2)
part owned cyclic 0~4: 1@0 2@1 7@2 8@3
part owned cyclic 1~4: 3@0 4@1 9@2 10@3
part owned cyclic 2~2: 5@0 6@1

# A(10), GEN_BLOCK(3,0,7)
part owned lengths 0~3: 1@0 2@1 3@2
part owned lengths 1~0:
part owned lengths 2~7: 4@0 5@1 6@2 7@3 8@4 9@5 10@6

# A(5), INDIRECT(2,1,2,2,1)
part owned places 0~2: 2@0 5@1
part owned places 1~3: 1@0 3@1 4@2

# A(5) at 2*I-1, CYCLIC(3)
part owned strided 0~4: 1@0 2@1 4@2 5@3
part owned strided 1~1: 3@0

# A(10), BLOCK, SHADOW(1:2)
part held shadow 0~5: 1@0 2@1 3@2 4@3 5@4
part held shadow 1~6: 3@0 4@1 5@2 6@3 7@4 8@5
part held shadow 2~5: 6@0 7@1 8@2 9@3 10@4
part held shadow 3~2: 9@0 10@1

# A(4,4), (BLOCK,BLOCK), SHADOW(1,1)
part held corners 0~9: 1,1@0 2,1@1 3,1@2 1,2@3 2,2@4 3,2@5 1,3@6 2,3@7 3,3@8
part held corners 1~9: 2,1@0 3,1@1 4,1@2 2,2@3 3,2@4 4,2@5 2,3@6 3,3@7 4,3@8
part held corners 2~9: 1,2@0 2,2@1 3,2@2 1,3@3 2,3@4 3,3@5 1,4@6 2,4@7 3,4@8
part held corners 3~9: 2,2@0 3,2@1 4,2@2 2,3@3 3,3@4 4,3@5 2,4@6 3,4@7 4,4@8
"#;
