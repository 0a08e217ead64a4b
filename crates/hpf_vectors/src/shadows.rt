//! Mapping texts with SHADOW.

/// Rows of shadows, where the mappings of arrays are needed.
pub(super) const SHADOWS: &str = r#"
mapping INTEGER A(4)\n!HPF$ SHADOW A(1)~accepted
mapping !HPF$ SHADOW A(1)\nINTEGER A(4)~accepted
mapping INTEGER A(4)\n!HPF$ PROCESSORS P(2)\n!HPF$ SHADOW A(1:2)\n!HPF$ DISTRIBUTE A(BLOCK) ONTO P~accepted
mapping INTEGER A(4)\n!HPF$ PROCESSORS P(2)\n!HPF$ DISTRIBUTE A(BLOCK) ONTO P\n!HPF$ SHADOW A(0)~accepted
mapping INTEGER A(4,4)\n!HPF$ SHADOW A(1,2:3)~accepted
mapping INTEGER A(1,1,1,1,1,1,1)\n!HPF$ SHADOW A(0,1,2,3,4,5,6)~accepted
mapping INTEGER A(4), B(4)\n!HPF$ ALIGN A WITH B\n!HPF$ SHADOW A(1)\n!HPF$ SHADOW B(2)~accepted
mapping INTEGER A(4)\n!HPF$ SHADOW A(9)~accepted
mapping INTEGER A(4)\n!HPF$ SHADOW A(0:2147483647)~accepted
mapping INTEGER A(4)\n!HPF$ SHADOW A(2147483647)~accepted
mapping INTEGER A(4)\n!HPF$ SHADOW A(-(2-3))~accepted
mapping INTEGER A(4)\n!HPF$ SHADOW A(-0)~accepted
mapping INTEGER A(4)\n!HPF$ SHADOW A(1)\n!HPF$ SHADOW A(1)~refused 41 at 3:14
mapping INTEGER A(4)\n!HPF$ SHADOW (1) :: A, A~refused 41 at 2:24
mapping INTEGER A(4), B(4)\n!HPF$ SHADOW (1) :: A, B\n!HPF$ SHADOW B(2)~refused 41 at 3:14
mapping INTEGER A(4)\n!HPF$ TEMPLATE T(4)\n!HPF$ ALIGN A WITH T\n!HPF$ SHADOW A(1)\n!HPF$ SHADOW A(1)~refused 41 at 5:14
mapping !HPF$ SHADOW A(1)\n!HPF$ SHADOW A(1)\nINTEGER A(4:3)~refused 41 at 2:14
mapping INTEGER A(4)\n!HPF$ SHADOW (1) :: A\n!HPF$ SHADOW A(1,1)~refused 24 at 3:14
mapping !HPF$ TEMPLATE T(4)\n!HPF$ SHADOW T(1)~refused 41 at 2:14
mapping !HPF$ TEMPLATE T(4)\n!HPF$ SHADOW T(1,1)~refused 41 at 2:14
mapping !HPF$ SHADOW T(1)\n!HPF$ TEMPLATE T(4:3)~refused 41 at 1:14
mapping !HPF$ TEMPLATE T(4)\n!HPF$ SHADOW (1) :: T, T~refused 41 at 2:21
mapping INTEGER, PARAMETER :: N = 2\n!HPF$ SHADOW N(1)~refused 23 at 2:14
mapping INTEGER, PARAMETER :: G(2) = (/ 1, 2 /)\n!HPF$ SHADOW G(1)~refused 23 at 2:14
mapping !HPF$ PROCESSORS P(2)\n!HPF$ SHADOW P(1)~refused 23 at 2:14
mapping INTEGER M\n!HPF$ SHADOW M(1)~refused 23 at 2:14
mapping !HPF$ SHADOW A(1)~refused 22 at 1:14
mapping INTEGER A(4)\n!HPF$ SHADOW (1) :: A, X, A~refused 22 at 2:24
mapping INTEGER A(4), A(5)\n!HPF$ SHADOW A(1)~refused 21 at 1:15
mapping INTEGER A(4)\n!HPF$ SHADOW A(-1)~refused 41 at 2:16
mapping INTEGER A(4)\n!HPF$ SHADOW A(-1:2)~refused 41 at 2:16
mapping INTEGER A(4)\n!HPF$ SHADOW A(1:-2)~refused 41 at 2:18
mapping INTEGER A(4)\n!HPF$ SHADOW A(-1:-2)~refused 41 at 2:16
mapping INTEGER A(4,4)\n!HPF$ SHADOW A(1:2,3:-4)~refused 41 at 2:22
mapping INTEGER A(4)\n!HPF$ SHADOW A(0-1)~refused 41 at 2:16
mapping INTEGER, PARAMETER :: N = 3\nINTEGER A(4)\n!HPF$ SHADOW A(-N)~refused 41 at 3:16
mapping INTEGER, PARAMETER :: N = 3\nINTEGER A(4)\n!HPF$ SHADOW A(+N-4)~refused 41 at 3:17
mapping INTEGER, PARAMETER :: N = -1\nINTEGER A(4)\n!HPF$ SHADOW A(0:N)~refused 41 at 3:18
mapping INTEGER A(4)\n!HPF$ SHADOW A(2*(1-2))~refused 41 at 2:16
mapping INTEGER A(4)\n!HPF$ SHADOW A(1:((1-2)*2))~refused 41 at 2:20
mapping INTEGER A(4)\n!HPF$ SHADOW A(-2147483647)~refused 41 at 2:16
mapping INTEGER A(4)\n!HPF$ SHADOW A(2147483647+1)~refused 26 at 2:26
mapping INTEGER A(4)\n!HPF$ SHADOW A(-2147483647-1)~refused 26 at 2:27
mapping INTEGER A(4)\n!HPF$ SHADOW A(N)\nINTEGER, PARAMETER :: N = 1~refused 22 at 2:16
mapping INTEGER A(4)\n!HPF$ SHADOW A(A)~refused 23 at 2:16
mapping INTEGER A(4)\n!HPF$ SHADOW A(X:-1)~refused 22 at 2:16
mapping INTEGER A(4)\n!HPF$ SHADOW A(-1:X)~refused 41 at 2:16
mapping INTEGER A(4)\n!HPF$ SHADOW A(1,1)~refused 24 at 2:14
mapping INTEGER A(4,4)\n!HPF$ SHADOW A(1)~refused 24 at 2:14
mapping INTEGER A(4)\n!HPF$ SHADOW A(1,1,1,1,1,1,1,1)~refused 24 at 2:14
mapping INTEGER A(4), B(4,4)\n!HPF$ SHADOW (1) :: A, B~refused 24 at 2:24
mapping INTEGER A(4)\n!HPF$ SHADOW A(X,1)~refused 24 at 2:14
mapping INTEGER A(4)\n!HPF$ SHADOW A(1,2147483647+1)~refused 24 at 2:14
mapping INTEGER A(4)\n!HPF$ SHADOW (1,2147483647+1) :: A~refused 26 at 2:27
mapping INTEGER A(4)\n!HPF$ SHADOW (X,1) :: A~refused 22 at 2:15
mapping INTEGER A(4)\n!HPF$ SHADOW (1,-1) :: A~refused 41 at 2:17
mapping !HPF$ SHADOW A(1,1)\nINTEGER A(4:3)~refused 25 at 2:11
mapping !HPF$ SHADOW A(1)\nINTEGER A(4097,4096)~refused 26 at 2:9
mapping !HPF$ SHADOW (1,1) :: A, A\nINTEGER A(4097,4096)~refused 26 at 2:9
mapping !HPF$ SHADOW N(1)\nINTEGER, PARAMETER :: N(2) = 1~refused 24 at 2:23
"#;

/// Texts, a word, and what each processor holds of the array that it is, in element order. They are `unmapped` where the word is
/// no array whose ultimate base is distributed.
pub(super) const HELD: &str = r#"
held INTEGER A(10)\n!HPF$ PROCESSORS P(4)\n!HPF$ DISTRIBUTE A(BLOCK) ONTO P\n!HPF$ SHADOW A(1:2)~A~0: 1 2 3 4 5; 1: 3 4 5 6 7 8; 2: 6 7 8 9 10; 3: 9 10
held INTEGER, PARAMETER :: N = 1\n!HPF$ SHADOW A(N:2*N)\nINTEGER A(10)\n!HPF$ PROCESSORS P(4)\n!HPF$ DISTRIBUTE A(BLOCK) ONTO P~A~0: 1 2 3 4 5; 1: 3 4 5 6 7 8; 2: 6 7 8 9 10; 3: 9 10
held INTEGER A(10)\n!HPF$ PROCESSORS P(4)\n!HPF$ DISTRIBUTE A(BLOCK) ONTO P~A~0: 1 2 3; 1: 4 5 6; 2: 7 8 9; 3: 10
held INTEGER A(9)\n!HPF$ PROCESSORS P(4)\n!HPF$ DISTRIBUTE A(BLOCK) ONTO P\n!HPF$ SHADOW A(1)~A~0: 1 2 3 4; 1: 3 4 5 6 7; 2: 6 7 8 9; 3:
held INTEGER A(4)\n!HPF$ PROCESSORS P(2)\n!HPF$ DISTRIBUTE A(BLOCK) ONTO P\n!HPF$ SHADOW A(9)~A~0: 1 2 3 4; 1: 1 2 3 4
held INTEGER A(4)\n!HPF$ PROCESSORS P(2)\n!HPF$ DISTRIBUTE A(BLOCK) ONTO P\n!HPF$ SHADOW A(0:2147483647)~A~0: 1 2 3 4; 1: 3 4
held INTEGER A(-2147483647:-2147483644)\n!HPF$ PROCESSORS P(2)\n!HPF$ DISTRIBUTE A(BLOCK) ONTO P\n!HPF$ SHADOW A(2147483647:0)~A~0: -2147483647 -2147483646; 1: -2147483647 -2147483646 -2147483645 -2147483644
held INTEGER A(4,4)\n!HPF$ PROCESSORS P(2,2)\n!HPF$ DISTRIBUTE A(BLOCK,BLOCK) ONTO P\n!HPF$ SHADOW A(1,1)~A~0: 1,1 2,1 3,1 1,2 2,2 3,2 1,3 2,3 3,3; 1: 2,1 3,1 4,1 2,2 3,2 4,2 2,3 3,3 4,3; 2: 1,2 2,2 3,2 1,3 2,3 3,3 1,4 2,4 3,4; 3: 2,2 3,2 4,2 2,3 3,3 4,3 2,4 3,4 4,4
held INTEGER A(4,4)\n!HPF$ PROCESSORS P(2,2)\n!HPF$ DISTRIBUTE A(BLOCK,BLOCK) ONTO P\n!HPF$ SHADOW A(1:0,0:1)~A~0: 1,1 2,1 1,2 2,2 1,3 2,3; 1: 2,1 3,1 4,1 2,2 3,2 4,2 2,3 3,3 4,3; 2: 1,3 2,3 1,4 2,4; 3: 2,3 3,3 4,3 2,4 3,4 4,4
held INTEGER A(6), B(4)\n!HPF$ PROCESSORS P(2)\n!HPF$ DISTRIBUTE (BLOCK) ONTO P :: A, B\n!HPF$ SHADOW (1:2) :: A, B~A~0: 1 2 3 4 5; 1: 3 4 5 6
held INTEGER A(6), B(4)\n!HPF$ PROCESSORS P(2)\n!HPF$ DISTRIBUTE (BLOCK) ONTO P :: A, B\n!HPF$ SHADOW (1:2) :: A, B~B~0: 1 2 3 4; 1: 2 3 4
held INTEGER A(6), B(6)\n!HPF$ PROCESSORS P(2)\n!HPF$ DISTRIBUTE (BLOCK) ONTO P :: A, B\n!HPF$ SHADOW A(1)\n!HPF$ SHADOW B(0:2)~A~0: 1 2 3 4; 1: 3 4 5 6
held INTEGER A(6), B(6)\n!HPF$ PROCESSORS P(2)\n!HPF$ DISTRIBUTE (BLOCK) ONTO P :: A, B\n!HPF$ SHADOW A(1)\n!HPF$ SHADOW B(0:2)~B~0: 1 2 3 4 5; 1: 4 5 6
held INTEGER A(4), B(8)\n!HPF$ PROCESSORS P(2)\n!HPF$ DISTRIBUTE B(BLOCK) ONTO P\n!HPF$ ALIGN A(I) WITH B(2*I)\n!HPF$ SHADOW A(1)\n!HPF$ SHADOW B(0:3)~A~0: 1 2 3; 1: 2 3 4
held INTEGER A(4), B(8)\n!HPF$ PROCESSORS P(2)\n!HPF$ DISTRIBUTE B(BLOCK) ONTO P\n!HPF$ ALIGN A(I) WITH B(2*I)\n!HPF$ SHADOW A(1)\n!HPF$ SHADOW B(0:3)~B~0: 1 2 3 4 5 6 7; 1: 5 6 7 8
held INTEGER A(4), B(8)\n!HPF$ PROCESSORS P(2)\n!HPF$ DISTRIBUTE B(BLOCK) ONTO P\n!HPF$ ALIGN A(I) WITH B(2*I)\n!HPF$ SHADOW B(0:3)~A~0: 1 2; 1: 3 4
held INTEGER A(4), B(8)\n!HPF$ PROCESSORS P(2)\n!HPF$ DISTRIBUTE B(BLOCK) ONTO P\n!HPF$ ALIGN A(I) WITH B(2*I)\n!HPF$ SHADOW A(1)~B~0: 1 2 3 4; 1: 5 6 7 8
held INTEGER A(4)\n!HPF$ TEMPLATE T(4,4)\n!HPF$ PROCESSORS P(2,2)\n!HPF$ ALIGN A(I) WITH T(I,*)\n!HPF$ DISTRIBUTE T(BLOCK,BLOCK) ONTO P\n!HPF$ SHADOW A(0:1)~A~0: 1 2 3; 1: 3 4; 2: 1 2 3; 3: 3 4
held INTEGER A(4)\n!HPF$ TEMPLATE T(4)\n!HPF$ PROCESSORS P(2)\n!HPF$ ALIGN A(I) WITH T(5-I)\n!HPF$ DISTRIBUTE T(BLOCK) ONTO P\n!HPF$ SHADOW A(1:0)~A~0: 2 3 4; 1: 1 2
held INTEGER A(4)\n!HPF$ SHADOW A(1)~A~unmapped
"#;
