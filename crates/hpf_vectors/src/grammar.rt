//! Texts, and their statements or their refusal. Statements are shown in a form of their own: an operator has parentheses
//! round its operands, a shape is in brackets, and a common one between slashes.

/// Every alternative of the grammar, without places.
pub(super) const ACCEPTED: &str = r#"
statements ~
statements IMPLICIT NONE~none;
statements INTEGER A~integer A;
statements INTEGER :: A, B(4)~integer A B[4];
statements INTEGER A(8, 0:3), M~integer A[8,0:3] M;
statements INTEGER, DIMENSION(4) :: M, N(3)~integer/4/ M N[3];
statements INTEGER, PARAMETER :: N = 8~constant N=8;
statements INTEGER, PARAMETER, DIMENSION(3) :: G = (/ 3, 0, 7 /)~constant/3/ G={3,0,7};
statements INTEGER, DIMENSION(3), PARAMETER :: G = (/ 3 /), H(2) = 1~constant/3/ G={3} H[2]=1;
statements integer , parameter::n=(4)~constant N=4;
statements INTEGER, PARAMETER :: N(2:3) = +5, M = -5~constant N[2:3]=5 M=-(5);
statements INTEGER A\nINTEGER B~integer A;integer B;
statements INTEGER A(N, M:N)~integer A[N,M:N];
statements INTEGER A(1+2-3)~integer A[((1+2)-3)];
statements INTEGER A(1-2+3)~integer A[((1-2)+3)];
statements INTEGER A(-1*2+3)~integer A[(-((1*2))+3)];
statements INTEGER A(1+2*3)~integer A[(1+(2*3))];
statements INTEGER A(1*2*3)~integer A[((1*2)*3)];
statements INTEGER A(1-(2-3))~integer A[(1-(2-3))];
statements INTEGER A((((1))))~integer A[1];
statements INTEGER A((1+2)*3)~integer A[((1+2)*3)];
statements INTEGER A(+1)~integer A[1];
statements INTEGER A(-(-1))~integer A[-(-(1))];
statements INTEGER A(1*(-2))~integer A[(1*-(2))];
statements INTEGER A(-1-2)~integer A[(-(1)-2)];
statements INTEGER A((+1)+(2))~integer A[(1+2)];
statements INTEGER A(2*(3*4))~integer A[(2*(3*4))];
statements !HPF$ PROCESSORS P(4), Q(2,2)~processors P[4] Q[2,2];
statements !HPF$ TEMPLATE T(8, 0:9)~template T[8,0:9];
statements !HPF$ DISTRIBUTE A(BLOCK)~distribute A (block);
statements !HPF$ DISTRIBUTE A(BLOCK(2), *, CYCLIC) ONTO P~distribute A (block 2,*,cyclic) onto P;
statements !HPF$ DISTRIBUTE (CYCLIC(3)) :: A, B~distribute A B (cyclic 3);
statements !HPF$ DISTRIBUTE (GEN_BLOCK(G), INDIRECT(H)) ONTO P :: A~distribute A (gen_block G,indirect H) onto P;
statements !HPF$ ALIGN A WITH T~align A with T;
statements !HPF$ ALIGN A(I, :, *) WITH T(I+1, :, *)~align A (I,:,*) with T ((I+1),_:_:_,*);
statements !HPF$ ALIGN WITH T :: A, B~align A B with T;
statements !HPF$ ALIGN (I) WITH T(2:9:3) :: A~align A (I) with T (2:9:3);
statements !HPF$ ALIGN A(:) WITH T(2:)~align A (:) with T (2:_:_);
statements !HPF$ ALIGN A(:) WITH T(:9)~align A (:) with T (_:9:_);
statements !HPF$ ALIGN A(:) WITH T(:9:2)~align A (:) with T (_:9:2);
statements !HPF$ ALIGN A(:) WITH T(1::2)~align A (:) with T (1:_:2);
statements !HPF$ ALIGN A(:) WITH T(::2)~align A (:) with T (_:_:2);
statements !HPF$ ALIGN A(:) WITH T(1: :2)~align A (:) with T (1:_:2);
statements !HPF$ ALIGN A(:) WITH T(:-1)~align A (:) with T (_:-(1):_);
statements !HPF$ SHADOW A(1, 2:3)~shadow A (1,2:3);
statements !HPF$ SHADOW (1:2) :: A, B~shadow A B (1:2);
statements !PIPE$ INPUT A~input A;
statements !PIPE$ INPUT A BUFFERS(2) ADD(1)~input A buffers 2 add 1;
statements !PIPE$ INPUT A MUL(2)~input A mul 2;
statements !PIPE$ INPUT A PREFIX(1)~input A prefix 1;
statements !PIPE$ STAGE B~stage B;
statements !PIPE$ STAGE B PERMUTE(2, 1) BUFFERS(3) STENCIL(1, (/ 1, 2, 1 /))~stage B permute (2,1) buffers 3 stencil 1 {1,2,1};
statements !PIPE$ STAGE B BUFFERS(1)~stage B buffers 1;
statements !PIPE$ STAGE B PERMUTE(1) ADD(-1)~stage B permute (1) add -(1);
"#;

/// A token that no text has there.
pub(super) const REFUSED: &str = r#"
statements INTEGER BLOCK~refused 10 at 1:9
statements INTEGER DYNAMIC~refused 10 at 1:9
statements INTEGER INHERIT~refused 10 at 1:9
statements INTEGER REALIGN~refused 10 at 1:9
statements INTEGER REDISTRIBUTE~refused 10 at 1:9
statements INTEGER REDUCE~refused 10 at 1:9
statements INTEGER~refused 10 at 1:8
statements INTEGER ::~refused 10 at 1:11
statements INTEGER (A)~refused 10 at 1:9
statements INTEGER A()~refused 10 at 1:11
statements INTEGER A(8~refused 10 at 1:12
statements INTEGER A(8,)~refused 10 at 1:13
statements INTEGER A(8 9)~refused 10 at 1:13
statements INTEGER A(1:2:3)~refused 10 at 1:14
statements INTEGER A(1::2)~refused 10 at 1:12
statements INTEGER A(:3)~refused 10 at 1:11
statements INTEGER A(1:)~refused 10 at 1:13
statements INTEGER A,~refused 10 at 1:11
statements INTEGER A B~refused 10 at 1:11
statements INTEGER A = 1~refused 10 at 1:11
statements INTEGER, A~refused 10 at 1:10
statements INTEGER,~refused 10 at 1:9
statements INTEGER, PARAMETER N = 8~refused 10 at 1:20
statements INTEGER, PARAMETER, PARAMETER :: N = 8~refused 10 at 1:21
statements INTEGER, DIMENSION(3), DIMENSION(2) :: A~refused 10 at 1:24
statements INTEGER, DIMENSION(3) A~refused 10 at 1:23
statements INTEGER, DIMENSION :: A~refused 10 at 1:20
statements INTEGER, DIMENSION(3), PARAMETER, DIMENSION(2) :: A = 1~refused 10 at 1:33
statements INTEGER, PARAMETER, DIMENSION(3), PARAMETER :: A = 1~refused 10 at 1:33
statements INTEGER, PARAMETER :: N~refused 10 at 1:24
statements INTEGER, PARAMETER :: N =~refused 10 at 1:26
statements INTEGER, PARAMETER :: N = (/ /)~refused 10 at 1:30
statements INTEGER, PARAMETER :: N = (/ 1, 2~refused 10 at 1:34
statements INTEGER, PARAMETER :: N = (/ 1, /)~refused 10 at 1:33
statements INTEGER, PARAMETER :: N = (/ 1 )~refused 10 at 1:32
statements IMPLICIT~refused 10 at 1:9
statements IMPLICIT INTEGER~refused 10 at 1:10
statements IMPLICIT NONE A~refused 10 at 1:15
statements A~refused 10 at 1:1
statements 8~refused 10 at 1:1
statements ALIGN A WITH T~refused 10 at 1:1
statements !HPF$~refused 10 at 1:6
statements !HPF$ INTEGER A~refused 10 at 1:7
statements !HPF$ DYNAMIC A~refused 10 at 1:7
statements !HPF$ PROCESSORS P~refused 10 at 1:19
statements !HPF$ PROCESSORS (4)~refused 10 at 1:18
statements !HPF$ PROCESSORS P(4),~refused 10 at 1:23
statements !HPF$ TEMPLATE WITH(8)~refused 10 at 1:16
statements !HPF$ DISTRIBUTE~refused 10 at 1:17
statements !HPF$ DISTRIBUTE A~refused 10 at 1:19
statements !HPF$ DISTRIBUTE A()~refused 10 at 1:20
statements !HPF$ DISTRIBUTE A(BLOCK~refused 10 at 1:25
statements !HPF$ DISTRIBUTE A(BLOCK())~refused 10 at 1:26
statements !HPF$ DISTRIBUTE A(BLOCK(2~refused 10 at 1:27
statements !HPF$ DISTRIBUTE A(GEN_BLOCK)~refused 10 at 1:29
statements !HPF$ DISTRIBUTE A(GEN_BLOCK(3))~refused 10 at 1:30
statements !HPF$ DISTRIBUTE A(INDIRECT(G,H))~refused 10 at 1:30
statements !HPF$ DISTRIBUTE A(X)~refused 10 at 1:20
statements !HPF$ DISTRIBUTE A(BLOCK) ONTO~refused 10 at 1:31
statements !HPF$ DISTRIBUTE A(BLOCK) ONTO BLOCK~refused 10 at 1:32
statements !HPF$ DISTRIBUTE A(BLOCK) :: B~refused 10 at 1:27
statements !HPF$ DISTRIBUTE (BLOCK)~refused 10 at 1:25
statements !HPF$ DISTRIBUTE (BLOCK) ::~refused 10 at 1:28
statements !HPF$ DISTRIBUTE (BLOCK) :: A,~refused 10 at 1:31
statements !HPF$ ALIGN A~refused 10 at 1:14
statements !HPF$ ALIGN A() WITH T~refused 10 at 1:15
statements !HPF$ ALIGN A(I+1) WITH T~refused 10 at 1:16
statements !HPF$ ALIGN A(I) WITH~refused 10 at 1:22
statements !HPF$ ALIGN A WITH T()~refused 10 at 1:22
statements !HPF$ ALIGN A WITH T(1:2:3:4)~refused 10 at 1:27
statements !HPF$ ALIGN A WITH T(1:2::3)~refused 10 at 1:25
statements !HPF$ ALIGN A WITH T(: ::)~refused 10 at 1:24
statements !HPF$ ALIGN A WITH T(1::)~refused 10 at 1:25
statements !HPF$ ALIGN A WITH T(1,)~refused 10 at 1:24
statements !HPF$ ALIGN A WITH T :: B~refused 10 at 1:22
statements !HPF$ ALIGN WITH T~refused 10 at 1:19
statements !HPF$ ALIGN :: A~refused 10 at 1:13
statements !HPF$ SHADOW A~refused 10 at 1:15
statements !HPF$ SHADOW A(1:)~refused 10 at 1:18
statements !HPF$ SHADOW A(1:2:3)~refused 10 at 1:19
statements !HPF$ SHADOW (1)~refused 10 at 1:17
statements !PIPE$~refused 10 at 1:7
statements !PIPE$ A~refused 10 at 1:8
statements !PIPE$ INPUT~refused 10 at 1:13
statements !PIPE$ INPUT ADD(1)~refused 10 at 1:14
statements !PIPE$ INPUT A PERMUTE(1)~refused 10 at 1:16
statements !PIPE$ INPUT A BUFFERS~refused 10 at 1:23
statements !PIPE$ INPUT A BUFFERS()~refused 10 at 1:24
statements !PIPE$ INPUT A ADD(1) BUFFERS(2)~refused 10 at 1:23
statements !PIPE$ INPUT A ADD(1) MUL(2)~refused 10 at 1:23
statements !PIPE$ INPUT A ADD(1) ADD(1)~refused 10 at 1:23
statements !PIPE$ INPUT A PREFIX(1, 2)~refused 10 at 1:24
statements !PIPE$ STAGE B BUFFERS(2) PERMUTE(1)~refused 10 at 1:27
statements !PIPE$ STAGE B PERMUTE()~refused 10 at 1:24
statements !PIPE$ STAGE B STENCIL(1)~refused 10 at 1:25
statements !PIPE$ STAGE B STENCIL(1, 2)~refused 10 at 1:27
statements !PIPE$ STAGE B STENCIL(1, (/ 1 /)~refused 10 at 1:34
statements INTEGER A(1+)~refused 10 at 1:13
statements INTEGER A(*2)~refused 10 at 1:11
statements INTEGER A(1**2)~refused 10 at 1:13
statements INTEGER A(1*-2)~refused 10 at 1:13
statements INTEGER A(1++2)~refused 10 at 1:13
statements INTEGER A(+-1)~refused 10 at 1:12
statements INTEGER A((1:2))~refused 10 at 1:13
statements INTEGER A((1+2,3))~refused 10 at 1:15
statements INTEGER A(())~refused 10 at 1:12
statements INTEGER A(1))~refused 10 at 1:13
statements INTEGER A\nINTEGER NONE~refused 10 at 2:9
"#;

/// Expressions of 64 tokens, and of more.
pub(super) const LONG: &str = r#"
statements INTEGER A(1+1+1+1+1+1+1+1+1+1+1+1+1+1+1+1+1+1+1+1+1+1+1+1+1+1+1+1+1+1+1+1)~integer A[(((((((((((((((((((((((((((((((1+1)+1)+1)+1)+1)+1)+1)+1)+1)+1)+1)+1)+1)+1)+1)+1)+1)+1)+1)+1)+1)+1)+1)+1)+1)+1)+1)+1)+1)+1)+1)];
statements INTEGER A(+1+1+1+1+1+1+1+1+1+1+1+1+1+1+1+1+1+1+1+1+1+1+1+1+1+1+1+1+1+1+1+1)~integer A[(((((((((((((((((((((((((((((((1+1)+1)+1)+1)+1)+1)+1)+1)+1)+1)+1)+1)+1)+1)+1)+1)+1)+1)+1)+1)+1)+1)+1)+1)+1)+1)+1)+1)+1)+1)+1)];
statements INTEGER A(1+1+1+1+1+1+1+1+1+1+1+1+1+1+1+1+1+1+1+1+1+1+1+1+1+1+1+1+1+1+1+1+1)~refused 11 at 1:75
statements INTEGER A(1+1+1+1+1+1+1+1+1+1+1+1+1+1+1+1+1+1+1+1+1+1+1+1+1+1+1+1+1+1+1+1+)~refused 10 at 1:75
statements INTEGER A(1+1+1+1+1+1+1+1+1+1+1+1+1+1+1+1+1+1+1+1+1+1+1+1+1+1+1+1+1+1+1+1+,~refused 10 at 1:75
statements INTEGER A((1+1+1+1+1+1+1+1+1+1+1+1+1+1+1+1+1+1+1+1+1+1+1+1+1+1+1+1+1+1+1+1))~refused 11 at 1:75
statements INTEGER A((1+1+1+1+1+1+1+1+1+1+1+1+1+1+1+1+1+1+1+1+1+1+1+1+1+1+1+1+1+1+1)+1)~refused 11 at 1:75
statements INTEGER A(((((((((((((((((((((((((((((((((((((((((((((((((((((((((((((((((((((((1)))))))))))))))))))))))))))))))))))))))))))))))))))))))))))))))))))))))~refused 11 at 1:75
statements INTEGER A((((((((((((((((((((((((((((((((1))))))))))))))))))))))))))))))))~integer A[1];
statements INTEGER A(((((((((((((((((((((((((((((((((1)))))))))))))))))))))))))))))))))~refused 11 at 1:75
statements INTEGER A(((((((((((((((((((((((((((((((((1))))))))))))))))))))))))))))))))~refused 11 at 1:75
statements INTEGER A(1+1+1+1+1+1+1+1+1+1+1+1+1+1+1+1+1+1+1+1+1+1+1+1+1+1+1+1+1+1+1+1:+1+1+1+1+1+1+1+1+1+1+1+1+1+1+1+1+1+1+1+1+1+1+1+1+1+1+1+1+1+1+1+1)~integer A[(((((((((((((((((((((((((((((((1+1)+1)+1)+1)+1)+1)+1)+1)+1)+1)+1)+1)+1)+1)+1)+1)+1)+1)+1)+1)+1)+1)+1)+1)+1)+1)+1)+1)+1)+1)+1):(((((((((((((((((((((((((((((((1+1)+1)+1)+1)+1)+1)+1)+1)+1)+1)+1)+1)+1)+1)+1)+1)+1)+1)+1)+1)+1)+1)+1)+1)+1)+1)+1)+1)+1)+1)+1)];
statements INTEGER A(1+1+1+1+1+1+1+1+1+1+1+1+1+1+1+1+1+1+1+1+1+1+1+1+1+1+1+1+1+1+1+1:1+1+1+1+1+1+1+1+1+1+1+1+1+1+1+1+1+1+1+1+1+1+1+1+1+1+1+1+1+1+1+1+1)~refused 11 at 1:139
statements !HPF$ ALIGN A WITH T(1:1+1+1+1+1+1+1+1+1+1+1+1+1+1+1+1+1+1+1+1+1+1+1+1+1+1+1+1+1+1+1+1+1)~refused 11 at 1:88
statements !PIPE$ INPUT A ADD(1+1+1+1+1+1+1+1+1+1+1+1+1+1+1+1+1+1+1+1+1+1+1+1+1+1+1+1+1+1+1+1+1)~refused 11 at 1:84
"#;

/// The places that the tree keeps.
pub(super) const PLACES: &str = r#"
places INTEGER A(1 + 2*3)~integer A@1:9[(1@1:11+@1:13(2@1:15*@1:163@1:17))];
places INTEGER A(-N)~integer A@1:9[-@1:11(N@1:12)];
places INTEGER A((1)-(2))~integer A@1:9[(1@1:12-@1:142@1:16)];
places IMPLICIT NONE~none@1:1;
places !HPF$ DISTRIBUTE A(*, BLOCK, CYCLIC(1), GEN_BLOCK(G)) ONTO P~distribute A@1:18 (*@1:20,block@1:23,cyclic@1:30 1@1:37,gen_block@1:41 G@1:51) onto P@1:60;
places !HPF$ DISTRIBUTE A(INDIRECT(H))~distribute A@1:18 (indirect@1:20 H@1:29);
places !HPF$ ALIGN A(:,*,I) WITH T(*,1:2,::3)~align A@1:13 (:@1:15,*@1:17,I@1:19) with T@1:27 (*@1:29,1@1:31:@1:322@1:33:_,_:@1:35_:3@1:37);
places !PIPE$ INPUT A PREFIX(1)~input@1:8 A@1:14 prefix@1:16 1@1:23;
places !PIPE$ STAGE B\n!PIPE$ STAGE C STENCIL(1,(/2/))~stage@1:8 B@1:14;stage@2:8 C@2:14 stencil@2:16 1@2:24 {2@2:28};
"#;
