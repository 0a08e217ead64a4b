//! Texts, and their canonical texts.

/// Every form of a statement.
pub(super) const STATEMENTS: &str = r#"
canonical ~
canonical ! nothing\n\n~
canonical implicit none~IMPLICIT NONE\n
canonical INTEGER::A~INTEGER A\n
canonical integer a ( 8 , 0 : 3 ) , m~INTEGER A(8, 0:3), M\n
canonical INTEGER,DIMENSION(4)::M,N(3)~INTEGER, DIMENSION(4) :: M, N(3)\n
canonical INTEGER, DIMENSION(0:7,2) :: A~INTEGER, DIMENSION(0:7, 2) :: A\n
canonical INTEGER,PARAMETER::N=8,M=-5~INTEGER, PARAMETER :: N = 8, M = -5\n
canonical INTEGER, PARAMETER :: G(3)=(/3,0,7/)~INTEGER, PARAMETER :: G(3) = (/ 3, 0, 7 /)\n
canonical INTEGER, PARAMETER, DIMENSION(3) :: G=(/ 3,0,7 /)~INTEGER, PARAMETER, DIMENSION(3) :: G = (/ 3, 0, 7 /)\n
canonical INTEGER, DIMENSION(2:3), PARAMETER :: G = (/3/), H(2) = 1~INTEGER, PARAMETER, DIMENSION(2:3) :: G = (/ 3 /), H(2) = 1\n
canonical !HPF$PROCESSORS P(4),Q(2,2)~!HPF$ PROCESSORS P(4), Q(2, 2)\n
canonical !HPF$ TEMPLATE T(8,0:9),U(1)~!HPF$ TEMPLATE T(8, 0:9), U(1)\n
canonical !HPF$ DISTRIBUTE A(BLOCK)~!HPF$ DISTRIBUTE A(BLOCK)\n
canonical !HPF$ DISTRIBUTE A(BLOCK(2),*,CYCLIC,CYCLIC(3))ONTO P~!HPF$ DISTRIBUTE A(BLOCK(2), *, CYCLIC, CYCLIC(3)) ONTO P\n
canonical !HPF$ DISTRIBUTE A(GEN_BLOCK(G),INDIRECT(H))~!HPF$ DISTRIBUTE A(GEN_BLOCK(G), INDIRECT(H))\n
canonical !HPF$ DISTRIBUTE(BLOCK)ONTO P::A,B~!HPF$ DISTRIBUTE (BLOCK) ONTO P :: A, B\n
canonical !HPF$ DISTRIBUTE (CYCLIC(3)) :: A,B,C~!HPF$ DISTRIBUTE (CYCLIC(3)) :: A, B, C\n
canonical !HPF$ DISTRIBUTE (BLOCK,*) ONTO P :: A~!HPF$ DISTRIBUTE A(BLOCK, *) ONTO P\n
canonical !HPF$ ALIGN A WITH T~!HPF$ ALIGN A WITH T\n
canonical !HPF$ ALIGN A(I,:,*)WITH T(I+1,:,*)~!HPF$ ALIGN A(I, :, *) WITH T(I+1, :, *)\n
canonical !HPF$ ALIGN A(I)WITH T~!HPF$ ALIGN A(I) WITH T\n
canonical !HPF$ ALIGN A WITH T(3)~!HPF$ ALIGN A WITH T(3)\n
canonical !HPF$ ALIGN(I)WITH T(I+1)::A,B~!HPF$ ALIGN (I) WITH T(I+1) :: A, B\n
canonical !HPF$ ALIGN WITH T::A,B~!HPF$ ALIGN WITH T :: A, B\n
canonical !HPF$ ALIGN (:) WITH T(2:) :: A~!HPF$ ALIGN A(:) WITH T(2:)\n
canonical !HPF$ ALIGN WITH T :: A~!HPF$ ALIGN A WITH T\n
canonical !HPF$ SHADOW A(1,2:3)~!HPF$ SHADOW A(1, 2:3)\n
canonical !HPF$ SHADOW(1:2)::A,B~!HPF$ SHADOW (1:2) :: A, B\n
canonical !HPF$ SHADOW (1) :: A~!HPF$ SHADOW A(1)\n
canonical !PIPE$ INPUT A~!PIPE$ INPUT A\n
canonical !pipe$input a buffers(2)add(1)~!PIPE$ INPUT A BUFFERS(2) ADD(1)\n
canonical !PIPE$ INPUT A MUL(-2)~!PIPE$ INPUT A MUL(-2)\n
canonical !PIPE$ INPUT A PREFIX(1)~!PIPE$ INPUT A PREFIX(1)\n
canonical !PIPE$ STAGE B~!PIPE$ STAGE B\n
canonical !PIPE$ STAGE B BUFFERS(1)~!PIPE$ STAGE B BUFFERS(1)\n
canonical !PIPE$ STAGE B PERMUTE(1)ADD(-1)~!PIPE$ STAGE B PERMUTE(1) ADD(-1)\n
canonical !PIPE$ STAGE B PERMUTE(2,1)BUFFERS(3)STENCIL(1,(/1,2,1/))~!PIPE$ STAGE B PERMUTE(2, 1) BUFFERS(3) STENCIL(1, (/ 1, 2, 1 /))\n
"#;

/// Expressions and triplets, with the parentheses that they need.
pub(super) const EXPRESSIONS: &str = r#"
canonical INTEGER A(007, 0, 2147483647)~INTEGER A(7, 0, 2147483647)\n
canonical INTEGER A(+1, ((1)), -(n), +(1+2))~INTEGER A(1, 1, -N, 1+2)\n
canonical INTEGER A((1+2)+3, 1+(2+3), 1+(2-3), 1+(-2))~INTEGER A(1+2+3, 1+(2+3), 1+(2-3), 1+(-2))\n
canonical INTEGER A((-1)+2, 1+(2*3), (1*2)+3, 1+2*3)~INTEGER A(-1+2, 1+2*3, 1*2+3, 1+2*3)\n
canonical INTEGER A((1+2)-3, 1-(2+3), 1-(2-3), 1-(-2))~INTEGER A(1+2-3, 1-(2+3), 1-(2-3), 1-(-2))\n
canonical INTEGER A((-1)-2, 1-(2*3), (1*2)-3)~INTEGER A(-1-2, 1-2*3, 1*2-3)\n
canonical INTEGER A((1*2)*3, 1*(2*3), (1+2)*3, 1*(2+3))~INTEGER A(1*2*3, 1*(2*3), (1+2)*3, 1*(2+3))\n
canonical INTEGER A((1-2)*3, 1*(2-3), (-1)*2, 1*(-2))~INTEGER A((1-2)*3, 1*(2-3), (-1)*2, 1*(-2))\n
canonical INTEGER A(-1*2, -(1*2), -(1+2), -(1-2), -(-1))~INTEGER A(-1*2, -1*2, -(1+2), -(1-2), -(-1))\n
canonical INTEGER A((1+2)*(3-4)*(-(5*6)))~INTEGER A((1+2)*(3-4)*(-5*6))\n
canonical !HPF$ ALIGN A(:) WITH T(:)~!HPF$ ALIGN A(:) WITH T(:)\n
canonical !HPF$ ALIGN A(:) WITH T(2:, :9, 2:9)~!HPF$ ALIGN A(:) WITH T(2:, :9, 2:9)\n
canonical !HPF$ ALIGN A(:) WITH T(:9:2, 2:9:3)~!HPF$ ALIGN A(:) WITH T(:9:2, 2:9:3)\n
canonical !HPF$ ALIGN A(:) WITH T(1::2, 1: :2, ::2, : :2)~!HPF$ ALIGN A(:) WITH T(1::2, 1::2, ::2, ::2)\n
"#;

/// Texts from which blanks, comments and parentheses are taken.
pub(super) const TEXTS: &str = r#"
canonical integer a((1+2)*3,-(2-5))~INTEGER A((1+2)*3, -(2-5))\n
canonical INTEGER A((1-2)-3, 1-(2-3))~INTEGER A(1-2-3, 1-(2-3))\n
canonical !hpf$ align b(:) with t(7:1:-2,0)~!HPF$ ALIGN B(:) WITH T(7:1:-2, 0)\n
canonical   integer , parameter::n=(4)\ninteger a(n,0:n-1)\n!hpf$ processors p(2)\n!hpf$ distribute a(block , &\n!hpf$ *)onto p~INTEGER, PARAMETER :: N = 4\nINTEGER A(N, 0:N-1)\n!HPF$ PROCESSORS P(2)\n!HPF$ DISTRIBUTE A(BLOCK, *) ONTO P\n
canonical ! a comment\nINTEGER A ! another\n\n!PIPE$ INPUT A~INTEGER A\n!PIPE$ INPUT A\n
"#;
