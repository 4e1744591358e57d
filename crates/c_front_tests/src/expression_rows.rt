//! Expressions with what they get.

/// The declarations before each expression, which is a statement of its own.
pub const BEFORE: &str = "\
typedef int INT; typedef char CHAR; typedef unsigned char UCHAR; typedef long long LLONG; typedef _Bool BOOL;
typedef void VOID; typedef int *PINT; typedef void *PVOID; typedef int A3[3]; typedef int FN(int); typedef int (*PF)(int);
typedef struct s { int a; char b; int v[3]; volatile int w; struct s *n; } S;
typedef struct t T; typedef T *PT;
struct other { int a; char b; };
union both { int i; char c[6]; };
enum { Z, E = 5 };
int f(int); void g(void); int h(char *, ...); int *fp(void);
extern int ua[]; extern T xt;
void test(void) {
 int i; char c; unsigned u; long l; long long ll; unsigned long ul; short sh; unsigned char uc; _Bool b;
 int *p; char *pc; void *pv; S x; S *ps; PT pt; union both un; int a[3]; int m[2][3]; PF pf;
 volatile int vi; volatile S vx; struct other y; int (*pa)[]; int **pp; S ar[2]; volatile int *pvi; unsigned long long ull;
";

/// What stands behind it.
pub const BEHIND: &str = ";
}
";

/// Another file, with the objects that the first one declares.
pub const OTHER: &str = "int ua[3]; struct t { int z; } xt;";

/// Each line has an expression, and behind a tab its typed form, each operator before its operands, or its first fault with the column.
pub const ROWS: &str = "\
i\tRead:Int Local.0:Int
E\t5:Int
f\tDecay:*function Function.1:function
a\tDecay:*Int Local.16:[3]Int
\"ab\"\tDecay:*Char Static.0:[3]Char
'A'\t65:Int
1u\t1:UInt
4294967296ll\t4294967296:LongLong
q\ttype 2 @1
setjmp\tunsupported 15 @1
longjmp(i)\tunsupported 15 @1
x\tLocal.12:s
i + c\tAdd:Int Read:Int Local.0:Int Convert:Int Read:Char Local.1:Char
c + c\tAdd:Int Convert:Int Read:Char Local.1:Char Convert:Int Read:Char Local.1:Char
u + i\tAdd:UInt Read:UInt Local.2:UInt Convert:UInt Read:Int Local.0:Int
l + u\tAdd:ULong Convert:ULong Read:Long Local.3:Long Convert:ULong Read:UInt Local.2:UInt
ll + ul\tAdd:LongLong Read:LongLong Local.4:LongLong Convert:LongLong Read:ULong Local.5:ULong
ul + ll\tAdd:LongLong Convert:LongLong Read:ULong Local.5:ULong Read:LongLong Local.4:LongLong
ull + ll\tAdd:ULongLong Read:ULongLong Local.26:ULongLong Convert:ULongLong Read:LongLong Local.4:LongLong
sh * uc\tMul:Int Convert:Int Read:Short Local.6:Short Convert:Int Read:UChar Local.7:UChar
b + b\tAdd:Int Convert:Int Read:Bool Local.8:Bool Convert:Int Read:Bool Local.8:Bool
i % u\tRem:UInt Convert:UInt Read:Int Local.0:Int Read:UInt Local.2:UInt
i & ll\tAnd:LongLong Convert:LongLong Read:Int Local.0:Int Read:LongLong Local.4:LongLong
u | i\tOr:UInt Read:UInt Local.2:UInt Convert:UInt Read:Int Local.0:Int
c ^ uc\tXor:Int Convert:Int Read:Char Local.1:Char Convert:Int Read:UChar Local.7:UChar
i << ll\tShl:Int Read:Int Local.0:Int Read:LongLong Local.4:LongLong
ll >> c\tShr:LongLong Read:LongLong Local.4:LongLong Convert:Int Read:Char Local.1:Char
uc << 1\tShl:Int Convert:Int Read:UChar Local.7:UChar 1:Int
p + 1\tSum+:*Int Read:*Int Local.9:*Int 1:Int
1 + p\tSum+swapped:*Int Read:*Int Local.9:*Int 1:Int
p - 1\tSum-:*Int Read:*Int Local.9:*Int 1:Int
p - p\tMinus:Int Read:*Int Local.9:*Int Read:*Int Local.9:*Int
p - pvi\tMinus:Int Read:*Int Local.9:*Int Read:*volatile.Int Local.25:*volatile.Int
ps - ps\tMinus:Int Read:*s Local.13:*s Read:*s Local.13:*s
1 - p\ttype 1 @3
p * 2\ttype 1 @3
p + p\ttype 1 @3
pv + 1\ttype 1 @4
pt + 1\ttype 1 @4
1 + pv\ttype 1 @3
pf + 1\ttype 1 @4
p + ps\ttype 1 @3
p - pc\ttype 1 @3
x + 1\ttype 1 @3
1 + x\ttype 1 @3
pa + 1\ttype 1 @4
g() + 1\ttype 1 @5
i / x\ttype 1 @3
p << 1\ttype 1 @3
i & p\ttype 1 @3
q + r\ttype 2 @1
x + q\ttype 2 @5
(x + i) + q\ttype 1 @4
i < u\tLt:Int Convert:UInt Read:Int Local.0:Int Read:UInt Local.2:UInt
c <= c\tLe:Int Convert:Int Read:Char Local.1:Char Convert:Int Read:Char Local.1:Char
p < p\tLt:Int Read:*Int Local.9:*Int Read:*Int Local.9:*Int
p < pv\tLt:Int Read:*Int Local.9:*Int Read:*Void Local.11:*Void
p < 0\ttype 1 @3
p == 0\tEq:Int Read:*Int Local.9:*Int Null:*Int
0 == p\tEq:Int Null:*Int Read:*Int Local.9:*Int
p == (1 - 1)\tEq:Int Read:*Int Local.9:*Int Null:*Int
p == ((PVOID)0)\tEq:Int Read:*Int Local.9:*Int Null:*Void
p == i\ttype 1 @3
1 != p\ttype 1 @3
p == pc\tEq:Int Read:*Int Local.9:*Int Read:*Char Local.10:*Char
pf == pf\tEq:Int Read:*function Local.18:*function Read:*function Local.18:*function
pf == 0\tEq:Int Read:*function Local.18:*function Null:*function
f == pf\tEq:Int Decay:*function Function.1:function Read:*function Local.18:*function
pf < pf\ttype 1 @4
pf < p\ttype 1 @4
x == x\ttype 1 @3
i == x\ttype 1 @3
p == Z\tEq:Int Read:*Int Local.9:*Int Null:*Int
p == E\ttype 1 @3
p == (1 / 0)\ttype 1 @3
p == (0 && (1 / 0))\tEq:Int Read:*Int Local.9:*Int Null:*Int
p == (1 || (1 / 0))\ttype 1 @3
p == (1 ? 0 : (1 / 0))\tEq:Int Read:*Int Local.9:*Int Null:*Int
p == (0 ? (1 / 0) : 0)\tEq:Int Read:*Int Local.9:*Int Null:*Int
p == (0 && i)\ttype 1 @3
p == (-1)\ttype 1 @3
p == ((~0) + 1)\tEq:Int Read:*Int Local.9:*Int Null:*Int
p == ((BOOL)0)\tEq:Int Read:*Int Local.9:*Int Null:*Int
p == ((INT)0)\tEq:Int Read:*Int Local.9:*Int Null:*Int
p == ((sizeof i) - 4)\tEq:Int Read:*Int Local.9:*Int Null:*Int
p == ('A' - 65)\tEq:Int Read:*Int Local.9:*Int Null:*Int
p == (2147483647 + 1)\ttype 1 @3
p == (1 << 31)\ttype 1 @3
p == (1 << 32)\ttype 1 @3
p == ((1u << 31) << 1)\tEq:Int Read:*Int Local.9:*Int Null:*Int
p == (5 % 5)\tEq:Int Read:*Int Local.9:*Int Null:*Int
p == (0 == 1)\tEq:Int Read:*Int Local.9:*Int Null:*Int
p == (!1)\tEq:Int Read:*Int Local.9:*Int Null:*Int
p == (256 == ((UCHAR)256))\tEq:Int Read:*Int Local.9:*Int Null:*Int
i && p\tBoth:Int Read:Int Local.0:Int Read:*Int Local.9:*Int
p || x\ttype 1 @3
x && i\ttype 1 @3
!p\tIsZero:Int Read:*Int Local.9:*Int
!x\ttype 1 @1
!i\tIsZero:Int Read:Int Local.0:Int
i ? c : u\tChoose:UInt Read:Int Local.0:Int Convert:UInt Read:Char Local.1:Char Read:UInt Local.2:UInt
i ? p : p\tChoose:*Int Read:Int Local.0:Int Read:*Int Local.9:*Int Read:*Int Local.9:*Int
i ? p : pc\tChoose:*Int Read:Int Local.0:Int Read:*Int Local.9:*Int Convert:*Int Read:*Char Local.10:*Char
i ? p : 0\tChoose:*Int Read:Int Local.0:Int Read:*Int Local.9:*Int Null:*Int
i ? 0 : p\tChoose:*Int Read:Int Local.0:Int Null:*Int Read:*Int Local.9:*Int
i ? p : i\ttype 1 @3
i ? x : x\ttype 1 @3
i ? g() : g()\tChoose:Void Read:Int Local.0:Int Call0:Void Decay:*function Function.1:function Call0:Void Decay:*function Function.1:function
i ? g() : 1\ttype 1 @3
x ? q : r\ttype 1 @3
i ? f : pf\tChoose:*function Read:Int Local.0:Int Decay:*function Function.1:function Convert:*function Read:*function Local.18:*function
i ? pvi : p\tChoose:*volatile.Int Read:Int Local.0:Int Read:*volatile.Int Local.25:*volatile.Int Convert:*volatile.Int Read:*Int Local.9:*Int
x ? 1 : 2\ttype 1 @3
i ? x : 1\ttype 1 @3
+c\tConvert:Int Read:Char Local.1:Char
-c\tNeg:Int Convert:Int Read:Char Local.1:Char
~uc\tNot:Int Convert:Int Read:UChar Local.7:UChar
-p\ttype 1 @1
~p\ttype 1 @1
+x\ttype 1 @1
-ul\tNeg:ULong Read:ULong Local.5:ULong
+ull\tRead:ULongLong Local.26:ULongLong
i = 1\tAssign:Int Local.0:Int 1:Int
c = 300\tAssign:Char Local.1:Char Convert:Char 300:Int
p = 0\tAssign:*Int Local.9:*Int Null:*Int
p = pc\tAssign:*Int Local.9:*Int Convert:*Int Read:*Char Local.10:*Char
p = i\ttype 4 @3
i = p\ttype 4 @3
p = (1 - 1)\tAssign:*Int Local.9:*Int Null:*Int
x = x\tAssign:s Local.12:s Local.12:s
x = y\ttype 4 @3
y = x\ttype 4 @3
x = (x = x)\ttype 4 @3
vx = x\tAssign:s Local.20:volatile.s Local.12:s
x = vx\tAssign:s Local.12:s Local.20:volatile.s
1 = i\ttype 5 @3
a = a\ttype 5 @3
f = 0\ttype 5 @3
E = 1\ttype 5 @3
i = x\ttype 4 @3
x = 1\ttype 4 @3
ua = 0\ttype 5 @4
xt = xt\ttype 5 @4
(*pt) = (*pt)\ttype 7 @2
(i = 1) = 2\ttype 5 @9
b = p\ttype 4 @3
i = g()\ttype 4 @3
pf = f\tAssign:*function Local.18:*function Convert:*function Decay:*function Function.1:function
pf = 0\tAssign:*function Local.18:*function Null:*function
pf = (&f)\tAssign:*function Local.18:*function Convert:*function AddressOf:*function Function.1:function
m[1] = 0\ttype 5 @6
i += 1\tUpdateAdd.Int:Int Local.0:Int 1:Int
c += ll\tUpdateAdd.LongLong:Char Local.1:Char Read:LongLong Local.4:LongLong
c <<= ll\tUpdateShl.Int:Char Local.1:Char Read:LongLong Local.4:LongLong
p += 1\tUpdateAdd.*Int:*Int Local.9:*Int 1:Int
p -= c\tUpdateSub.*Int:*Int Local.9:*Int Read:Char Local.1:Char
p += p\ttype 1 @3
p *= 2\ttype 1 @3
pv += 1\ttype 1 @4
pt -= 1\ttype 1 @4
x += 1\ttype 1 @3
i += p\ttype 1 @3
i += x\ttype 1 @3
1 += 1\ttype 5 @3
vi += 2\tUpdateAdd.Int:Int Local.19:volatile.Int 2:Int
b |= 2\tUpdateOr.Int:Bool Local.8:Bool 2:Int
a += 1\ttype 5 @3
i = q\ttype 2 @5
1 = q\ttype 5 @3
i++\tUpdateAdd.Int,old:Int Local.0:Int 1:Int
++i\tUpdateAdd.Int:Int Local.0:Int 1:Int
p--\tUpdateSub.*Int,old:*Int Local.9:*Int 1:Int
--pp\tUpdateSub.**Int:**Int Local.23:**Int 1:Int
c++\tUpdateAdd.Int,old:Char Local.1:Char 1:Int
b++\tUpdateAdd.Int,old:Bool Local.8:Bool 1:Int
vi--\tUpdateSub.Int,old:Int Local.19:volatile.Int 1:Int
x++\ttype 1 @2
pv++\ttype 1 @3
pt++\ttype 1 @3
a++\ttype 5 @2
f++\ttype 5 @2
1++\ttype 5 @2
(i++)++\ttype 5 @6
pf++\ttype 1 @3
a[1]\tRead:Int Deref@0:Int Sum+:*Int Decay:*Int Local.16:[3]Int 1:Int
1[a]\tRead:Int Deref@0:Int Sum+swapped:*Int Decay:*Int Local.16:[3]Int 1:Int
m[1][2]\tRead:Int Deref@1:Int Sum+:*Int Decay:*Int Deref@0:[3]Int Sum+:*[3]Int Decay:*[3]Int Local.17:[2][3]Int 1:Int 2:Int
m[1]\tDecay:*Int Deref@0:[3]Int Sum+:*[3]Int Decay:*[3]Int Local.17:[2][3]Int 1:Int
p[i]\tRead:Int Deref@0:Int Sum+:*Int Read:*Int Local.9:*Int Read:Int Local.0:Int
pp[1][2]\tRead:Int Deref@1:Int Sum+:*Int Read:*Int Deref@0:*Int Sum+:**Int Read:**Int Local.23:**Int 1:Int 2:Int
a[p]\ttype 1 @2
i[i]\ttype 1 @2
pv[0]\ttype 1 @3
pt[0]\ttype 1 @3
pf[0]\ttype 1 @3
x[0]\ttype 1 @2
*p\tRead:Int Deref@0:Int Read:*Int Local.9:*Int
*(*pp)\tRead:Int Deref@0:Int Read:*Int Deref@1:*Int Read:**Int Local.23:**Int
*a\tRead:Int Deref@0:Int Decay:*Int Local.16:[3]Int
*m\tDecay:*Int Deref@0:[3]Int Decay:*[3]Int Local.17:[2][3]Int
*pv\ttype 1 @1
*pt\ttype 7 @1
*f\tDecay:*function Deref:function Decay:*function Function.1:function
*(*pf)\tDecay:*function Deref:function Decay:*function Deref:function Read:*function Local.18:*function
*i\ttype 1 @1
*x\ttype 1 @1
x.a\tRead:Int Member.0:Int Local.12:s
x.b\tRead:Char Member.1:Char Local.12:s
x.v\tDecay:*Int Member.2:[3]Int Local.12:s
x.v[1]\tRead:Int Deref@0:Int Sum+:*Int Decay:*Int Member.2:[3]Int Local.12:s 1:Int
x.n->n->a\tRead:Int Member.0:Int Deref@1:s Read:*s Member.4:*s Deref@0:s Read:*s Member.4:*s Local.12:s
x.q\ttype 10 @2
i.a\ttype 10 @2
xt.a\ttype 10 @3
(x = x).a\ttype 1 @8
vx.a\tRead:Int Member.0:volatile.Int Local.20:volatile.s
vx.v\tDecay:*volatile.Int Member.2:[3]volatile.Int Local.20:volatile.s
vx.n\tRead:*s Member.4:volatile.*s Local.20:volatile.s
x.w\tRead:Int Member.3:volatile.Int Local.12:s
un.c[2]\tRead:Char Deref@0:Char Sum+:*Char Decay:*Char Member.1:[6]Char Local.15:both 2:Int
ps->a\tRead:Int Member.0:Int Deref@0:s Read:*s Local.13:*s
ps->v\tDecay:*Int Member.2:[3]Int Deref@0:s Read:*s Local.13:*s
ps->zz\ttype 10 @3
i->a\ttype 1 @2
pv->a\ttype 1 @3
pt->a\ttype 7 @3
x->a\ttype 1 @2
ar->a\tRead:Int Member.0:Int Deref@0:s Decay:*s Local.24:[2]s
f->a\ttype 10 @2
pf->a\ttype 10 @3
ar[1].v[2]\tRead:Int Deref@1:Int Sum+:*Int Decay:*Int Member.2:[3]Int Deref@0:s Sum+:*s Decay:*s Local.24:[2]s 1:Int 2:Int
(i ? x : x).a\ttype 1 @4
&i\tAddressOf:*Int Local.0:Int
&a\tAddressOf:*[3]Int Local.16:[3]Int
&a[1]\tAddressOf:*Int Deref:Int Sum+:*Int Decay:*Int Local.16:[3]Int 1:Int
&(*p)\tAddressOf:*Int Deref:Int Read:*Int Local.9:*Int
&(*pv)\ttype 1 @3
&(*pt)\tAddressOf:*t Deref:t Read:*t Local.14:*t
&pt[0]\ttype 1 @4
&f\tAddressOf:*function Function.1:function
&(*f)\tAddressOf:*function Deref:function Decay:*function Function.1:function
&(*pf)\tAddressOf:*function Deref:function Read:*function Local.18:*function
&x.v[1]\tAddressOf:*Int Deref:Int Sum+:*Int Decay:*Int Member.2:[3]Int Local.12:s 1:Int
&ps->v\tAddressOf:*[3]Int Member.2:[3]Int Deref@0:s Read:*s Local.13:*s
&ps->a\tAddressOf:*Int Member.0:Int Deref@0:s Read:*s Local.13:*s
&1\ttype 5 @1
&(i + 1)\ttype 5 @1
&(i = 1)\ttype 5 @1
&E\ttype 5 @1
&pv[1]\ttype 1 @4
&xt\tAddressOf:*t Static.1:t
&ua\tAddressOf:*[]Int Static.0:[]Int
&(*i)\ttype 1 @3
&i[i]\ttype 1 @3
&(*(*pp))\tAddressOf:*Int Deref:Int Read:*Int Deref@0:*Int Read:**Int Local.23:**Int
&m[1][2]\tAddressOf:*Int Deref:Int Sum+:*Int Decay:*Int Deref@0:[3]Int Sum+:*[3]Int Decay:*[3]Int Local.17:[2][3]Int 1:Int 2:Int
&((x = x).a)\ttype 1 @10
&(\"ab\")\tAddressOf:*[3]Char Static.0:[3]Char
&g()\ttype 5 @1
&vi\tAddressOf:*volatile.Int Local.19:volatile.Int
&vx.a\tAddressOf:*volatile.Int Member.0:volatile.Int Local.20:volatile.s
sizeof i\t4:UInt
sizeof a\t12:UInt
sizeof m[0]\t12:UInt
sizeof (*p)\t4:UInt
sizeof (*pt)\ttype 7 @1
sizeof pt[0]\ttype 1 @10
sizeof (*pv)\ttype 1 @9
sizeof f\ttype 7 @1
sizeof (*f)\ttype 7 @1
sizeof ua\ttype 7 @1
sizeof xt\ttype 7 @1
sizeof x\t28:UInt
sizeof un\t8:UInt
sizeof(INT)\t4:UInt
sizeof(S)\t28:UInt
sizeof(T)\ttype 7 @1
sizeof(VOID)\ttype 7 @1
sizeof(FN)\ttype 7 @1
sizeof(A3)\t12:UInt
sizeof (\"abc\")\t4:UInt
sizeof (c + c)\t4:UInt
sizeof q\ttype 2 @8
sizeof (p[i]++)\t4:UInt
sizeof ps->v\t12:UInt
sizeof g()\ttype 7 @1
sizeof ua[0]\t4:UInt
sizeof (*pa)\ttype 7 @1
sizeof (&(*p))\t4:UInt
sizeof ll\t8:UInt
sizeof b\t1:UInt
(CHAR)i\tConvert:Char Read:Int Local.0:Int
(UCHAR)300\tConvert:UChar 300:Int
(PINT)pc\tConvert:*Int Read:*Char Local.10:*Char
(PINT)0\tNull:*Int
(PINT)(1 - 1)\tNull:*Int
(PINT)1\tConvert:*Int 1:Int
(INT)p\tConvert:Int Read:*Int Local.9:*Int
(LLONG)p\tConvert:LongLong Read:*Int Local.9:*Int
(BOOL)p\tConvert:Bool Read:*Int Local.9:*Int
(VOID)x\tConvert:Void Local.12:s
(VOID)g()\tConvert:Void Call0:Void Decay:*function Function.1:function
(INT)x\ttype 4 @1
(PINT)x\ttype 4 @1
(S)x\ttype 4 @1
(INT)g()\ttype 4 @1
(A3)a\ttype 4 @1
(T)i\ttype 4 @1
(PF)p\tConvert:*function Read:*Int Local.9:*Int
(INT)q\ttype 2 @6
(FN)f\ttype 4 @1
(VOID)a\tConvert:Void Decay:*Int Local.16:[3]Int
(PT)ps\tConvert:*t Read:*s Local.13:*s
f(1)\tCall1:Int Decay:*function Function.1:function 1:Int
f(c)\tCall1:Int Decay:*function Function.1:function Convert:Int Read:Char Local.1:Char
f()\ttype 6 @2
f(1, 2)\ttype 6 @2
f(p)\ttype 4 @3
f(x)\ttype 4 @3
f(ll)\tCall1:Int Decay:*function Function.1:function Convert:Int Read:LongLong Local.4:LongLong
g()\tCall0:Void Decay:*function Function.1:function
g(1)\ttype 6 @2
h(pc, c, uc, ll, p)\tCall5:Int Decay:*function Function.1:function Read:*Char Local.10:*Char Convert:Int Read:Char Local.1:Char Convert:Int Read:UChar Local.7:UChar Read:LongLong Local.4:LongLong Read:*Int Local.9:*Int
h(0)\tCall1:Int Decay:*function Function.1:function Null:*Char
h()\ttype 6 @2
h(pc, x)\ttype 4 @7
h(pc, g())\ttype 4 @8
h(i)\ttype 4 @3
pf(1)\tCall1:Int Read:*function Local.18:*function 1:Int
(*pf)(1)\tCall1:Int Decay:*function Deref:function Read:*function Local.18:*function 1:Int
(*(*f))(1)\tCall1:Int Decay:*function Deref:function Decay:*function Deref:function Decay:*function Function.1:function 1:Int
i(1)\ttype 1 @2
p(1)\ttype 1 @2
x(1)\ttype 1 @2
f(q)\ttype 2 @3
q(1)\ttype 2 @1
f(f(1))\tCall1:Int Decay:*function Function.1:function Call1:Int Decay:*function Function.1:function 1:Int
fp()[1]\tRead:Int Deref@0:Int Sum+:*Int Call0:*Int Decay:*function Function.1:function 1:Int
*fp()\tRead:Int Deref@0:Int Call0:*Int Decay:*function Function.1:function
f(g())\ttype 4 @4
h(pc, a, f, \"x\")\tCall4:Int Decay:*function Function.1:function Read:*Char Local.10:*Char Decay:*Int Local.16:[3]Int Decay:*function Function.2:function Decay:*Char Static.0:[2]Char
i(q)\ttype 1 @2
f(q, q)\ttype 6 @2
h(pc, q, x)\ttype 2 @7
i, p\tComma:*Int Read:Int Local.0:Int Read:*Int Local.9:*Int
x, i\tComma:Int Local.12:s Read:Int Local.0:Int
i, x\tComma:s Read:Int Local.0:Int Local.12:s
q, r\ttype 2 @1
g(), g()\tComma:Void Call0:Void Decay:*function Function.1:function Call0:Void Decay:*function Function.1:function
a, a\tComma:*Int Decay:*Int Local.16:[3]Int Decay:*Int Local.16:[3]Int
((*p) + (p[*p])) + ps->n->a\tAdd:Int Add:Int Read:Int Deref@0:Int Read:*Int Local.9:*Int Read:Int Deref@1:Int Sum+:*Int Read:*Int Local.9:*Int Read:Int Deref@2:Int Read:*Int Local.9:*Int Read:Int Member.0:Int Deref@4:s Read:*s Member.4:*s Deref@3:s Read:*s Local.13:*s
p[p[1]]\tRead:Int Deref@0:Int Sum+:*Int Read:*Int Local.9:*Int Read:Int Deref@1:Int Sum+:*Int Read:*Int Local.9:*Int 1:Int
*(ps->v + (*p))\tRead:Int Deref@0:Int Sum+:*Int Decay:*Int Member.2:[3]Int Deref@1:s Read:*s Local.13:*s Read:Int Deref@2:Int Read:*Int Local.9:*Int
(*(*pf))(*p)\tCall1:Int Decay:*function Deref:function Decay:*function Deref:function Read:*function Local.18:*function Read:Int Deref@0:Int Read:*Int Local.9:*Int
&(*pp[1])\tAddressOf:*Int Deref:Int Read:*Int Deref@0:*Int Sum+:**Int Read:**Int Local.23:**Int 1:Int
&(p[*p])\tAddressOf:*Int Deref:Int Sum+:*Int Read:*Int Local.9:*Int Read:Int Deref@0:Int Read:*Int Local.9:*Int
*(pp[sizeof (*p)])\tRead:Int Deref@0:Int Read:*Int Deref@1:*Int Sum+:**Int Read:**Int Local.23:**Int 4:UInt
(*p) ? p[1] : (*pc)\tChoose:Int Read:Int Deref@0:Int Read:*Int Local.9:*Int Read:Int Deref@1:Int Sum+:*Int Read:*Int Local.9:*Int 1:Int Convert:Int Read:Char Deref@2:Char Read:*Char Local.10:*Char
*ps->n->n\tDeref@0:s Read:*s Member.4:*s Deref@2:s Read:*s Member.4:*s Deref@1:s Read:*s Local.13:*s
(f(*p)) + (*(&p[1]))\tAdd:Int Call1:Int Decay:*function Function.1:function Read:Int Deref@0:Int Read:*Int Local.9:*Int Read:Int Deref@1:Int AddressOf:*Int Deref:Int Sum+:*Int Read:*Int Local.9:*Int 1:Int
h(pc, 1, 1, 1, 1, 1, 1, 1, 1, 1, 1, 1, 1, 1, 1, 1, 1, 1, 1, 1, 1, 1, 1, 1, 1, 1, 1, 1, 1, 1, 1, 1, 1, 1, 1, 1, 1, 1, 1, 1, 1, 1, 1, 1, 1, 1, 1, 1, 1, 1, 1, 1, 1, 1, 1, 1, 1, 1, 1, 1, 1, 1, 1, 1, 1, 1, 1, 1, 1, 1, 1, 1, 1, 1, 1, 1, 1, 1, 1, 1, 1, 1, 1, 1, 1, 1, 1, 1, 1, 1, 1, 1, 1, 1, 1, 1, 1, 1, 1, 1, 1, 1, 1, 1, 1, 1, 1, 1, 1, 1, 1, 1, 1, 1, 1, 1, 1, 1, 1, 1, 1, 1, 1, 1, 1, 1, 1, 1)\tlimit 11 @385";
