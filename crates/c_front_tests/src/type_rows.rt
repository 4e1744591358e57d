//! Types with their sizes, and which of them are alike.

/// A file with an object for each type, which points to it.
pub const TYPES: &str = "\
int test(void) {
 static _Bool *Bool; static char *Char; static signed char *SChar; static unsigned char *UChar;
 static short *Short; static unsigned short *UShort; static int *Int; static unsigned *UInt;
 static long *Long; static unsigned long *ULong; static long long *LongLong; static unsigned long long *ULongLong;
 static void *Void; static int **PInt; static char **PChar; static volatile int *VInt;
 typedef int A[3]; typedef int B[2][3];
 static A *A3Int; static B *A2A3Int; static volatile int (*A3VInt)[3]; static volatile A *VA3Int; static volatile B *VA2A3Int;
 static int (*ALInt)[]; static A (*ALA3Int)[]; static int (*A4Int)[4]; static long (*A3Long)[3];
 {
  struct s { int a; }; struct n { struct s m; struct s k[3]; };
  static struct s *s1; static volatile struct s *V1; static struct s (*A3s1)[3]; static struct n *n1;
  { struct n { struct s m; int k[4]; }; static struct n *n4; }
 }
 {
  struct s { int a; }; struct n { struct s m; struct s k[3]; }; typedef struct s C[3];
  static struct s *s2; static C *A3s2; static struct s (*ALs2)[]; static struct n *n2;
  { struct s { int b; }; struct n { struct s m; C k; }; static struct s *s3; static struct s (*A3s3)[3]; static struct n *n3; }
 }
 { struct s; static struct s *s4; }
 { struct t; static struct t *s5; }
 { struct s { long a; }; static struct s *s6; }
 { struct t { int a; }; static struct t *s7; }
 { struct s { int a; int b; }; static struct s *s8; }
 { struct s { volatile int a; }; static struct s *s9; }
 { union s { int a; }; static union s *u1; }
 { struct p { int *a; }; static struct p *p1; }
 { struct p { char *a; }; static struct p *p2; }
 static int (*f1)(int); static int (*f2)(int); static int (*f3)(int, ...); static int (*f4)(long); static int (*f5)(int *);
 static int (*f6)(char *); static void (*f7)(void); static int (*f8)(void); static int *(*f9)(int);
 struct mix { char a; short b; char c; long long d; _Bool e; }; static struct mix *mix;
 struct mix2 { struct mix a; char b; }; static struct mix2 *mix2; static struct mix2 (*A5mix2)[5];
 union mix3 { struct mix a; int b[3]; char c; }; static union mix3 *mix3;
 struct tiny { char a; }; static struct tiny *tiny; static struct tiny (*A7tiny)[7];
 struct odd { struct tiny a[7]; short b; int c[3]; _Bool d; }; static struct odd *odd;
 union odd2 { struct tiny a[7]; short b; }; static union odd2 *odd2; static union odd2 (*A3odd2)[3];
 return 0;
}";

/// Each line has a type, its size and alignment in bytes or `-` for both, and the offsets of its members.
pub const SIZES: &str = "\
Bool 1 1
Char 1 1
SChar 1 1
UChar 1 1
Short 2 2
UShort 2 2
Int 4 4
UInt 4 4
Long 4 4
ULong 4 4
LongLong 8 8
ULongLong 8 8
Void - -
PInt 4 4
PChar 4 4
VInt 4 4
A3Int 12 4
A2A3Int 24 4
A3VInt 12 4
VA3Int 12 4
VA2A3Int 24 4
ALInt - -
ALA3Int - -
A4Int 16 4
A3Long 12 4
s1 4 4 0
V1 4 4 0
A3s1 12 4
n1 16 4 0 4
n4 20 4 0 4
s2 4 4 0
A3s2 12 4
ALs2 - -
n2 16 4 0 4
s3 4 4 0
A3s3 12 4
n3 16 4 0 4
s4 - -
s5 - -
s6 4 4 0
s7 4 4 0
s8 8 4 0 4
s9 4 4 0
u1 4 4 0
p1 4 4 0
p2 4 4 0
f1 - -
f2 - -
f3 - -
f4 - -
f5 - -
f6 - -
f7 - -
f8 - -
f9 - -
mix 24 8 0 2 4 8 16
mix2 32 8 0 24
A5mix2 160 8
mix3 24 8 0 0 0
tiny 1 1 0
A7tiny 7 1
odd 28 4 0 8 12 24
odd2 8 2 0 0
A3odd2 24 2
";

/// Each line has a type, and all others that are like it.
pub const ALIKE: &str = "\
Bool
Char
SChar
UChar
Short
UShort
Int VInt
UInt
Long
ULong
LongLong
ULongLong
Void
PInt PChar
PChar PInt
VInt Int
A3Int A3VInt VA3Int ALInt
A2A3Int VA2A3Int ALA3Int
A3VInt A3Int VA3Int ALInt
VA3Int A3Int A3VInt ALInt
VA2A3Int A2A3Int ALA3Int
ALInt A3Int A3VInt VA3Int A4Int
ALA3Int A2A3Int VA2A3Int
A4Int ALInt
A3Long
s1 V1 s2 s4 s9
V1 s1 s2 s4 s9
A3s1 A3s2 ALs2
n1 n2
n4
s2 s1 V1 s4 s9
A3s2 A3s1 ALs2
ALs2 A3s1 A3s2
n2 n1
s3 s4
A3s3
n3
s4 s1 V1 s2 s3 s6 s8 s9
s5 s7
s6 s4
s7 s5
s8 s4
s9 s1 V1 s2 s4
u1
p1 p2
p2 p1
f1 f2
f2 f1
f3
f4
f5 f6
f6 f5
f7
f8
f9
mix
mix2
A5mix2
mix3
tiny
A7tiny
odd
odd2
A3odd2
";
