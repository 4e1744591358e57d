use std::alloc::{AllocError, Global};
use std::test::Fail;
use survey::survey_alone;
use sv_outside::{MemorySink, MemorySources, SureSink, SureSources};

/// The file `t.c` with this text.
fn files(alloc: Global, text: &str) -> Result<Vec<(String, Vec<u8>)>, AllocError> {
    let mut files = Vec::new(alloc);
    let name = String::from_str(alloc, "t.c")?;
    files.push((name, Vec::from_slice(alloc, text.as_bytes())?))?;
    Ok(files)
}

/// The words between the spaces of a line.
fn words_of(alloc: Global, line: &str) -> Result<Vec<String>, AllocError> {
    let mut words = Vec::new(alloc);
    for word in line.split(' ') {
        words.push(String::from_str(alloc, word)?)?;
    }
    Ok(words)
}

const GREEN: &str = "int a[4]; int main(void){ a[3]=1; return 0; }";

const GREEN_REPORT: &str = "\
t.c:1:28 main green
sites 1 green 1 orange 0 red 0 unreachable 0
";

/// Command lines, each with the text of the file `t.c`, the report, what standard error gets, and the status.
const FILES: &str = "\
surveyor alone t.c`int a[4]; int main(void){ a[3]=1; return 0; }`t.c:1:28 main green
sites 1 green 1 orange 0 red 0 unreachable 0
``0@\
surveyor alone t.c`int a[4]; int main(void){ a[4]=1; return 0; }`t.c:1:28 main red
sites 1 green 0 orange 0 red 1 unreachable 0
``1@\
surveyor alone t.c`int a[10]; int main(void){ int i; for(i=0;i<10;i++) a[i]=0; a[i-1]=1; return 0; }`t.c:1:54 main green
t.c:1:62 main green
sites 2 green 2 orange 0 red 0 unreachable 0
``0@\
surveyor alone t.c`int a[10]; int main(void){ int i; for(i=0;i<=10;i++) a[i]=0; return 0; }`t.c:1:55 main orange
sites 1 green 0 orange 1 red 0 unreachable 0
``1@\
surveyor alone t.c`int a[4]; int main(void){ int i=0; while(i<4) a[i++]=i; return i; }`t.c:1:48 main green
sites 1 green 1 orange 0 red 0 unreachable 0
``0@\
surveyor alone t.c`int a[10]; void fill(int *p,int n){ int i=0; int k=0; while(i<n){ p[k]=0; i=i+1; k=k+1; } } int main(void){ fill(a,10); return 0; }`t.c:1:68 fill green
sites 1 green 1 orange 0 red 0 unreachable 0
``0@\
surveyor alone t.c`int a[10]; int b[20]; void fill(int *p,int n){ int i=0; int k=0; while(i<n){ p[k]=0; i=i+1; k=k+1; } } int main(void){ fill(a,10); fill(b,20); return 0; }`t.c:1:79 fill orange
sites 1 green 0 orange 1 red 0 unreachable 0
``1@\
surveyor alone t.c`int m[4][5]; int main(void){ m[1][7]=0; return 0; }`t.c:1:31 main green
t.c:1:34 main red
sites 2 green 1 orange 0 red 1 unreachable 0
``1@\
surveyor alone t.c`int a[4]; void g(void){ a[9]=1; } int main(void){ if(0) a[5]=1; return 0; }`t.c:1:26 g unreachable
t.c:1:58 main unreachable
sites 2 green 0 orange 0 red 0 unreachable 2
``0@\
surveyor alone t.c`struct {int a[4]; int b;} s; int main(void){ s.a[4]=1; return 0; }`t.c:1:49 main red
sites 1 green 0 orange 0 red 1 unreachable 0
``1@\
surveyor alone t.c```t.c:0:0: link 1 entry is not defined
`3@\
surveyor alone t.c`double x;``t.c:1:1: unsupported 1 floating type or constant
`3@\
surveyor alone t.c`int main(void){ return 0;``t.c:1:26: syntax 0 no rule
`3@\
surveyor alone t.c`int a[4]; int main(void){ unsigned i=0; a[i-1]=0; return 0; }`t.c:1:42 main red
sites 1 green 0 orange 0 red 1 unreachable 0
``1@\
surveyor alone t.c`int main(void){ int *p=0; *p=1; return 0; }`t.c:1:27 main orange
sites 1 green 0 orange 1 red 0 unreachable 0
``1@\
surveyor alone t.c`int get(void); int a[8]; int main(void){ a[get()&7]=1; return 0; }`t.c:1:43 main green
assumed get
sites 1 green 1 orange 0 red 0 unreachable 0
``0@\
surveyor alone t.c`char a[1073741824]; int main(void){ a[1073741823]=1; return 0; }`t.c:1:38 main green
sites 1 green 1 orange 0 red 0 unreachable 0
``0@\
surveyor alone t.c`char a[1073741825]; int main(void){ a[1073741823]=1; return 0; }``t.c:1:6: limit 8 object size in bytes
`3@\
surveyor alone t.c`int a[8]; int odd(int n); int even(int n){ if(n<=0) return 0; a[n]=1; return odd(n-1); } int odd(int n){ if(n<=0) return 1; a[n]=2; return even(n-1); } int main(void){ return even(7); }`t.c:1:64 even green
t.c:1:126 odd green
sites 2 green 2 orange 0 red 0 unreachable 0
``0@\
surveyor alone --rounds 1 t.c`int a[8]; int odd(int n); int even(int n){ if(n<=0) return 0; a[n]=1; return odd(n-1); } int odd(int n){ if(n<=0) return 1; a[n]=2; return even(n-1); } int main(void){ return even(7); }`t.c:1:64 even orange
t.c:1:126 odd orange
sites 2 green 0 orange 2 red 0 unreachable 0
``1@\
surveyor alone t.c`int a[2];
int b[3];
int main(void){
 b[2]=7;
 a[2]=1;
 b[0]=0;
 return 0;
}
`t.c:4:3 main green
t.c:5:3 main red
t.c:6:3 main unreachable
sites 3 green 1 orange 0 red 1 unreachable 1
``1@\
surveyor alone t.c`# 10 \"x.h\"
int a[2];
int b[3];
int main(void){
 b[2]=7;
 a[2]=1;
 b[0]=0;
 return 0;
}
`x.h:13:3 main green
x.h:14:3 main red
x.h:15:3 main unreachable
sites 3 green 1 orange 0 red 1 unreachable 1
``1@\
surveyor alone t.c`int a[0]; int main(void){ return 0; }``t.c:1:6: type 8 no constant
`3@\
surveyor alone t.c`int main(void){ return 0; }`sites 0 green 0 orange 0 red 0 unreachable 0
``0@\
surveyor alone t.c`int main(void){ return 0 0; }``t.c:1:26: syntax 0 no rule
`3@\
surveyor alone t.c`int main(void){ while(1)while(1)while(1)while(1)while(1)while(1)while(1)while(1)while(1)while(1)while(1)while(1)while(1); }``t.c:1:113: limit 5 nested loops
`3@\
surveyor alone t.c`int main(void){ return y; }``t.c:1:24: type 2 name is not declared
`3@\
surveyor alone t.c`union u { int i; char c[4]; } x; int a[4]; int main(void){ x.i=2; a[x.i]=1; return 0; }`t.c:1:68 main green
sites 1 green 1 orange 0 red 0 unreachable 0
``0@\
surveyor alone t.c`union u { int i; char c[4]; } x; int a[4]; int main(void){ x.c[0]=1; a[x.i]=1; return 0; }`t.c:1:63 main green
t.c:1:71 main orange
sites 2 green 1 orange 1 red 0 unreachable 0
``1@\
surveyor alone --entry main,tick t.c`int a[4]; unsigned i; void tick(void){ a[i]=1; i=(i+1u)%4u; } int main(void){ return 0; }`t.c:1:41 tick green
sites 1 green 1 orange 0 red 0 unreachable 0
``0@\
surveyor alone t.c`int a[4]; unsigned i; void tick(void){ a[i]=1; i=(i+1u)%4u; } int main(void){ return 0; }`t.c:1:41 tick unreachable
sites 1 green 0 orange 0 red 0 unreachable 1
``0@\
surveyor alone --entry main,none t.c`int a[4]; unsigned i; void tick(void){ a[i]=1; i=(i+1u)%4u; } int main(void){ return 0; }``t.c:0:0: link 1 entry is not defined
`3@\
surveyor alone t.c`void *memset(void *p,int c,unsigned n); int a[4]; int main(void){ memset(a,0,sizeof a); a[0]=1; return 0; }`t.c:1:90 main green
t.c:1:67 memset green
sites 2 green 2 orange 0 red 0 unreachable 0
``0@\
surveyor alone t.c`void *memset(void *p,int c,unsigned n); int a[4]; int main(void){ memset(a,0,sizeof a+1); a[0]=1; return 0; }`t.c:1:92 main green
t.c:1:67 memset orange
sites 2 green 1 orange 1 red 0 unreachable 0
``1@\
surveyor alone t.c`void *memcpy(void *d,const void *s,unsigned n); struct s { int i; }; struct s x; struct s y; int a[4]; int main(void){ x.i=3; memcpy(&y,&x,sizeof x); a[y.i]=1; return 0; }`t.c:1:152 main green
t.c:1:127 memcpy green
t.c:1:127 memcpy green
sites 3 green 3 orange 0 red 0 unreachable 0
``0@\
surveyor alone t.c`int a[4]; int main(void){ a[3]==1; return 0; }`t.c:1:28 main green
sites 1 green 1 orange 0 red 0 unreachable 0
``0@\
surveyor alone t.c`int a[4]; int a[5]; int main(void){ return 0; }``t.c:1:15: type 3 name is declared otherwise
`3";

/// Command lines over the file `GREEN` that are accepted.
const ACCEPTED: &str = "\
surveyor alone --entry main --rounds=24 t.c
surveyor alone --entry main,main t.c
surveyor alone -- t.c";

/// Command lines that are not accepted or ask for what is not built.
const OTHERS: &str = "\
surveyor
surveyor alone
surveyor alone -x t.c
surveyor alone --rounds 201 t.c
surveyor alone --db base t.c
surveyor alone --book book t.c
surveyor check t.c
surveyor trial 1 2
surveyor run t.c
surveyor audit --db base t.c";

const USAGE: &str = "usage: surveyor check|alone|trial\n";

/// Whether the call with these words over the file `t.c` answers and puts what is said.
fn is_answered(
    alloc: Global,
    line: &str,
    text: &str,
    report: &str,
    complaint: &str,
    status: u8,
) -> Result<bool, AllocError> {
    let words = words_of(alloc, line)?;
    let mut sources = SureSources::new(files(alloc, text)?);
    let mut out = SureSink::new(alloc);
    let mut err = SureSink::new(alloc);
    let answer = survey_alone(alloc, &words, &mut sources, &mut out, &mut err);
    let are_put = out.taken() == report.as_bytes() && err.taken() == complaint.as_bytes();
    Ok(answer == status && are_put)
}

fn is_row(alloc: Global, row: &str) -> Result<bool, AllocError> {
    let mut parts = row.split('`');
    let (Some(line), Some(text), Some(report), Some(complaint)) = (
        parts.next(),
        parts.next(),
        parts.next(),
        parts.next(),
    ) else {
        return Ok(false);
    };
    match number_of(parts.next()) {
        Some(status) => is_answered(alloc, line, text, report, complaint, status),
        None => Ok(false),
    }
}

fn number_of(word: Option<&str>) -> Option<u8> {
    word?.parse::<u8>().ok()
}

/// Whether the call answers and puts what is said where the loads with these numbers fail, and the first put after so
/// many bytes.
fn is_failure_told(
    alloc: Global,
    failing_loads: Vec<u64>,
    taken: usize,
    report: &str,
    complaint: &str,
    status: u8,
) -> Result<bool, AllocError> {
    let words = words_of(alloc, "surveyor alone t.c")?;
    let mut failing_puts = Vec::new(alloc);
    failing_puts.push((0, taken))?;
    let mut sources = MemorySources::new(files(alloc, GREEN)?, failing_loads);
    let mut out = MemorySink::new(alloc, failing_puts);
    let mut err = MemorySink::new(alloc, Vec::new(alloc));
    let answer = survey_alone(alloc, &words, &mut sources, &mut out, &mut err);
    let are_put = out.taken() == report.as_bytes() && err.taken() == complaint.as_bytes();
    Ok(answer == status && are_put)
}

#[test]
fn worked_programs(rt: HostRuntime) -> Result<(), Fail> {
    for row in FILES.split('@') {
        assert!(rt; is_row(rt.alloc(), row)?, "at {row}");
    }
    Ok(())
}

#[test]
fn words_of_what_is_built_and_others(rt: HostRuntime) -> Result<(), Fail> {
    for line in ACCEPTED.split('\n') {
        assert!(rt;
            is_answered(rt.alloc(), line, GREEN, GREEN_REPORT, "", 0)?,
            "with {line}"
        );
    }
    for line in OTHERS.split('\n') {
        assert!(rt;
            is_answered(rt.alloc(), line, GREEN, "", USAGE, 2)?,
            "with {line}"
        );
    }
    Ok(())
}

#[test]
fn failing_load_and_put(rt: HostRuntime) -> Result<(), Fail> {
    let alloc = rt.alloc();
    let mut loads = Vec::new(alloc);
    loads.push(0)?;
    let complaint = "surveyor: cannot read t.c\n";
    assert!(rt; is_failure_told(alloc, loads, 9, "", complaint, 4)?);
    let complaint = "surveyor: cannot write the report\n";
    assert!(rt; is_failure_told(alloc, Vec::new(alloc), 3, "t.c", complaint, 7)?);
    Ok(())
}
