use source_maker::make;
use std::test::Fail;

/// The source of number 1 with two functions.
const OF_1: &str = "\
static int b0[18];
int f0(int n){
 int i;
 for(i=0;i<18;i++) b0[i]=n+i;
 return b0[17];
}
static int b1[22];
int f1(int n){
 int i;
 for(i=0;i<22;i++) b1[i]=n+i;
 return b1[7];
}
int main(void){
 int r=0;
 r=f0(r&255);
 r=f1(r&255);
 return 0;
}
";

/// The sources of the numbers 0 and 3 with one function.
const OF_0: &str = "\
static int b0[22];
int f0(int n){
 int i;
 for(i=0;i<22;i++) b0[i]=n+i;
 return b0[9];
}
int main(void){
 int r=0;
 r=f0(r&255);
 return 0;
}
";

const OF_3: &str = "\
static int b0[9];
int f0(int n){
 int i;
 for(i=0;i<9;i++) b0[i]=n+i;
 return b0[9];
}
int main(void){
 int r=0;
 r=f0(r&255);
 return 0;
}
";

#[test]
fn makes_sources(rt: HostRuntime) -> Result<(), Fail> {
    assert_eq!(rt; make(rt.alloc(), 1, 2)?.as_slice(), OF_1.as_bytes());
    assert_eq!(rt; make(rt.alloc(), 0, 1)?.as_slice(), OF_0.as_bytes());
    assert_eq!(rt; make(rt.alloc(), 3, 1)?.as_slice(), OF_3.as_bytes());
    Ok(())
}
