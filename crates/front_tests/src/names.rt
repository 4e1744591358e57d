use std::test::Fail;
use sv_base::{FileId, Names};

#[test]
fn numbers_names_in_the_order_of_their_first_uses(rt: HostRuntime) -> Result<(), Fail> {
    let mut names = Names::new(rt.alloc());
    for (text, number) in [
        ("ring.c", 0),
        ("ring.h", 1),
        ("ring.c", 0),
        ("", 2),
        ("", 2),
    ] {
        let id = names.number_of(rt.alloc(), text.as_bytes())?;
        assert_eq!(rt; id, FileId(number));
        assert_eq!(rt; names.text(id), text.as_bytes());
    }
    Ok(())
}
