// The words of what is refused.
use shelf::{NoClause, ShelfFault};
use std::test::Fail;

#[test]
fn words(rt: HostRuntime) -> Result<(), Fail> {
    assert_eq!(rt;
        ShelfFault::Absent.to_string(rt.alloc())?.as_str(),
        "absent"
    );
    assert_eq!(rt; ShelfFault::Full.to_string(rt.alloc())?.as_str(), "full");
    assert_eq!(rt; NoClause.to_string(rt.alloc())?.as_str(), "no clause");
    Ok(())
}
