// What a shelf keeps, held to the clauses that it should.
use shelf::Shelf;
use std::process::Abort;
use std::test::Fail;

// The shelf keeps these clauses, in this order, and no more.
pub(crate) fn keeps<S: Shelf>(
    rt: &impl Abort,
    ground: &str,
    shelf: &S,
    clauses: &[&[i32]],
) -> Result<(), Fail> {
    assert_eq!(rt; shelf.count(), clauses.len(), "{}", ground);
    for (line, literals) in clauses.iter().enumerate() {
        keeps_line(rt, ground, shelf, line, *literals)?;
    }
    assert!(rt;
        shelf.look(clauses.len(), &mut [0; 512]).is_err(),
        "{}",
        ground
    );
    Ok(())
}

// The line keeps these literals, in this order.
fn keeps_line<S: Shelf>(
    rt: &impl Abort,
    ground: &str,
    shelf: &S,
    line: usize,
    literals: &[i32],
) -> Result<(), Fail> {
    let mut place = [0u16; 512];
    match shelf.look(line, &mut place) {
        Ok(len) => assert_eq!(rt; len, literals.len(), "{}, line {}", ground, line),
        Err(_) => return Err(Fail::new("no such line")),
    }
    for (code, literal) in place.iter().zip(literals) {
        let v = (*code / 2) as i32;
        assert_eq!(rt;
            if *code % 2 == 0 { v } else { -v },
            *literal,
            "{}, line {}",
            ground,
            line
        );
    }
    Ok(())
}
