// Images of codes, of literals and of numbers that are none.
use super::tools::card;
use std::test::Fail;

// Under each card, the image of each code.
#[test]
fn codes(rt: HostRuntime) -> Result<(), Fail> {
    let rows: &[(&[(u16, u16)], &[(u16, u16)])] = &[
        // 1 to not 2, 2 to 3, 3 to not 1, 512 to not 512
        (
            &[(1, 5), (2, 6), (3, 3), (512, 1025)],
            &[
                (2, 5),
                (3, 4),
                (4, 6),
                (5, 7),
                (6, 3),
                (7, 2),
                // variables that no pair names
                (8, 8),
                (9, 9),
                (1023, 1023),
                (1024, 1025),
                (1025, 1024),
                // no literals
                (0, 0),
                (1, 1),
                (1026, 1026),
                (1027, 1027),
                (65534, 65534),
                (65535, 65535),
            ],
        ),
        // the first variable and the last, exchanged
        (
            &[(1, 1024), (512, 2)],
            &[
                (0, 0),
                (1, 1),
                (2, 1024),
                (3, 1025),
                (4, 4),
                (1024, 2),
                (1025, 3),
                (1026, 1026),
            ],
        ),
    ];
    for (pairs, images) in rows {
        let card = card(*pairs)?;
        for (code, image) in *images {
            assert_eq!(rt; card.image(*code), *image);
        }
    }
    Ok(())
}
