// Each of the five rules broken, and which of two rules decides.
use super::tools::all_refuse;
use std::test::Fail;

// 11: a word that may not follow.
#[test]
fn spelling(rt: HostRuntime) -> Result<(), Fail> {
    let rows: &[(&str, usize, usize)] = &[
        // a letter among the clauses, in a clause and in a block
        ("p cnf 2 2 e 1 2 0 1 0 e", 11, 22),
        ("p cnf 2 2 e 1 2 0 1 a", 11, 20),
        ("p cnf 2 1 e 1 a", 11, 14),
        // a negative number in a block
        ("p cnf 2 1 e 1 -2 0", 11, 14),
        // words that are neither letters nor numbers
        ("p cnf 1 1 x", 11, 10),
        ("p cnf 1 1 e x", 11, 12),
        ("p cnf 1 1 e 1 0 p", 11, 16),
        ("p cnf 1 1 e 1 0 cnf", 11, 16),
        ("p cnf 1 0 e 1 0 x", 11, 16),
        ("p cnf 1 1 e 1 0 1x", 11, 16),
        ("p cnf 1 1 e 1 0 -", 11, 16),
        ("p cnf 1 1 e 1 0 --1", 11, 16),
        ("p cnf 1 1 e 1 0 +1", 11, 16),
        ("p cnf 1 1 e 1 0 -0", 11, 16),
        // leading zeros, and six digits
        ("p cnf 1 1 e 01", 11, 12),
        ("p cnf 1 1 e 1 0 01", 11, 16),
        ("p cnf 1 1 e 1 0 -01", 11, 16),
        ("p cnf 1 1 e 1 0 00", 11, 16),
        ("p cnf 1 1 e 1 0 100000", 11, 16),
        ("p cnf 1 1 e 1 0 -100000", 11, 16),
    ];
    all_refuse(&rt, rt.alloc(), 64, 16, rows)
}

// 12: the first words are not p, cnf and two numbers.
#[test]
fn header(rt: HostRuntime) -> Result<(), Fail> {
    let rows: &[(&str, usize, usize)] = &[
        ("", 12, 0),
        (" \n", 12, 2),
        ("q", 12, 0),
        ("1 1", 12, 0),
        ("e 1 0", 12, 0),
        ("pcnf 1 1", 12, 0),
        ("p", 12, 1),
        ("p dnf 1 1", 12, 2),
        ("p cnf", 12, 5),
        ("p cnf\n", 12, 6),
        ("p cnf x 1", 12, 6),
        ("p cnf 01 1", 12, 6),
        ("p cnf 1", 12, 7),
        ("p cnf 1 -0", 12, 8),
        ("p cnf 1 100000", 12, 8),
        ("p cnf 1 e", 12, 8),
    ];
    all_refuse(&rt, rt.alloc(), 64, 16, rows)
}

// 13: a number of variables, clauses or literals beyond its limits; here there are 16 end cells.
#[test]
fn size(rt: HostRuntime) -> Result<(), Fail> {
    let rows: &[(&str, usize, usize)] = &[
        ("p cnf 0 1", 13, 6),
        ("p cnf 513 1", 13, 6),
        ("p cnf 99999 1", 13, 6),
        ("p cnf -1 1", 13, 6),
        ("p cnf 1 2049", 13, 8),
        ("p cnf 1 17", 13, 8),
        ("p cnf 1 -1", 13, 8),
    ];
    all_refuse(&rt, rt.alloc(), 64, 16, rows)
}

// 14: an empty block, a quantifier repeated, a variable bound twice, out of range or unbound.
#[test]
fn binding(rt: HostRuntime) -> Result<(), Fail> {
    let rows: &[(&str, usize, usize)] = &[
        ("p cnf 1 1 e 0", 14, 12),
        ("p cnf 2 1 e 1 0 a 0", 14, 18),
        ("p cnf 2 1 e 1 0 e 2 0", 14, 16),
        ("p cnf 2 1 a 1 0 a 2 0", 14, 16),
        // bound twice, in one block and across blocks
        ("p cnf 2 1 e 1 1 0", 14, 14),
        ("p cnf 2 1 e 1 0 a 2 1 0", 14, 20),
        // above n, in a block and in a clause
        ("p cnf 1 1 e 2 0", 14, 12),
        ("p cnf 1 1 e 1 0 2 0", 14, 16),
        ("p cnf 1 1 e 1 0 1 -2 0", 14, 18),
        // unbound, at the first word behind the blocks and at the end
        ("p cnf 2 1 e 1 0 1 0", 14, 16),
        ("p cnf 2 1 e 1 0 0", 14, 16),
        ("p cnf 1 1 1 0", 14, 10),
        ("p cnf 2 1 e 1 0", 14, 15),
        ("p cnf 1 0\n", 14, 10),
        ("p cnf 2 0 e 2 0", 14, 15),
    ];
    all_refuse(&rt, rt.alloc(), 64, 16, rows)
}

// 15: the text ends too early, or goes on behind its last clause.
#[test]
fn tally(rt: HostRuntime) -> Result<(), Fail> {
    let rows: &[(&str, usize, usize)] = &[
        // in a block, in a clause, before clause m
        ("p cnf 1 1 e", 15, 11),
        ("p cnf 1 1 e 1", 15, 13),
        ("p cnf 1 1 e 1 0 1", 15, 17),
        ("p cnf 1 1 e 1 0 -1\n", 15, 19),
        ("p cnf 1 1 e 1 0", 15, 15),
        ("p cnf 1 2 e 1 0 1 0", 15, 19),
        // a number behind clause m, whatever its value
        ("p cnf 1 1 e 1 0 1 0 1", 15, 20),
        ("p cnf 1 1 e 1 0 1 0 0", 15, 20),
        ("p cnf 1 1 e 1 0 1 0 -1", 15, 20),
        ("p cnf 1 1 e 1 0 1 0 99999", 15, 20),
        ("p cnf 1 0 e 1 0 0", 15, 16),
    ];
    all_refuse(&rt, rt.alloc(), 64, 16, rows)
}

// On one word the lower number decides, and of two words the first; here there is one literal cell and one end cell.
#[test]
fn first_of_two(rt: HostRuntime) -> Result<(), Fail> {
    let rows: &[(&str, usize, usize)] = &[
        // no such word, and a variable unbound or no number wanted
        ("p cnf 1 1 x", 11, 10),
        ("p cnf 1 1 e -2", 11, 12),
        ("p cnf 1 0 e 1 0 x", 11, 16),
        // a word that is no number where the number is limited
        ("p cnf x 99999", 12, 6),
        // no cell for a literal that is above n
        ("p cnf 1 1 e 1 0 1 2 0", 13, 18),
        // a variable unbound, and a clause missing or a number too many
        ("p cnf 1 1", 14, 9),
        ("p cnf 1 0 1", 14, 10),
        // a number too many has no cell and no variable
        ("p cnf 1 1 e 1 0 1 0 2", 15, 20),
        // the first fault from the left
        ("p cnf 1 1 e 1 0 2 x", 14, 16),
        ("p cnf 1 1 e 1 0 x 2", 11, 16),
    ];
    all_refuse(&rt, rt.alloc(), 1, 1, rows)
}
