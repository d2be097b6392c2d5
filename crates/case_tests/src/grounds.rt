// The formulas and the shelves that the tables are held to.
use super::tables::hold;
use cards::Card;
use case::{Call, Reply};
use cells::CellShelf;
use formula::Formula;
use images::Image;
use rows::RowShelf;
use std::alloc::Global;
use std::process::Abort;
use std::test::Fail;
use text::{Outline, Table};

// some 1, all 2: (1 or 2) and (not 1 or not 2)
pub const PAIR: &str = "p cnf 2 2\ne 1 0\na 2 0\n1 2 0\n-1 -2 0\n";

// each variable, and the code of its negation
const NEGATED: &[(u16, u16)] = &[(1, 3), (2, 5), (3, 7)];

// so many cells, and so many words, that nothing is ever full
pub const ROOMY: (usize, usize) = (1000, 1600);

// The card of some pairs, a variable and the code of its image.
pub(crate) fn card(pairs: &[(u16, u16)]) -> Result<Card, Fail> {
    Card::from_pairs(pairs).map_err(|_| Fail::new("no card"))
}

// A text read into cells.
pub(crate) fn read(text: &str, literals: &mut [u16], ends: &mut [u16]) -> Result<Outline, Fail> {
    text::read(text.as_bytes(), literals, ends).map_err(|_| Fail::new("refused"))
}

// The rows hold for the formula of a text, as a table and as an image, on a cell shelf and on a row shelf, of so many cells and words.
pub(crate) fn all_hold(
    rt: &impl Abort,
    heap: Global,
    text: &str,
    room: (usize, usize),
    rows: &[(Call, Reply)],
    clauses: &[&[i32]],
) -> Result<(), Fail> {
    let mut literals = [0u16; 16];
    let mut ends = [0u16; 4];
    let outline = read(text, &mut literals, &mut ends)?;
    on_shelves(
        rt,
        heap,
        ("a table on cells", "a table on rows"),
        &Table::over(outline, &literals, &ends),
        room,
        rows,
        clauses,
    )?;
    // each literal is negated here, and again by the card
    for code in literals.iter_mut() {
        *code ^= 1;
    }
    let negated = Table::over(outline, &literals, &ends);
    on_image(rt, heap, &negated, room, rows, clauses)
}

// The rows hold for the formula's image under the card that negates each of its variables.
fn on_image<F: Formula>(
    rt: &impl Abort,
    heap: Global,
    formula: &F,
    room: (usize, usize),
    rows: &[(Call, Reply)],
    clauses: &[&[i32]],
) -> Result<(), Fail> {
    let pairs = NEGATED.get(0..formula.variable_count()).ok_or("many")?;
    let image = Image::new(formula, card(pairs)?).map_err(|_| Fail::new("no image"))?;
    on_shelves(
        rt,
        heap,
        ("an image on cells", "an image on rows"),
        &image,
        room,
        rows,
        clauses,
    )
}

// The rows hold on both shelves.
fn on_shelves<F: Formula>(
    rt: &impl Abort,
    heap: Global,
    grounds: (&str, &str),
    formula: &F,
    room: (usize, usize),
    rows: &[(Call, Reply)],
    clauses: &[&[i32]],
) -> Result<(), Fail> {
    let mut cells = vec![in heap; 7u16; room.0]?;
    let mut shelf = CellShelf::over(&mut cells);
    hold(rt, heap, grounds.0, formula, &mut shelf, rows, clauses)?;
    let mut words = vec![in heap; 7u64; room.1]?;
    let mut shelf = RowShelf::over(&mut words);
    hold(rt, heap, grounds.1, formula, &mut shelf, rows, clauses)
}
