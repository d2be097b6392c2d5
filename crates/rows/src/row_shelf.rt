// A shelf of rows in lent words.
ghost use Rattle.std.specs.Prelude.{◌/◌, ◌≤◌, length, take};
ghost use Rattle.std.specs.List.{AllByRecursion, AllByRecursion-prop};
ghost use Rattle.rows.specs.Rows.{NoTautology, no_tautology_prop, rows_in};

mod keeping;
mod lending;
mod reading;
mod writing;

// A row is sixteen words, and row p holds the clause of line p; words past the clauses kept hold anything.
// It has no Model: the law `sound` of a shelf is asked of every Value, and a Value of clauses does not bear the invariant with it.
#[derive(Drop)]
pub struct RowShelf<'a> {
    words: &'a mut [u64],
    count: usize,
    ghost few: { count ≤ 8192 },
    ghost within: { count ≤ length words.now / 16 },
    ghost proper: { AllByRecursion NoTautology (take count (rows_in words.now)) } by { AllByRecursion-prop NoTautology no_tautology_prop (take count (rows_in words.now)) },
}
