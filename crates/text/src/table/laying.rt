// A table is laid over any cells; those that do not fit its outline hold no clause.
ghost use Rattle.std.specs.Prelude.{◌≡◌, ◌≤◌, true, length, take};
ghost use Rattle.text.specs.Cells.{lies, fits, cuts, clauses_in, meant};
ghost use Rattle.text.specs.Tables.{formula_in};

use super::super::outline::Outline;
use super::super::prefix::Prefix;
use super::Table;

impl<'a> Table<'a> {
    // The formula of an outline whose clauses lie in these cells.
    pub fn over(outline: Outline, literals: &'a [u16], ends: &'a [u16]) -> Table<'a>
        ensures { formula_in result ≡ meant outline literals.now ends.now }
    {
        let count = fitting(&outline, literals, ends);
        Table {
            prefix: outline.prefix,
            count,
            literals,
            ends,
        }
    }
}

// How many clauses lie in the cells: so many as asked for if these fit, else none.
#[tactic(auto, using(crate::proofs::Spans::listed))]
fn fitting(outline: &Outline, literals: &[u16], ends: &[u16]) -> usize
    ensures asked { result ≤ outline.now.clauses }
    ensures held { result ≤ length ends.now }
    ensures listed { length (cuts literals.now 0 (take result ends.now)) ≡ result }
    ensures fit { fits outline.now.prefix.n literals.now 0 (take result ends.now) ≡ true }
    ensures clauses { cuts literals.now 0 (take result ends.now) ≡ clauses_in outline.now.prefix.n outline.now.clauses literals.now ends.now }
{
    match ends.get(..outline.clauses) {
        Some(used) if all_lie(&outline.prefix, literals, used) => outline.clauses,
        _ => 0,
    }
}

// Whether the clauses between running ends lie in the cells, one after the other.
fn all_lie(prefix: &Prefix, literals: &[u16], ends: &[u16]) -> bool
    ensures { result ≡ fits prefix.now.n literals.now 0 ends.now }
{
    ends.iter()
        .try_fold(0, |from, end| {
            let end = usize::from(*end);
            clause_lies(prefix, literals, from, end).then_some(end)
        })
        .is_some()
}

// Whether a clause over the variables lies from one end to the next.
fn clause_lies(prefix: &Prefix, literals: &[u16], from: usize, end: usize) -> bool
    ensures { result ≡ lies prefix.now.n literals.now from end }
{
    from <= end && end <= literals.len() && end - from <= 1024 && prefix.spans(&literals[from..end])
}
