// A shelf in lent cells: the lines one behind the other, and an index of where each begins.
ghost use Rattle.std.specs.Prelude.{◌≡◌, ℕ, ◌<◌, ◌≤◌, length, take, slice_index};
ghost use Rattle.std.specs.List.{AllByRecursion, AllByRecursion-prop};
ghost use Rattle.shelf.specs.Proper.{Proper, proper_prop};
ghost use Rattle.cells.specs.Layout.{flat, parse, start};

mod keeping;
mod looking;
mod memory;
mod shelving;

// A line is its length and then its codes. The lines fill the cells that are used; what lies past them is no matter.
// The index is an array with room for every line there may be, since nothing is allocated: the first `count` places are in use.
// It has no Model: the law `sound` of a shelf is asked of every Value, and a Value of clauses does not bear the invariant with it.
#[derive(Drop)]
pub struct CellShelf<'a> {
    cells: &'a mut [u16],
    used: usize,
    count: usize,
    starts: [usize; 8192],
    ghost within: { used ≤ length cells.now },
    ghost few: { count ≤ 8192 },
    ghost long: { length starts ≡ 8192 },
    ghost laid: { flat (parse count cells.now) ≡ take used cells.now },
    ghost counted: { length (parse count cells.now) ≡ count },
    ghost indexed: { (p : ℕ) → p < count → slice_index starts p ≡ start (parse count cells.now) p },
    ghost proper: { AllByRecursion Proper (parse count cells.now) } by { AllByRecursion-prop Proper proper_prop (parse count cells.now) },
}
