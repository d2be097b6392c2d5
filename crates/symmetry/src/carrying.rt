// Whether a card takes the clauses of a formula to its clauses.
ghost use Rattle.std.specs.Prelude.{◌≡◌, true, ◌↔◌, map};
ghost use Rattle.calculus.specs.Meaning.{clause_of, literal_of};
ghost use Rattle.laws.specs.Cards.{act, Among, Carries};
ghost use Rattle.laws.specs.Claims.{sorted};
ghost use Rattle.cards.specs.Meant.{meant};
ghost use Rattle.sets.specs.Members.{members};

use crate::lookup::has_clause;
use cards::Card;
use formula::Formula;
use sets::LiteralSet;

// Whether the image of every clause is among the clauses.
pub fn carries<F: Formula>(f: &F, card: &Card) -> bool
    ensures { (result ≡ true) ↔ Carries (F.meaning f.now) (meant card.now) }
{
    (0..f.clause_count()).all(|j| is_carried(f, card, j))
}

// Whether the image of clause j is among the clauses.
fn is_carried<F: Formula>(f: &F, card: &Card, j: usize) -> bool
    ensures { (result ≡ true) ↔ Among (F.meaning f.now) (map (act (meant card.now)) (clause_of (F.meaning f.now) j)) }
{
    has_clause(f, &image_set(f, card, j))
}

// The set of the images of the literals of clause j, which is looked up for the image of the clause.
fn image_set<F: Formula>(f: &F, card: &Card, j: usize) -> LiteralSet
    ensures literals { members result.words ≡ sorted (map (act (meant card.now)) (clause_of (F.meaning f.now) j)) }
    ensures among { Among (F.meaning f.now) (members result.words) ↔ Among (F.meaning f.now) (map (act (meant card.now)) (clause_of (F.meaning f.now) j)) }
{
    let mut set = LiteralSet::new();
    for i in 0..f.clause_len(j) {
        set.insert(image_at(f, card, j, i));
    }
    set
}

// The image of the literal at place i of clause j.
fn image_at<F: Formula>(f: &F, card: &Card, j: usize, i: usize) -> u16
    ensures { result ≡ act (meant card.now) (literal_of (F.meaning f.now) j i) }
{
    card.image(f.literal(j, i))
}
