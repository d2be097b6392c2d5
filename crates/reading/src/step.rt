// One word more of a text: the rule that it breaks, or the state with it.
ghost use Rattle.std.specs.Prelude.{◌≡◌, ℕ, Bool, ◌<◌, ◌≤◌, false, List, length, if◌then◌else◌, Some, None, ◌≢◌, ◌⊎◌};
ghost use Rattle.grammar.specs.Draft.{Draft};
ghost use Rattle.grammar.specs.Fault.{fault};
ghost use Rattle.grammar.specs.Lawful.{Lawful};
ghost use Rattle.grammar.specs.Next.{Next, sort, size};
ghost use Rattle.formula.specs.Quantifiers.{quantifier_number};
ghost use Rattle.reading.specs.Bindings.{levels_of};
ghost use Rattle.reading.specs.Stands.{Fresh, Stands, Stepped, Steps, StepsIn, sizes, gap, early, full, ended};
ghost use Rattle.reading.specs.declared.state.Stage.TheVariants.{Start, Problem, Format, Sized, Block, Matrix};

use super::binding::{Binding, number};
use super::state::{Stage, State};
use formula::Quantifier;
use grammar::Rule;
use words::Token;

impl State {
    // No word has come.
    pub fn new() -> State
        ensures { Fresh result }
    {
        State {
            stage: Stage::Start,
            n: 0,
            m: 0,
            bindings: [Binding::default(); 513],
            latest: Binding::default(),
            clauses: 0,
            literals: 0,
            tail: 0,
        }
    }

    // A word of the header that is no number: p, which comes first, or cnf behind it.
    fn take_header_word(&mut self, t: Token) -> Result<(), Rule>
        requires { (self.old.stage ≡ Start) ⊎ (self.old.stage ≡ Problem) }
        ensures { Steps self.old (Some t) result self.new }
    {
        self.stage = match (self.stage, t) {
            (Stage::Start, Token::Problem) => Stage::Problem,
            (Stage::Problem, Token::Cnf) => Stage::Format,
            _ => return Err(Rule::Header),
        };
        Ok(())
    }

    // The number of variables.
    fn take_variable_count(&mut self, t: Token) -> Result<(), Rule>
        requires { self.old.stage ≡ Format }
        ensures { Steps self.old (Some t) result self.new }
    {
        match t {
            Token::Number(n @ 1..=512) => {
                self.n = n as usize;
                self.stage = Stage::Sized;
                Ok(())
            }
            Token::Number(_) | Token::Negative(1..) => Err(Rule::Size),
            _ => Err(Rule::Header),
        }
    }

    // The number of clauses.
    fn take_clause_count(&mut self, t: Token, room: usize) -> Result<(), Rule>
        requires { self.old.stage ≡ Sized }
        ensures { (d : Draft) (ls es : List ℕ) → length es ≡ room → Lawful (sizes ls es) d → Stands d self.old ls es → Stepped (sizes ls es) d (Some t) result self.new ls es }
    {
        match t {
            Token::Number(m @ 0..=2048) if m as usize <= room => {
                self.m = m as usize;
                self.stage = Stage::Matrix;
                Ok(())
            }
            Token::Number(_) | Token::Negative(1..) => Err(Rule::Size),
            _ => Err(Rule::Header),
        }
    }

    // A word in a block that has no variable yet, or has some: 0, which ends the block, or a variable.
    fn take_in_block(&mut self, vacant: bool, t: Token) -> Result<(), Rule>
        requires { self.old.stage ≡ Block vacant }
        ensures { Steps self.old (Some t) result self.new }
    {
        match t {
            Token::Number(0) if vacant => Err(Rule::Binding),
            Token::Number(0) => {
                self.stage = Stage::Matrix;
                Ok(())
            }
            Token::Number(v) => self.bind(v as usize),
            _ => Err(Rule::Spelling),
        }
    }

    // The variable v in a block.
    fn bind(&mut self, v: usize) -> Result<(), Rule>
        requires { (vacant : Bool) × (self.old.stage ≡ Block vacant) }
        ensures { (t : Next) → sort t ≡ 4 → size t ≡ v → (v ≢ 0) → Steps self.old t result self.new }
    {
        if v > self.n || self.bindings[v].level != 0 {
            return Err(Rule::Binding);
        }
        self.bindings[v] = self.latest;
        self.stage = Stage::Block { vacant: false };
        Ok(())
    }

    // A letter behind the blocks that have ended, for the quantifier q.
    fn open_block(&mut self, q: Quantifier) -> Result<(), Rule>
        requires { self.old.stage ≡ Matrix }
        ensures { (t : Next) → sort t ≡ 3 → size t ≡ quantifier_number (Some q) → Steps self.old t result self.new }
    {
        if self.clauses > 0 || self.tail > 0 {
            return Err(Rule::Spelling);
        }
        let quantifier = number(q);
        if quantifier == self.latest.quantifier {
            return Err(Rule::Binding);
        }
        self.latest = Binding {
            level: self.latest.level.saturating_add(1), // there are at most 512 blocks
            quantifier,
        };
        self.stage = Stage::Block { vacant: true };
        Ok(())
    }

    // Some variable is unbound.
    fn has_gap(&self) -> bool
        ensures { result ≡ gap (levels_of self.now.bindings) self.now.n }
    {
        self.bindings[1..=self.n].iter().any(|b| b.level == 0)
    }

    // No word of a clause has come, and some variable is unbound.
    fn is_early(&self) -> bool
        ensures { (d : Draft) (ls es : List ℕ) → Stands d self.now ls es → result ≡ early d }
    {
        self.clauses == 0 && self.tail == 0 && self.has_gap()
    }

    // There is no place for a literal more, where so many cells are given.
    fn is_full(&self, cells: usize) -> bool
        ensures says { (d : Draft) (ls es : List ℕ) → length ls ≡ cells → Stands d self.now ls es → result ≡ full (sizes ls es) d }
        ensures room { result ≡ false → (self.now.tail < 1024) × (self.now.literals < 16384) × (self.now.literals < cells) }
    {
        self.tail >= 1024 || self.literals >= 16384 || self.literals >= cells
    }

    // A 0 behind the blocks: a clause ends.
    fn end_clause(&mut self, ends: &mut [u16]) -> Result<(), Rule>
        requires { self.old.stage ≡ Matrix }
        ensures { (t : Next) → sort t ≡ 4 → size t ≡ 0 → (ls : List ℕ) → StepsIn self.old ls ends.old t result self.new ls ends.new }
    {
        if self.is_early() {
            return Err(Rule::Binding);
        }
        if self.clauses >= self.m || self.clauses >= ends.len() {
            return Err(Rule::Tally);
        }
        ends[self.clauses] = self.literals as u16;
        self.clauses += 1;
        self.tail = 0;
        Ok(())
    }

    // A literal over v behind the blocks.
    fn take_literal(&mut self, v: usize, negated: bool, cells: &mut [u16]) -> Result<(), Rule>
        requires { self.old.stage ≡ Matrix }
        ensures { (t : Next) → sort t ≡ (if negated then 5 else 4) → size t ≡ v → (v ≢ 0) → (es : List ℕ) → StepsIn self.old cells.old es t result self.new cells.new es }
    {
        if self.clauses >= self.m {
            let early = self.is_early();
            return Err(if early { Rule::Binding } else { Rule::Tally });
        }
        if self.is_full(cells.len()) {
            return Err(Rule::Size);
        }
        if self.is_early() || v > self.n {
            return Err(Rule::Binding);
        }
        let code = 2 * v + usize::from(negated);
        cells[self.literals] = code as u16;
        self.literals += 1;
        self.tail += 1;
        Ok(())
    }

    // A word behind the blocks that have ended.
    fn take_in_matrix(&mut self, t: Token, cells: &mut [u16], ends: &mut [u16]) -> Result<(), Rule>
        requires { self.old.stage ≡ Matrix }
        ensures { StepsIn self.old cells.old ends.old (Some t) result self.new cells.new ends.new }
    {
        match t {
            Token::Exists => self.open_block(Quantifier::Exists),
            Token::Forall => self.open_block(Quantifier::Forall),
            Token::Number(0) => self.end_clause(ends),
            Token::Number(v) => self.take_literal(v as usize, false, cells),
            Token::Negative(v @ 1..) => self.take_literal(v as usize, true, cells),
            _ => Err(Rule::Spelling),
        }
    }

    // The next word.
    pub fn step(&mut self, t: Token, cells: &mut [u16], ends: &mut [u16]) -> Result<(), Rule>
        ensures { StepsIn self.old cells.old ends.old (Some t) result self.new cells.new ends.new }
    {
        match self.stage {
            Stage::Start | Stage::Problem => self.take_header_word(t),
            Stage::Format => self.take_variable_count(t),
            Stage::Sized => self.take_clause_count(t, ends.len()),
            Stage::Block { vacant } => self.take_in_block(vacant, t),
            Stage::Matrix => self.take_in_matrix(t, cells, ends),
        }
    }

    // The end of the text.
    pub fn finish(&self) -> Result<(), Rule>
        ensures { (d : Draft) (ls es : List ℕ) → Stands d self.now ls es → result ≡ ended (fault (sizes ls es) d None) }
    {
        match self.stage {
            Stage::Block { .. } => Err(Rule::Tally),
            Stage::Matrix if self.is_early() => Err(Rule::Binding),
            Stage::Matrix if self.clauses == self.m && self.tail == 0 => Ok(()),
            Stage::Matrix => Err(Rule::Tally),
            _ => Err(Rule::Header),
        }
    }
}
