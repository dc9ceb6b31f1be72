// Worked examples, as one theorem.

#![tactic(auto)]

ghost use Rattle.std.specs.Prelude.{◌≡◌};
ghost use Rattle.worked.specs.Worked.{verdicts, WorkedExamples};

use refusal::Refusal;

// How the checks of a header end, for some numbers of agents over some numbers of cells, where all that stands before the
// number of cells is good. Fields and no table: the theorem has a sentence of its own for each name.
pub struct CellCounts {
    pub three_over_five: Result<(), Refusal>,
    pub three_over_twenty_five: Result<(), Refusal>,
    pub three_over_four: Result<(), Refusal>,
    pub three_over_nine: Result<(), Refusal>,
    pub five_over_twenty_five: Result<(), Refusal>,
    // With any good number of agents.
    pub over_one: Result<(), Refusal>,
    pub over_sixty_five: Result<(), Refusal>,
}

// The verdicts on some numbers of cells. The contract tells all worked examples.
pub fn worked_cell_counts() -> CellCounts
    ensures value { result ≡ verdicts }
    ensures examples { WorkedExamples }
{
    CellCounts {
        three_over_five: Ok(()),
        three_over_twenty_five: Ok(()),
        three_over_four: Err(Refusal::CommonFactor { factor: 2 }),
        three_over_nine: Err(Refusal::CommonFactor { factor: 3 }),
        five_over_twenty_five: Err(Refusal::CommonFactor { factor: 5 }),
        over_one: Err(Refusal::FileCells),
        over_sixty_five: Err(Refusal::FileCells),
    }
}
