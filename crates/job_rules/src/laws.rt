// Theorems about the rules, each the contract of a function of its own: without its proof the crate is not built.
ghost use Rattle.job_rules.specs.FirstRows.{FirstRowPassRestores};
ghost use Rattle.job_rules.specs.Laws.{ChangesAreTallies, CountsStayLow, FirstNoRefuses, Pinned, ReadsAll, RunEndings, StuckCounts, TalliesGrow, UnchangedMeans};

// A call is refused exactly by the first question that is answered no.
pub fn first_no_refuses()
    ensures { FirstNoRefuses }
{}

// A run's ending is whole, quiet or limit exactly as the lines stand after it.
pub fn run_endings()
    ensures { RunEndings }
{}

// A line's tally grows at each decoding by the places at which the line differs before and after, and by nothing else.
pub fn tallies_grow()
    ensures { TalliesGrow }
{}

// The places changed in a pass or run are the growth of the sum of all tallies.
pub fn changes_are_tallies()
    ensures { ChangesAreTallies }
{}

// The stuck lines that a pass answers are the number of such records.
pub fn stuck_counts()
    ensures { StuckCounts }
{}

// A line is unchanged when it was decoded before and no byte of it has been given a different value since.
pub fn unchanged_means()
    ensures { UnchangedMeans }
{}

// The thorough reader decodes every line of every pass.
pub fn reader_decodes_all()
    ensures { ReadsAll }
{}

// After every list of calls the numbers of the report fit four bytes.
pub fn counts_stay_low()
    ensures { CountsStayLow }
{}

// The first row pass restores rows that are in reach.
pub fn first_row_pass_restores()
    ensures { FirstRowPassRestores }
{}

// The promise over every list of calls is met by one list of answers and one end only.
pub fn promise_leaves_no_choice()
    ensures { Pinned }
{}
