// The claims, a function for each: its contract is the statement, and its body does nothing. So a claim without a proof fails the
// check, and a check prints a line for each.
#![tactic(auto)]

ghost use Rattle.theory.specs.Cases.{MarkedCases};
ghost use Rattle.claims.specs.Lists.{CallsAreTheMachine};
ghost use Rattle.claims.specs.Report.{ReportIsItsLines, MeanIsRounded, HeightsByThePage};
ghost use Rattle.claims.specs.Decided.{DecidedIsRight};
ghost use Rattle.claims.specs.Elsewhere.{TablesFromElsewhere};
ghost use Rattle.claims.specs.Records.{ReadsBack, WritesBack, RecordsAreWritten};
ghost use Rattle.claims.specs.Jobs.{JobNumbersOnTheirConditions, SoundnessIsKept, ShownIsRight, CarryOnIsTheMachine, CorrectionsAreBounded, WhatFitsIsFound};
ghost use Rattle.types.specs.declared.table.Table.{Table};
ghost use Rattle.claims.specs.Tables.{TablesAsWritten, WholeTablesAsWritten};
ghost use Rattle.table.specs.Table.{is_whole};
ghost use Rattle.std.specs.Prelude.{◌≡◌, true};
ghost use Rattle.claims.specs.Claims.{NumbersOnTheirConditions, CheckerIsExact, WitnessExcludes, CheckedWitnessExcludes};

use job::job::Job;
use records::record::Record;
use types::gate::Gate;
use types::table::Table;
use types::witness::Witness;

// Documents 01 and 02, §3: what the definitions over any function say of a table.
pub fn tables_as_written()
    ensures { (t : Table) → TablesAsWritten t }
{}

// Document 01: what they say of a table with every row cared for.
pub fn whole_tables_as_written()
    ensures { (t : Table) → is_whole t ≡ true → WholeTablesAsWritten t }
{}

// Demand 1: a call gives a number exactly on its condition, and the earlier one in its order wins.
pub fn numbers_on_their_conditions()
    ensures { NumbersOnTheirConditions }
{}

// Demand 2: the checker says yes to a gate exactly when it realises the table, and to a witness exactly when it balances.
pub fn checker_is_exact()
    ensures { CheckerIsExact }
{}

// Demand 2: a table with a balanced witness has no integer weights and threshold of any size.
pub fn witness_excludes()
    ensures { WitnessExcludes }
{}

// Demand 2: so after a yes to a witness there is no gate.
pub fn checked_witness_excludes()
    ensures { CheckedWitnessExcludes }
{}

// Demand 1: the calls on jobs give a number exactly on its condition, and the earlier one in their order wins.
pub fn job_numbers_on_their_conditions()
    ensures { JobNumbersOnTheirConditions }
{}

// Document 01, "The stepping machine", a sound job: the test is exact, and every job that the machine reaches is sound.
pub fn soundness_is_kept()
    ensures { SoundnessIsKept }
{}

// Demand 2: what a job shows is right, whoever made the job.
pub fn shown_is_right()
    ensures { ShownIsRight }
{}

// Demand 3, call by call: carry-on is the machine.
pub fn carry_on_is_the_machine()
    ensures { CarryOnIsTheMachine }
{}

// Demand 3: the bound on K, and the bound on the squares of v.
pub fn corrections_are_bounded()
    ensures { CorrectionsAreBounded }
{}

// Beyond the demands: a function that fits is found.
pub fn what_fits_is_found()
    ensures { WhatFitsIsFound }
{}

// The marked cases of document 01, m1 to m10.
pub fn marked_cases()
    ensures { MarkedCases }
{}

// Demand 1: the writers give a number exactly on its condition, and keep the lent buffer's other bytes.
pub fn records_are_written()
    ensures { RecordsAreWritten }
{}

// Demand 2: reading what was written gives the same value, whatever value of the code's types is handed in.
pub fn what_is_written_is_read(table: Table, gate: Gate, witness: Witness, job: Job)
    ensures { ReadsBack (Record.Table table) × ReadsBack (Record.Gate table gate) × ReadsBack (Record.Witness table witness) × ReadsBack (Record.Job job) }
{}

// Demand 2: writing what was read gives the same bytes.
pub fn what_is_read_is_written(bytes: &[u8])
    ensures { WritesBack bytes.now }
{
    nothing()
}

// Demand 3, one claim about every list of calls from the fresh job of any table.
pub fn calls_are_the_machine(table: Table)
    ensures { CallsAreTheMachine table }
{}

// Beyond the demands: the lines made one after another are the report of the whole input.
pub fn report_is_its_lines()
    ensures { ReportIsItsLines }
{}

// Document 02, §1: the mean of a report is rounded to the nearest tenth, an exact half to the even one.
pub fn mean_is_rounded()
    ensures { MeanIsRounded }
{}

// Document 02, §2: an entry of the manual's page is the number of true inputs of its row; the height of a witness is added up by the page, over
// its true rows or, if it balances, over its false ones; and it is document 01's height by counting bits.
pub fn heights_by_the_page()
    ensures { HeightsByThePage }
{}

// Demand 2, of what a user meets: what a report says of the tables in any bytes, and what decide, carry-on and the two finds
// of the C interface hand back.
pub fn what_is_decided_is_right(bytes: &[u8])
    ensures { DecidedIsRight bytes.now }
{
    nothing()
}

// Does nothing. A claim about a slice calls it: where a function calls another, its proof knows that the slice holds bytes.
fn nothing() {}

// Tables from hex digits and words have, row by row, the values and the cares that these stand for.
pub fn tables_from_elsewhere()
    ensures { TablesFromElsewhere }
{}
