//! Laws of the programs' runs, each the contract of a function that does nothing but call the laws that it follows
//! from.
//!
//! What reads returned is the bytes taken of the input and the count of failed reads. What writes took is the count of
//! failed writes and, if one failed, the count of bytes written. Runs without memory are not covered.

ghost use Rattle.program_laws.specs.Laws.{
  ColumnsRunsAreTheOnes,
  EncloseRunsAreTheOnes,
  FormRunsAreTheOnes,
  LeastRunsAreTheOnes,
  ProgramRunsAreTheOnes,
  TaskRunsAreTheOnes,
};

use fixed_io::laws::report_is_the_one;
use fixed_respell::laws::{self_run_is_the_one, summary_is_the_one};
use line_engine::laws::cut_anywhere;

/// The runs of `fixed_tool`.
pub fn program_runs_are_the_ones()
    ensures { ProgramRunsAreTheOnes }
{
    report_is_the_one();
    cut_anywhere();
    self_run_is_the_one();
    summary_is_the_one();
}

/// The runs of `enclose_tool`.
pub fn enclose_runs_are_the_ones()
    ensures { EncloseRunsAreTheOnes }
{
    report_is_the_one();
    cut_anywhere();
}

/// The runs of `least_tool`.
pub fn least_runs_are_the_ones()
    ensures { LeastRunsAreTheOnes }
{
    report_is_the_one();
}

/// The runs of `constants_tool`.
pub fn form_runs_are_the_ones()
    ensures { FormRunsAreTheOnes }
{
    report_is_the_one();
}

/// The runs of `columns_tool`.
pub fn columns_runs_are_the_ones()
    ensures { ColumnsRunsAreTheOnes }
{
    report_is_the_one();
}

/// The runs of each task that `fixed` does over an input.
pub fn task_runs_are_the_ones()
    ensures { TaskRunsAreTheOnes }
{
    report_is_the_one();
    cut_anywhere();
}
