//! Runs a program by its arguments, over any source and any sink.

ghost use Rattle.std.specs.Prelude.{◌≡◌, IfOk, [], ◌∷◌, List, ℕ, String, Err};
ghost use Rattle.std.specs.String.{string_bytes};
ghost use Rattle.std.specs.declared.alloc.Global.{Global};
ghost use Rattle.line_engine.specs.Program.{EndsAs, Outside, outside};
ghost use Rattle.line_engine.specs.Run.{WritesText};
ghost use Rattle.line_engine.specs.declared.status.Status.{Status};
ghost use Rattle.line_engine.specs.declared.program.NoArgs.{NoArgs};

use crate::{Sink, Source, Status};
use fixed_steps::Steps;
use std::alloc::Global;
use std::sync::ledger::Ledger;

/// Why a program has no arguments to run by.
#[derive(Clone, Copy, Debug, PartialEq, Eq)]
pub enum NoArgs {
    /// There was no memory for the arguments.
    NoMemory,
    /// An argument is not UTF-8.
    NotText,
}

/// A program that is run by its arguments, without its name, over a source and a sink.
pub trait Program<L: Ledger> {
    /// Whether the program does not know these arguments.
    ghost IsUsageFault: { Self → List (String Global) → Type 0 };

    /// The line that is written for unknown arguments.
    ghost usage_line: { Self → List ℕ };

    /// What a run by these arguments with this status did to the outside, which is given before and after it.
    ghost Runs: { Self → List (String Global) → Outside → Outside → Status → Type 0 };

    /// Runs the program by its arguments.
    fn run<S: Source, K: Sink>(
        &self,
        alloc: Global,
        args: &[String],
        source: &mut S,
        sink: &mut K,
        steps: &mut Steps<L>,
    ) -> Status
        ensures run { Runs self.now args.now
            (outside (S.left source.old) (S.asked source.old) (S.failures source.old) (K.written sink.old)
            (K.failures sink.old) steps.old)
            (outside (S.left source.new) (S.asked source.new) (S.failures source.new) (K.written sink.new)
            (K.failures sink.new) steps.new) result }
        ensures usage { IsUsageFault self.now args.now
            → WritesText (usage_line self.now) Status.Usage (K.written sink.old) (K.written sink.new)
            (K.failures sink.old) (K.failures sink.new) result }
        ensures untouched { IsUsageFault self.now args.now → source.new ≡ source.old };

    /// The program does not know a single empty argument.
    ghost empty_law: { (program : Self) (word : String Global) → string_bytes word ≡ []
        → IsUsageFault program (word ∷ []) };
}

/// Runs a program by its arguments, and returns the exit code of its process.
///
/// If there was no memory for the arguments, the code is that of `NoMemory` and nothing is read or written. An argument
/// that is not text is a usage fault.
pub fn run_program<P: Program<L>, S: Source, K: Sink, L: Ledger>(
    program: &P,
    alloc: Global,
    args: Result<Vec<String>, NoArgs>,
    source: &mut S,
    sink: &mut K,
    steps: &mut Steps<L>,
) -> u8
    // The program ran by its arguments, and the code is that of its status.
    ensures args { IfOk args
        (λ all. EndsAs (P.Runs program.now all.items
        (outside (S.left source.old) (S.asked source.old) (S.failures source.old) (K.written sink.old)
        (K.failures sink.old) steps.old)
        (outside (S.left source.new) (S.asked source.new) (S.failures source.new) (K.written sink.new)
        (K.failures sink.new) steps.new)) result) }

    // For unknown arguments the usage line is written, and nothing is read.
    ensures usage { IfOk args (λ all. P.IsUsageFault program.now all.items
        → EndsAs (WritesText (P.usage_line program.now) Status.Usage (K.written sink.old) (K.written sink.new)
        (K.failures sink.old) (K.failures sink.new)) result × (source.new ≡ source.old)) }

    // There was no memory for the arguments.
    ensures no_memory { args ≡ Err NoArgs.NoMemory
        → (result ≡ 5) × (source.new ≡ source.old) × (sink.new ≡ sink.old) × (steps.new ≡ steps.old) }

    // An argument is not text.
    ensures not_text { args ≡ Err NoArgs.NotText
        → EndsAs (WritesText (P.usage_line program.now) Status.Usage (K.written sink.old) (K.written sink.new)
        (K.failures sink.old) (K.failures sink.new)) result × (source.new ≡ source.old) }
{
    let status = match args {
        Ok(args) => program.run(alloc, &args, source, sink, steps),
        Err(NoArgs::NoMemory) => Status::NoMemory,
        Err(NoArgs::NotText) => program.run(alloc, &[String::new(alloc)], source, sink, steps),
    };
    status.code()
}
