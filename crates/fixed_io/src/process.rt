//! The arguments of a process.

ghost use Rattle.std.specs.Prelude.{◌≡◌, Ok, Err, MatchResult};
ghost use Rattle.std.specs.IoError.{error_kind};
ghost use Rattle.fixed_io.specs.Process.{IsWhy};
ghost use Rattle.line_engine.specs.declared.program.NoArgs.{NoArgs};

use line_engine::NoArgs;
use std::alloc::AllocGlobal;
use std::io::ErrorKind;
use std::rt::Env;
use std::{env, io};

/// Returns the arguments, or why there are none: no memory, or else an argument that is not text.
fn args_or_why(args: io::Result<Vec<String>>) -> Result<Vec<String>, NoArgs>
    ensures { MatchResult args (λ all. result ≡ Ok all) (λ error. (why : NoArgs) × (result ≡ Err why)
        × IsWhy (error_kind error) why) }
{
    match args {
        Ok(args) => Ok(args),
        Err(error) if error.kind() == ErrorKind::OutOfMemory => Err(NoArgs::NoMemory),
        Err(_) => Err(NoArgs::NotText),
    }
}

/// Returns the arguments of the process after the program's name.
fn process_args<R: Env + AllocGlobal>(rt: &R) -> io::Result<Vec<String>> {
    let args: Vec<String> = env::args(rt)?.skip(1).collect(rt.alloc())?;
    Ok(args)
}

/// Returns the arguments after the program's name, or why there are none.
pub fn program_args<R: Env + AllocGlobal>(rt: &R) -> Result<Vec<String>, NoArgs> {
    args_or_why(process_args(rt))
}
