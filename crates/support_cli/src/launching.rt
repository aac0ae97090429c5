// How `main` hands the system's input, outputs and words to a program.
ghost use Rattle.std.specs.Prelude.{◌≡◌, ◌⊎◌};
ghost use Rattle.std.specs.Process.{exit_status};
ghost use Rattle.support_cli.specs.Answers.{status_code, not_understood};

use crate::{Input, Output, Status, words_of};
use std::process::ExitCode;
use std::rt::{HostRuntime, Stderr, Stdin, Stdout};

/// Runs a program on the words of the command line, standard input, standard output and standard
/// error, and returns the status that it ends with. Where memory runs out before the program
/// starts, it runs nothing and returns the status of [`Status::NotUnderstood`].
pub fn launch<F>(rt: &HostRuntime, program: F) -> ExitCode
where
    F: FnOnce(&[Vec<u8>], &mut Input<Stdin>, &mut Output<Stdout>, &mut Output<Stderr>) -> Status,
    requires { F.IsAlwaysCallable program }
    ensures { (exit_status result ≡ not_understood) ⊎ ((w : _) × (i : _) × (o : _) × (e : _) × (s : _) × (i' : _) × (o' : _) × (e' : _) × F.post program w i o e s i' o' e' × (exit_status result ≡ status_code s)) }
{
    let Ok(words) = words_of(rt, rt.alloc()) else {
        return ExitCode::from(Status::NotUnderstood.code());
    };
    let mut input = Input::new(rt.stdin());
    let mut output = Output::new(rt.stdout());
    let mut errors = Output::new(rt.stderr());
    let status = program(&words, &mut input, &mut output, &mut errors);
    ExitCode::from(status.code())
}
