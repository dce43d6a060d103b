// The answers of a script as lines, a fault on standard error, and the status that a program ends with.
ghost use Rattle.std.specs.Prelude.{◌≡◌, cond, map, IfErr, IfOk};
ghost use Rattle.std.specs.Io.KnownBytes.{Appends};
ghost use Rattle.std.specs.Process.{exit_status};
ghost use Rattle.std.specs.Result.{is_ok};
ghost use Rattle.mutator.specs.Refusals.{answer_of};
ghost use Rattle.driver.specs.declared.fault.Fault.TheVariants.{NoMemory};
ghost use Rattle.driver.specs.Playing.{Answered, Ends, printed};

use crate::fault::Fault;
use crate::reading::Script;
use mutator::Told;
use script::AnswerText;
use std::alloc::AllocError;
use std::io::{BufWriter, Stdout, Write};
use std::process::ExitCode;
use std::{fmt, io};

// Standard output, to be written in large pieces.
pub fn open_output(rt: &HostRuntime) -> Result<BufWriter<Stdout>, Fault>
    ensures { IfErr result (λ f. f ≡ NoMemory 1) }
{
    BufWriter::new(rt.alloc(), rt.stdout()).map_err(|_| Fault::NoMemory(1))
}

// The answers, a line each.
fn print<W: Write>(out: &mut W, told: &[Told]) -> io::Result<()>
    ensures { IfOk result (λ _. let lines = printed (map answer_of told.now) in
        Appends (W.contents out.old) (W.contents out.new) lines) }
{
    for told in told {
        let text = AnswerText(*told);
        writeln!(out, "{text}")?;
    }
    out.flush()
}

// Prints what is told of a script, the answers of the plain world, and says why the script ended where it did.
pub fn print_answers<W: Write>(
    out: &mut W,
    script: Script,
    told: Result<Vec<Told>, AllocError>,
) -> Result<(), Fault>
    requires { Answered script told }
    ensures { Ends script told (W.contents out.old) (W.contents out.new) result }
{
    let told = told.map_err(|_| Fault::NoMemory(1))?;
    print(out, told.as_slice()).map_err(Fault::Unwritten)?;
    script.end
}

// Says on standard error why a program failed, and hands that on.
pub fn report<E: fmt::Display + Drop>(rt: &HostRuntime, done: Result<(), E>) -> Result<(), E>
    ensures { result ≡ done }
{
    if let Err(why) = &done {
        let _ = eprintln!(rt; "{why}");
    }
    done
}

// The status that a program ends with: 0 where all was done, else 1, and why is said on standard error.
pub fn exit_code<E: fmt::Display + Drop>(rt: &HostRuntime, done: Result<(), E>) -> ExitCode
    ensures { exit_status result ≡ cond (is_ok done) 0 1 }
{
    match report(rt, done) {
        Ok(()) => ExitCode::SUCCESS,
        Err(_) => ExitCode::FAILURE,
    }
}
