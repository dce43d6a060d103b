// Plays a script on the memory manager: the answers on standard output, a fault on standard error with its line.
#![tactic(auto)]

ghost use Rattle.driver.specs.Playing.{Answered, PlaysRead};
ghost use Rattle.driver.specs.Reading.{SaidBy};

use driver::{
    Fault, Script, exit_code, lent_words, open_input, open_output, print_answers, read_script,
};
use mutator::Told;
use std::alloc::{AllocError, Global};
use std::io::{BufRead, Write};
use std::process::ExitCode;

fn answer(heap: Global, script: &Script) -> Result<Vec<Told>, AllocError>
    ensures { Answered script.now result }
{
    let calls = script.calls.as_slice();
    let mut words = lent_words(heap, script.size.words)?;
    let mut told = vec![in heap; Told { code: 0, val: 0 }; calls.len()]?;
    heap::play(
        calls,
        words.as_mut_slice(),
        script.size.slots,
        told.as_mut_slice(),
    );
    Ok(told)
}

// The script that an input holds, from its bytes to those of the answers: what its lines say is played, and printed is what the
// plain world answers.
fn play_script<R: BufRead + Drop, W: Write>(
    heap: Global,
    input: R,
    out: &mut W,
) -> Result<(), Fault>
    ensures { (r : _) × SaidBy (R.remaining input) r
        × PlaysRead r (W.contents out.old) (W.contents out.new) result }
{
    let script = read_script(heap, input)?;
    let told = answer(heap, &script);
    print_answers(out, script, told)
}

fn run(rt: &HostRuntime) -> Result<(), Fault> {
    let input = open_input(rt)?;
    let mut out = open_output(rt)?;
    play_script(rt.alloc(), input, &mut out)
}

fn main(rt: HostRuntime) -> ExitCode {
    exit_code(&rt, run(&rt))
}
