// One line of a script, answered by a machine.
ghost use Rattle.driver.specs.Memories.{Plays};

use crate::fault::Fault;
use crate::machine::Machine;
use script::{AnswerText, read_line};
use std::io::Write;

// One line with its number, as a reader counts them: a call, which is answered and the answer printed, or nothing. `machine` and `out` are no struct,
// since plain opens `out` before the first line makes its machine.
pub fn play_line<M: Machine, W: Write>(
    machine: &mut M,
    out: &mut W,
    number: usize,
    line: &str,
) -> Result<(), Fault>
    ensures { let m = M.memory machine.old in let m' = M.memory machine.new in
        Plays line.now m (W.contents out.old) number m' (W.contents out.new) result }
{
    let Some(ask) = read_line(line).map_err(|why| Fault::Line(number, why))? else {
        return Ok(());
    };
    let told = machine.answer(&ask).map_err(|_| Fault::NoMemory(number))?;
    let text = AnswerText(told);
    writeln!(out, "{text}").map_err(Fault::Unwritten)
}
