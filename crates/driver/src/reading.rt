// A whole script from an input.
ghost use Rattle.std.specs.Prelude.{◌≡◌, IfErr};
ghost use Rattle.driver.specs.declared.fault.Fault.TheVariants.{NoMemory};
ghost use Rattle.driver.specs.Reading.{so_far, Takes, TakesInput, nothing, script_of, SaidBy};

use crate::fault::Fault;
use mutator::Ask;
use script::{HeapSize, read_line, read_opening};
use std::alloc::Global;
use std::io::{BufRead, BufReader, Stdin};

// What was read of a script: its first line, the calls of the lines that were taken, and how that ended.
#[derive(Drop)]
pub struct Script {
    pub size: HeapSize,
    pub calls: Vec<Ask>,
    pub end: Result<(), Fault>,
}

// What the lines so far said.
#[derive(Drop)]
struct Reading {
    size: Option<HeapSize>,
    calls: Vec<Ask>,
}

impl Reading {
    // Before the first line.
    fn new(heap: Global) -> Reading
        ensures { so_far result ≡ nothing }
    {
        Reading {
            size: None,
            calls: Vec::new(heap),
        }
    }

    // One line more; the first that is not passed over says how many words and slots there are.
    fn take_line(&mut self, number: usize, line: &str) -> Result<(), Fault>
        ensures { Takes (so_far self.old) number line.now (so_far self.new) result }
    {
        if self.size.is_none() {
            self.size = read_opening(line).map_err(|why| Fault::Line(number, why))?;
            return Ok(());
        }
        match read_line(line).map_err(|why| Fault::Line(number, why))? {
            None => Ok(()),
            Some(ask) => self.calls.push(ask).map_err(|_| Fault::NoMemory(number)),
        }
    }

    // The lines of an input, up to one that is refused, finds no memory or cannot be read.
    fn take_input<R: BufRead + Drop>(&mut self, heap: Global, input: R) -> Result<(), Fault>
        ensures { TakesInput (R.remaining input) (so_far self.old) (so_far self.new) result }
    {
        for (above, line) in input.lines(heap).enumerate() {
            let number = above + 1;
            let line = line.map_err(|why| Fault::Unread(number, why))?;
            self.take_line(number, line.as_str())?;
        }
        Ok(())
    }

    // The script, if there was a first line.
    fn script(self, end: Result<(), Fault>) -> Result<Script, Fault>
        ensures { result ≡ script_of self.size self.calls end }
    {
        let Some(size) = self.size else {
            return Err(end.err().unwrap_or(Fault::NoFirstLine));
        };
        Ok(Script {
            size,
            calls: self.calls,
            end,
        })
    }
}

// Standard input, to be read line by line.
pub fn open_input(rt: &HostRuntime) -> Result<BufReader<Stdin>, Fault>
    ensures { IfErr result (λ f. f ≡ NoMemory 1) }
{
    BufReader::new(rt.alloc(), rt.stdin()).map_err(|_| Fault::NoMemory(1))
}

// The script that an input holds, as far as it can be read.
pub fn read_script<R: BufRead + Drop>(heap: Global, input: R) -> Result<Script, Fault>
    ensures { SaidBy (R.remaining input) result }
{
    let mut reading = Reading::new(heap);
    let end = reading.take_input(heap, input);
    reading.script(end)
}
