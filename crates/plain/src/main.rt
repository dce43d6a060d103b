// Plays a script on the plain world: the answers on standard output, a fault on standard error with its line.
#![tactic(auto)]

ghost use Rattle.plain.specs.First.{Begins};

use driver::{Fault, Machine, exit_code, open_input, open_output, play_line};
use mutator::{Ask, Told};
use reference::PlainWorld;
use script::{HeapSize, read_opening};
use std::alloc::{AllocError, Global};
use std::io::{BufRead, BufWriter, Stdout, Write};
use std::process::ExitCode;
use world::room_for;

#[derive(Drop)]
struct Plain(PlainWorld);

impl Machine for Plain {
    ghost use Rattle.reference.specs.View.{view};

    ghost memory = { λ p. record { room = p.0.room; world = view p.0 } };

    fn answer(&mut self, ask: &Ask) -> Result<Told, AllocError> {
        self.0.call(ask)
    }
}

// The world that the first line asks for; there is none yet where it is passed over.
fn begin(heap: Global, number: usize, line: &str) -> Result<Option<Plain>, Fault>
    ensures { Begins line.now number result }
{
    let opening = read_opening(line).map_err(|why| Fault::Line(number, why))?;
    let Some(HeapSize { words, slots }) = opening else {
        return Ok(None);
    };
    let room = room_for(words as usize, slots);
    let world = PlainWorld::new(heap, room, slots).map_err(|_| Fault::NoMemory(number))?;
    Ok(Some(Plain(world)))
}

// The first line that is not passed over makes the world; the others are calls.
fn answer_all(rt: &HostRuntime, out: &mut BufWriter<Stdout>) -> Result<(), Fault> {
    let heap = rt.alloc();
    let mut machine: Option<Plain> = None;
    for (number, line) in (1..).zip(open_input(rt)?.lines(heap)) {
        let line = line.map_err(|why| Fault::Unread(number, why))?;
        match &mut machine {
            Some(machine) => play_line(machine, out, number, line.as_str())?,
            None => machine = begin(heap, number, line.as_str())?,
        }
    }
    machine.map(|_| ()).ok_or(Fault::NoFirstLine)
}

// The answers so far are written before a fault is said.
fn play_input(rt: &HostRuntime) -> Result<(), Fault> {
    let mut out = open_output(rt)?;
    let played = answer_all(rt, &mut out);
    let flushed = out.flush();
    played?;
    flushed.map_err(Fault::Unwritten)
}

fn main(rt: HostRuntime) -> ExitCode {
    exit_code(&rt, play_input(&rt))
}
