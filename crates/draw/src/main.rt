// Plays a script on the memory manager up to one of its calls, and prints a picture of the heap then; with --collected after a collection, too.
#![tactic(auto)]

ghost use Rattle.std.specs.Prelude.{MatchResult};
ghost use Rattle.picture.specs.Played.{Shows};
ghost use Rattle.draw.specs.Undrawn.{Undrawn};

use driver::{Fault, Script, exit_code, lent_words, open_input, open_output, read_script};
use mutator::Ask;
use picture::{Moment, Picture, Spot, Unseen};
use script::HeapSize;
use std::alloc::Global;
use std::io::{BufWriter, Stdout, Write};
use std::process::ExitCode;
use std::{env, fmt, io};

// Which heap is drawn: after how many calls, and whether after a collection, too. It is the title as well.
#[derive(Clone, Copy)]
struct Wanted {
    calls: usize,
    collected: bool,
}

#[derive(Drop)]
enum Failure {
    Usage,
    // the arguments cannot be read
    Unread(io::Error),
    Script(Fault),
    // that call is wanted, and the script has so many
    TooFewCalls(usize, usize),
    TooFewWords(HeapSize),
    Unwritten(io::Error),
}

impl From<Fault> for Failure {
    fn from(fault: Fault) -> Failure {
        Failure::Script(fault)
    }
}

// Written by hand: draw stands on std alone.
impl fmt::Display for Failure {
    fn fmt<W: fmt::Write>(&self, f: &mut fmt::Formatter<W>) -> fmt::Result {
        match self {
            Failure::Usage => write!(
                f,
                "expected the number of a call, and --collected or nothing"
            ),
            Failure::Unread(why) => write!(f, "the arguments cannot be read: {why}"),
            Failure::Script(fault) => write!(f, "{fault}"),
            Failure::TooFewCalls(wanted, calls) => {
                write!(f, "the script has no call {wanted}, only {calls}")
            }
            Failure::TooFewWords(HeapSize { words, slots }) => {
                write!(f, "no heap: {words} words are too few for {slots} slots")
            }
            Failure::Unwritten(why) => write!(f, "the picture cannot be written: {why}"),
        }
    }
}

impl fmt::Display for Wanted {
    fn fmt<W: fmt::Write>(&self, f: &mut fmt::Formatter<W>) -> fmt::Result {
        let calls = self.calls;
        match calls {
            0 => write!(f, "The heap before all calls")?,
            _ => write!(f, "The heap after call {calls}")?,
        }
        if self.collected {
            write!(f, " and a collection")?;
        }
        Ok(())
    }
}

// The standard parse takes a sign, which no number of a script has.
fn call_number(word: &str) -> Option<usize> {
    if word.starts_with('+') {
        return None;
    }
    word.parse::<usize>().ok()
}

impl Wanted {
    // CALL [--collected]
    fn read(rt: &HostRuntime) -> Result<Wanted, Failure> {
        let mut args = env::args(rt).map_err(Failure::Unread)?;
        let _ = args.next();
        let calls = args
            .next()
            .and_then(|word| call_number(word.as_str()))
            .ok_or(Failure::Usage)?;
        let collected = match args.next() {
            None => false,
            Some(word) if word.as_str() == "--collected" => true,
            Some(_) => return Err(Failure::Usage),
        };
        if args.next().is_some() {
            return Err(Failure::Usage);
        }
        Ok(Wanted { calls, collected })
    }
}

// What is drawn.
fn look(heap: Global, size: HeapSize, calls: &[Ask], collected: bool) -> Result<Vec<Spot>, Failure>
    ensures { MatchResult result (λ v. Shows size.words size.slots calls.now collected v.items)
        (λ e. Undrawn size e) }
{
    let mut words = lent_words(heap, size.words).map_err(|_| Failure::Script(Fault::NoMemory(1)))?;
    let moment = Moment {
        slots: size.slots,
        calls,
        collected,
    };
    moment
        .spots(words.as_mut_slice(), heap)
        .map_err(|unseen| match unseen {
            Unseen::TooFewWords => Failure::TooFewWords(size),
            Unseen::NoMemory => Failure::Script(Fault::NoMemory(1)),
        })
}

fn print(out: &mut BufWriter<Stdout>, title: Wanted, spots: &[Spot]) -> io::Result<()> {
    let picture = Picture { title, spots };
    writeln!(out, "{picture}")?;
    out.flush()
}

// A fault behind the wanted call is said when the picture is printed.
fn run(rt: &HostRuntime) -> Result<(), Failure> {
    let wanted = Wanted::read(rt)?;
    let input = open_input(rt)?;
    let mut out = open_output(rt)?;
    let Script { size, calls, end } = read_script(rt.alloc(), input)?;
    let Some(calls) = calls.as_slice().get(..wanted.calls) else {
        end?;
        return Err(Failure::TooFewCalls(wanted.calls, calls.len()));
    };
    let spots = look(rt.alloc(), size, calls, wanted.collected)?;
    print(&mut out, wanted, spots.as_slice()).map_err(Failure::Unwritten)?;
    end?;
    Ok(())
}

fn main(rt: HostRuntime) -> ExitCode {
    exit_code(&rt, run(&rt))
}
