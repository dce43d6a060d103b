// Plays a script on the memory manager and prints how many words each call touches; with --summary also what each kind of call touches.
#![tactic(auto)]

use bench::{CallKind, Game, Tally};
use driver::{Fault, Script, exit_code, open_input, open_output, read_script};
use mutator::{Ask, CALLS};
use std::io::{BufWriter, Stdout, Write};
use std::process::ExitCode;
use std::{env, fmt, io};

#[derive(Drop)]
enum Failure {
    Usage,
    // the arguments cannot be read
    Unread(io::Error),
    Script(Fault),
}

impl From<Fault> for Failure {
    fn from(fault: Fault) -> Failure {
        Failure::Script(fault)
    }
}

// Written by hand: touches stands on std alone.
impl fmt::Display for Failure {
    fn fmt<W: fmt::Write>(&self, f: &mut fmt::Formatter<W>) -> fmt::Result {
        match self {
            Failure::Usage => write!(f, "expected no argument or --summary"),
            Failure::Unread(why) => write!(f, "the arguments cannot be read: {why}"),
            Failure::Script(fault) => write!(f, "{fault}"),
        }
    }
}

// Is a summary wanted? Nothing else can be asked for.
fn wants_summary(rt: &HostRuntime) -> Result<bool, Failure> {
    let mut args = env::args(rt).map_err(Failure::Unread)?;
    let _ = args.next();
    let Some(word) = args.next() else {
        return Ok(false);
    };
    if word.as_str() == "--summary" && args.next().is_none() {
        Ok(true)
    } else {
        Err(Failure::Usage)
    }
}

fn print_touches(out: &mut BufWriter<Stdout>, touches: &[u64]) -> io::Result<()> {
    for touched in touches {
        writeln!(out, "{touched}")?;
    }
    Ok(())
}

// KIND CALLS TOTAL MEAN WORST, the mean in tenths.
fn print_tally<K: fmt::Display>(
    out: &mut BufWriter<Stdout>,
    kind: &K,
    tally: Tally,
) -> io::Result<()> {
    let Tally {
        calls,
        total,
        worst,
    } = tally;
    let mean = tally.mean(10);
    let whole = mean / 10;
    let tenth = mean % 10;
    writeln!(out, "{kind} {calls} {total} {whole}.{tenth} {worst}")
}

// A line for each kind of call that occurred, and one for all; touches has a number for each call.
fn print_summary(out: &mut BufWriter<Stdout>, calls: &[Ask], touches: &[u64]) -> io::Result<()> {
    for kind in (0..CALLS).filter_map(CallKind::at) {
        let tally = Tally::of_kind(kind, calls, touches);
        if tally.calls > 0 {
            print_tally(out, &kind, tally)?;
        }
    }
    print_tally(out, &"All", Tally::of(touches))
}

fn print(
    out: &mut BufWriter<Stdout>,
    summary: bool,
    calls: &[Ask],
    touches: &[u64],
) -> io::Result<()> {
    print_touches(out, touches)?;
    if summary {
        print_summary(out, calls, touches)?;
    }
    out.flush()
}

fn count_script(rt: &HostRuntime, summary: bool) -> Result<(), Fault> {
    let input = open_input(rt)?;
    let mut out = open_output(rt)?;
    let Script { size, calls, end } = read_script(rt.alloc(), input)?;
    let game = Game {
        words: size.words,
        slots: size.slots,
        calls: calls.as_slice(),
    };
    let touches = game.touches(rt.alloc()).map_err(|_| Fault::NoMemory(1))?;
    print(&mut out, summary, game.calls, touches.as_slice()).map_err(Fault::Unwritten)?;
    end
}

fn run(rt: &HostRuntime) -> Result<(), Failure> {
    let summary = wants_summary(rt)?;
    count_script(rt, summary)?;
    Ok(())
}

fn main(rt: HostRuntime) -> ExitCode {
    exit_code(&rt, run(&rt))
}
