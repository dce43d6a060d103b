// Plays scripts made at random on the manager and on the plain world, prints where their answers differ, and counts the answers.
#![tactic(auto)]

ghost use Rattle.std.specs.Prelude.{◌≤◌, max};

use anyhow::anyhow;
use bench::{CallKind, Game, Random};
use driver::exit_code;
use mutator::{Ask, CALLS, Told};
use reference::PlainWorld;
use script::{AnswerText, CallText};
use std::alloc::{AllocError, Global};
use std::io::{BufWriter, Stdout, Write};
use std::process::ExitCode;
use std::{env, fmt, io};
use world::room_for;

const SEED: u64 = 1;

const COUNT: u64 = 2000;

// An answer's code is below this.
const CODES: usize = 5;

// What was counted: how often each answer's code came, by kind of call and in all, and where the two differed.
#[derive(Default, Drop)]
struct Counts {
    calls: u64,
    differences: u64,
    by_kind: [[u64; CODES]; CALLS],
    all: [u64; CODES],
}

// What a script made at random keeps to: so many slots, and so much room for an object.
#[derive(Clone, Copy)]
struct Limits {
    slots: u16,
    room: u16,
}

impl Limits {
    // Mostly a slot that is there; sometimes one too many.
    fn slot(self, random: &mut Random) -> u16
        ensures { result ≤ self.slots }
    {
        match random.below(24) {
            0 => self.slots,
            _ => random.below(self.slots),
        }
    }

    // Mostly few; sometimes none, and sometimes as many as there is room.
    fn size(self, random: &mut Random) -> u16
        ensures { result ≤ max self.room 4 }
    {
        match random.below(16) {
            0..=2 => 0,
            3 => random.below(self.room.saturating_add(1)),
            _ => random.below(5),
        }
    }

    fn call(self, random: &mut Random) -> Ask {
        let s = self.slot(random);
        let t = self.slot(random);
        let i = random.below(4);
        match random.below(24) {
            0..=7 => {
                let places = self.size(random);
                Ask::New(s, places, self.size(random))
            }
            8..=9 => Ask::Get(s, t, i),
            10..=12 => Ask::Set(s, i, t),
            13..=14 => Ask::Read(s, i),
            15..=16 => Ask::Write(s, i, random.word()),
            17..=18 => Ask::Copy(s, t),
            19 => Ask::Clear(s),
            20..=21 => Ask::Same(s, t),
            22 => Ask::Sizes(s),
            _ => Ask::Collect,
        }
    }

    fn calls(self, heap: Global, random: &mut Random) -> Result<Vec<Ask>, AllocError> {
        let mut calls = Vec::new(heap);
        for _ in 0..20 + random.below(41) {
            calls.push(self.call(random))?;
        }
        Ok(calls)
    }
}

// One answer more with its code.
fn add_to(row: &mut [u64; CODES], told: Told) {
    if let Some(count) = row.get_mut(told.code as usize) {
        *count = count.saturating_add(1);
    }
}

impl Counts {
    // One answer more.
    fn add(&mut self, ask: &Ask, told: Told) {
        self.calls = self.calls.saturating_add(1);
        let name = ask.entry().name;
        for (place, row) in self.by_kind.iter_mut().enumerate() {
            if CallKind::at(place).is_some_and(|kind| kind.name == name) {
                add_to(row, told);
            }
        }
        add_to(&mut self.all, told);
    }
}

// Compares the answers to one script, which come from two functions: so the lists are zipped.
fn compare_answers(
    out: &mut BufWriter<Stdout>,
    counts: &mut Counts,
    number: u64,
    calls: &[Ask],
    told: &[Told],
    plain: &[Told],
) -> io::Result<()> {
    for (i, ((ask, got), wanted)) in calls.iter().zip(told).zip(plain).enumerate() {
        counts.add(ask, *wanted);
        if got != wanted {
            counts.differences = counts.differences.saturating_add(1);
            let call = CallText(*ask);
            let got = AnswerText(*got);
            let wanted = AnswerText(*wanted);
            writeln!(
                out,
                "script {number}, call {i}, {call}: the manager says {got}, the plain world {wanted}"
            )?;
        }
    }
    Ok(())
}

// Plays one script on both.
fn compare_one(
    heap: Global,
    out: &mut BufWriter<Stdout>,
    counts: &mut Counts,
    number: u64,
    game: Game<'_>,
) -> anyhow::Result<()> {
    let room = room_for(game.words as usize, game.slots);
    let told = game.answers(heap)?;
    let plain = PlainWorld::play(heap, room, game.slots, game.calls)?;
    compare_answers(
        out,
        counts,
        number,
        game.calls,
        told.as_slice(),
        plain.as_slice(),
    )?;
    Ok(())
}

// Plays so many scripts.
fn compare_all(
    heap: Global,
    out: &mut BufWriter<Stdout>,
    seed: u64,
    count: u64,
) -> anyhow::Result<Counts> {
    let mut random = Random { last: seed };
    let mut counts = Counts::default();
    for number in 0..count {
        // Few words; there may be too few for the slots.
        let words = 66 + random.below(135);
        let slots = 1 + random.below(6);
        let room = room_for(words as usize, slots) as u16;
        let calls = Limits { slots, room }.calls(heap, &mut random)?;
        let game = Game {
            words: words as u64,
            slots,
            calls: calls.as_slice(),
        };
        compare_one(heap, out, &mut counts, number, game)?;
    }
    Ok(counts)
}

fn print_row<N: fmt::Display>(
    out: &mut BufWriter<Stdout>,
    name: &N,
    counts: &[u64; CODES],
) -> io::Result<()> {
    write!(out, "{name}")?;
    for count in counts {
        write!(out, " {count}")?;
    }
    writeln!(out)
}

fn print_counts(out: &mut BufWriter<Stdout>, scripts: u64, counts: &Counts) -> io::Result<()> {
    writeln!(
        out,
        "Answers by call: full, done, no such slot, nothing in the slot, no such place or word"
    )?;
    for (place, row) in counts.by_kind.iter().enumerate() {
        if let Some(kind) = CallKind::at(place) {
            print_row(out, &kind, row)?;
        }
    }
    print_row(out, &"All", &counts.all)?;
    let calls = counts.calls;
    let differences = counts.differences;
    writeln!(
        out,
        "{scripts} scripts, {calls} calls, {differences} differences"
    )
}

// A number among the arguments, or what stands for it.
fn number_or(word: Option<String>, default: u64) -> anyhow::Result<u64> {
    match word {
        Some(word) => word
            .as_str()
            .parse::<u64>()
            .map_err(|_| anyhow!("expected SEED and COUNT as numbers")),
        None => Ok(default),
    }
}

fn compare(rt: &HostRuntime) -> anyhow::Result<()> {
    let mut args = env::args(rt)?;
    let _ = args.next();
    let seed = number_or(args.next(), SEED)?;
    let count = number_or(args.next(), COUNT)?;
    if args.next().is_some() {
        return Err(anyhow!("expected no more than SEED and COUNT"));
    }
    let mut out = BufWriter::new(rt.alloc(), rt.stdout())?;
    let counts = compare_all(rt.alloc(), &mut out, seed, count)?;
    print_counts(&mut out, count, &counts)?;
    out.flush()?;
    if counts.differences > 0 {
        return Err(anyhow!("the manager and the plain world differ"));
    }
    Ok(())
}

fn main(rt: HostRuntime) -> ExitCode {
    exit_code(&rt, compare(&rt))
}
