// Makes 100,000 small objects beside held ones, each dropped at once, and prints how many words that touches.
#![tactic(auto)]

ghost use Rattle.std.specs.Prelude.{◌≡◌, ◌+◌, ◌<◌, ◌≤◌, ◌++◌, count_by, nat_lt, IfOk};
ghost use Rattle.churn.specs.Held.{held_calls, places_for};

use anyhow::anyhow;
use bench::{Game, Random, Tally};
use driver::exit_code;
use mutator::{Ask, Told};
use std::alloc::AllocError;
use std::process::ExitCode;
use std::{fmt, io};

const WORDS: u64 = 4000;

const SLOTS: u16 = 5;

const HELD: u16 = 1900;

const NEWS: u32 = 100_000;

// The places and words of a small object, at most; it weighs two words more.
const CELLS: u16 = 6;

// The slots: the held objects in a row, the first of them, the one that is made, and the one that is dropped.
const ROW: u16 = 0;

const FIRST: u16 = 1;

const MADE: u16 = 2;

const DROPPED: u16 = 4;

// A call that touches more words than this has collected.
const COLLECTS: u64 = 1000;

// The code of a call that is done.
const DONE: u8 = 1;

// The average that no kind of held objects may come to, in hundredths.
const LIMIT: u64 = 6000;

// What the held objects mostly are.
#[derive(Clone, Copy)]
enum Mostly {
    Places,
    Mixed,
    Words,
}

// Here and below written by hand: nothing but the text is wanted, and std derives none.
impl fmt::Display for Mostly {
    fn fmt<W: fmt::Write>(&self, f: &mut fmt::Formatter<W>) -> fmt::Result {
        let name = match self {
            Mostly::Places => "mostly places",
            Mostly::Mixed => "mixed",
            Mostly::Words => "mostly words",
        };
        write!(f, "{name}")
    }
}

// What the held objects mostly are, and how many places and words the small ones have at least.
#[derive(Clone, Copy)]
struct Load {
    mostly: Mostly,
    least: u16,
}

impl fmt::Display for Load {
    fn fmt<W: fmt::Write>(&self, f: &mut fmt::Formatter<W>) -> fmt::Result {
        let mostly = self.mostly;
        let low = self.least.saturating_add(2);
        let high = CELLS + 2;
        if low < high {
            write!(f, "{mostly}, News of {low} to {high} words")
        } else {
            write!(f, "{mostly}, News of {high} words")
        }
    }
}

// How many places an object has besides its first, of so many places and words in all.
fn places_of(mostly: Mostly, rest: u16) -> u16
    ensures value { result ≡ places_for mostly rest }
    ensures within { result ≤ rest }
{
    match mostly {
        Mostly::Places => rest - rest / 8,
        Mostly::Mixed => rest / 2,
        Mostly::Words => rest / 8,
    }
}

// An object of so many words: its first place holds the one before it, the others the first of all and that by turns.
fn hold_one(calls: &mut Vec<Ask>, mostly: Mostly, weight: u16) -> Result<(), AllocError>
    ensures { IfOk result (λ _. calls.new.items ≡ calls.old.items ++ held_calls mostly weight) }
{
    let rest = weight.saturating_sub(3);
    let more = places_of(mostly, rest);
    calls.push(Ask::New(MADE, more.saturating_add(1), rest - more))?;
    calls.push(Ask::Set(MADE, 0, ROW))?;
    for i in 0..more {
        let from = if i % 2 == 0 { FIRST } else { ROW };
        calls.push(Ask::Set(MADE, i.saturating_add(1), from))?;
    }
    calls.push(Ask::Copy(ROW, MADE))?;
    Ok(())
}

// What the next held object weighs: 8 to 100 words, and none or 8 at least are left behind it.
fn next_weight(random: &mut Random, left: u16) -> u16
    ensures size { (result ≤ 100) × (((8 ≤ left → 8 ≤ result)) × ((0 < left → 0 < result))) }
    ensures behind { (result ≤ left) × ((result < left → result + 8 ≤ left)) }
{
    if left <= 100 {
        left
    } else {
        (8 + random.below(93)).min(left - 8)
    }
}

// Objects that weigh so many words in all, reached through one slot.
fn hold(calls: &mut Vec<Ask>, random: &mut Random, mostly: Mostly) -> Result<(), AllocError> {
    calls.push(Ask::New(FIRST, 1, 5))?;
    calls.push(Ask::Copy(ROW, FIRST))?;
    let mut left = HELD - 8;
    while left > 0 {
        let weight = next_weight(random, left);
        hold_one(calls, mostly, weight)?;
        left -= weight;
    }
    calls.push(Ask::Clear(FIRST))?;
    calls.push(Ask::Clear(MADE))?;
    Ok(())
}

// Small objects, each into the slot of the one before: with so many places and words at least.
fn churn(calls: &mut Vec<Ask>, random: &mut Random, least: u16) -> Result<(), AllocError> {
    for _ in 0..NEWS {
        let cells = random.below(CELLS + 1).max(least);
        let places = random.below(cells.saturating_add(1));
        calls.push(Ask::New(DROPPED, places, cells.saturating_sub(places)))?;
    }
    Ok(())
}

// What the objects that are made weigh. A match, since only one kind of call counts.
fn weight_of(calls: &[Ask]) -> u64 {
    calls
        .iter()
        .filter_map(|ask| match *ask {
            Ask::New(_, places, words) => Some(2 + places as u64 + words as u64),
            _ => None,
        })
        .fold(0u64, |weight, more| weight.saturating_add(more))
}

// How many of these calls collected.
fn collections(touches: &[u64]) -> usize
    ensures { result ≡ count_by (nat_lt 1000) touches.now }
{
    touches
        .iter()
        .filter(|touched| **touched > COLLECTS)
        .count()
}

fn all_done(told: &[Told]) -> bool {
    told.iter().all(|told| told.code == DONE)
}

fn print(rt: &HostRuntime, load: Load, held: u64, news: &[u64]) -> io::Result<()> {
    let tally = Tally::of(news);
    let Tally {
        calls,
        total,
        worst,
    } = tally;
    let mean = tally.mean(100);
    let whole = mean / 100;
    let part = mean % 100;
    let collections = collections(news);
    println!(rt;
        "{load}: {held} words held, {calls} News, {collections} collections, {total} touches, {whole}.{part:02} a New, {worst} in the worst"
    )
}

// Holds objects and then makes small ones: the touches of these alone count.
fn measure(rt: &HostRuntime, load: Load) -> anyhow::Result<()> {
    let heap = rt.alloc();
    let mut random = Random { last: 1 };
    let mut calls = Vec::new(heap);
    hold(&mut calls, &mut random, load.mostly)?;
    let held = weight_of(calls.as_slice());
    let before = calls.len();
    churn(&mut calls, &mut random, load.least)?;
    let game = Game {
        words: WORDS,
        slots: SLOTS,
        calls: calls.as_slice(),
    };
    let told = game.answers(heap)?;
    if !all_done(told.as_slice()) {
        return Err(anyhow!("a call is refused"));
    }
    let touches = game.touches(heap)?;
    let Some(news) = touches.as_slice().get(before..) else {
        return Err(anyhow!("a call is not counted"));
    };
    print(rt, load, held, news)?;
    if Tally::of(news).mean(100) >= LIMIT {
        return Err(anyhow!("a New touches too many words on average"));
    }
    Ok(())
}

fn measure_all(rt: &HostRuntime) -> anyhow::Result<()> {
    for least in [0, CELLS] {
        for mostly in [Mostly::Places, Mostly::Mixed, Mostly::Words] {
            measure(rt, Load { mostly, least })?;
        }
    }
    Ok(())
}

fn main(rt: HostRuntime) -> ExitCode {
    exit_code(&rt, measure_all(&rt))
}
