// A whole script on lent words, from the beginning.
ghost use Rattle.std.specs.Prelude.{◌≡◌, ◌<◌, ◌≤◌, length};
ghost use Rattle.mutator.specs.Listed.{listed};
ghost use Rattle.mutator.specs.TableLaws.{there as there_in, all_there as all_there_in};
ghost use Rattle.world.specs.World.{blank};
ghost use Rattle.mutator.specs.Script.{answer};
ghost use Rattle.mutator.specs.Refusals.{said};
ghost use Rattle.heap.specs.Playing.{Stands, Turns, Played, PlaysAs, PlaySays};

use crate::calling::call;
use mutator::{Ask, Entry, Number, Numbers, Refusal, Told};
use store::{Manager, fits, start};
use words::lent::Lent;

// Is it no slot, or one that is there?
fn there(slots: u16, number: Number) -> bool
    ensures { result ≡ there_in slots number }
{
    match number {
        Number::Slot(s) => s < slots,
        _ => true,
    }
}

fn all_there(slots: u16, numbers: Numbers) -> bool
    ensures { result ≡ all_there_in slots (listed numbers) }
{
    match numbers {
        Numbers::Zero => true,
        Numbers::One(a) => there(slots, a),
        Numbers::Two(a, b) => there(slots, a) && there(slots, b),
        Numbers::Three(a, b, c) => there(slots, a) && there(slots, b) && there(slots, c),
    }
}

// One call where there are not words enough to start: all slots are empty, and stay so. What comes of it is in the table.
fn without_words(slots: u16, q: &Ask) -> Result<u64, Refusal>
    ensures { said result ≡ (answer 0 (blank slots) q.now).told }
{
    let Entry { numbers, empty, .. } = q.entry();
    if all_there(slots, numbers) {
        empty
    } else {
        Err(Refusal::NoSlot)
    }
}

// What a call says, and how many words it touched.
#[derive(Clone, Copy)]
pub struct Turn {
    pub told: Told,
    pub touched: u64,
}

impl From<Turn> for Told {
    ghost from_gives = { λ turn told. told ≡ turn.told };

    fn from(turn: Turn) -> Told {
        turn.told
    }
}

impl From<Turn> for u64 {
    ghost from_gives = { λ turn touched. touched ≡ turn.touched };

    fn from(turn: Turn) -> u64 {
        turn.touched
    }
}

// Nothing is kept of it.
impl From<Turn> for () {
    ghost from_gives = { λ turn none. Unit {0} };

    fn from(_: Turn) {}
}

// One call, on a manager that works, or where there are not words enough.
fn take_turn(m: &mut Manager<Lent<'_>>, ready: bool, q: &Ask) -> Turn
    requires { Stands ready m.old.slots m.old.words.words.now }
    ensures slots { m.new.slots ≡ m.old.slots }
    ensures turns { let row = m.old.words.words.now in let row' = m.new.words.words.now in
        Turns ready q.now m.old.slots row row' result }
{
    m.words.count = 0;
    if ready {
        let told = call(m, q);
        return Turn {
            told,
            touched: m.words.count,
        };
    }
    Turn {
        told: Told::from(without_words(m.slots, q)),
        touched: 0,
    }
}

// The one loop that plays a script. Of each turn that is kept which `T` is made of it: the answer, or the touches. An answer
// goes to the place that `enumerate` says: zipped with `iter_mut`, an invariant has no name for the elements that are done.
pub fn play_on<T: From<Turn> + Copy>(
    script: &[Ask],
    m: &mut Manager<Lent<'_>>,
    ready: bool,
    out: &mut [T],
)
    requires room { length script.now ≤ length out.old }
    requires stands { Stands ready m.old.slots m.old.words.words.now }
    ensures slots { m.new.slots ≡ m.old.slots }
    ensures played { let row = m.old.words.words.now in let row' = m.new.words.words.now in
        let qs = script.now in
        Played T.from_gives (length qs) ready qs m.old.slots row row' out.old out.new }
{
    for (i, q) in script.iter().enumerate() {
        out[i] = T::from(take_turn(m, ready, q));
    }
}

// A whole script on lent words, whatever stood in them, and of each call what is kept of it.
pub fn play_as<T: From<Turn> + Copy>(script: &[Ask], mem: &mut [u64], slots: u16, out: &mut [T])
    requires { (length script.now ≤ length out.old) × (length mem.old < 72057594037927936) }
    ensures { PlaysAs T.from_gives (length mem.old) slots script.now out.old out.new }
{
    let mut m = Manager {
        words: Lent {
            words: mem,
            count: 0,
        },
        slots,
    };
    if fits(&m.words, slots) {
        start(&mut m);
        play_on(script, &mut m, true, out);
    } else {
        play_on(script, &mut m, false, out);
    }
}

// A whole script on lent words: every answer is the one given in the plain world from blank. The signature is part of
// the interface.
pub fn play(script: &[Ask], mem: &mut [u64], slots: u16, out: &mut [Told])
    requires { (length script.now ≤ length out.old) × (length mem.old < 72057594037927936) }
    ensures { PlaySays (length mem.old) slots script.now out.old out.new }
{
    play_as(script, mem, slots, out);
}
