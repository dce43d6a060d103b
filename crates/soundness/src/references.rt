// Are there references in all slots and places? Those that answer to two marks, which every header is given in turn.
ghost use Rattle.std.specs.Prelude.{◌≡◌, ◌+◌, ◌*◌, ◌<◌, ◌≤◌, true, length, slice_index};
ghost use Rattle.layout.specs.Cells.{seg};
ghost use Rattle.layout.specs.Map.{base};
ghost use Rattle.layout.specs.Sound.{all_of, ends};
ghost use Rattle.soundness.specs.Costs.{answer_cost, places_in};
ghost use Rattle.soundness.specs.Stamps.{DiffersInMarks, all_answer, all_refer, answers, header_ok, object_answers, stamped};
ghost use Rattle.soundness.specs.Walkable.{IsTiled, IsWalkable, MayTouch, objects};
ghost use Rattle.store.specs.Frame.{Frame, Touches, TouchesAtMost};
ghost use Rattle.store.specs.Accesses.{Looks};

use store::{Manager, OWN, Object, Objects};
use words::Words;
use words::header::Header;
use words::names::Addr;

// Are there references in all slots and places? Then they answer to two marks in turn. The headers are left with a mark.
pub fn answer_twice<W: Words>(m: &mut Manager<W>, free: usize) -> bool
    requires tiled { IsTiled free W.Words m.old }
    requires clean { all_of (header_ok (W.Words.row m.old.words)) (objects W.Words m.old) ≡ true }
    requires few { MayTouch (2 * answer_cost m.old.slots (objects W.Words m.old)) W.Words m.old }
    ensures value { let row = W.Words.row m.old.words in
        result ≡ all_refer m.old.slots (objects W.Words m.old) row }
    ensures stays { let row = W.Words.row m.old.words in
        DiffersInMarks m.old.slots free row (W.Words.row m.new.words) }
    ensures frame { Frame W.Words m.old m.new }
    ensures touches { let k = 2 * answer_cost m.old.slots (objects W.Words m.old) in
        TouchesAtMost k W.Words m.old m.new }
{
    answer(m, free, 1) && answer(m, free, 2)
}

// Do all references answer to this mark, once every header has it?
fn answer<W: Words>(m: &mut Manager<W>, free: usize, mark: u32) -> bool
    requires tiled { IsTiled free W.Words m.old }
    requires small { mark < 131072 }
    requires few { MayTouch (answer_cost m.old.slots (objects W.Words m.old)) W.Words m.old }
    ensures value { let cs = objects W.Words m.old in
        let row = stamped mark cs (W.Words.row m.old.words) in
        result ≡ all_answer m.old.slots free cs mark row }
    ensures after { let row = W.Words.row m.old.words in
        W.Words.row m.new.words ≡ stamped mark (objects W.Words m.old) row }
    ensures frame { Frame W.Words m.old m.new }
    ensures touches { let k = answer_cost m.old.slots (objects W.Words m.old) in
        TouchesAtMost k W.Words m.old m.new }
{
    stamp(m, free, mark);
    if !are_references(m, free, OWN, m.slots as usize, mark) {
        return false;
    }
    are_objects(m, free, mark)
}

// Gives every header this mark.
pub fn stamp<W: Words>(m: &mut Manager<W>, free: usize, mark: u32)
    requires walkable { IsWalkable free W.Words m.old }
    requires small { mark < 131072 }
    requires few { MayTouch (2 * length (objects W.Words m.old)) W.Words m.old }
    ensures after { let row = W.Words.row m.old.words in
        W.Words.row m.new.words ≡ stamped mark (objects W.Words m.old) row }
    ensures frame { Frame W.Words m.old m.new }
    ensures touches { Touches (2 * length (objects W.Words m.old)) W.Words m.old m.new }
{
    let at = Addr(m.base());
    let mut objects = Objects { at, end: free };
    while let Some(Object { at, header }) = objects.next(m) {
        m.put_header(at, Header { mark, ..header });
    }
}

// Have all objects references in their places?
fn are_objects<W: Words>(m: &mut Manager<W>, free: usize, mark: u32) -> bool
    requires walkable { IsWalkable free W.Words m.old }
    requires tiled { ends (objects W.Words m.old) (base m.old.slots) free ≡ true }
    requires few { let cs = objects W.Words m.old in
        MayTouch (length cs + 2 * places_in cs) W.Words m.old }
    ensures value { let row = W.Words.row m.old.words in
        result ≡ all_of (object_answers free row mark) (objects W.Words m.old) }
    ensures looks { Looks W.Words m.old m.new }
    ensures touches { let cs = objects W.Words m.old in
        TouchesAtMost (length cs + 2 * places_in cs) W.Words m.old m.new }
{
    let at = Addr(m.base());
    let mut objects = Objects { at, end: free };
    while let Some(Object { at, header }) = objects.next(m) {
        if !are_references(m, free, at.0 + 2, header.references() as usize, mark) {
            return false;
        }
    }
    true
}

// Are there references in so many words?
fn are_references<W: Words>(
    m: &mut Manager<W>,
    free: usize,
    from: usize,
    count: usize,
    mark: u32,
) -> bool
    requires walkable { IsWalkable free W.Words m.old }
    requires within { from + count ≤ length (W.Words.row m.old.words) }
    requires few { MayTouch (2 * count) W.Words m.old }
    ensures value { let row = W.Words.row m.old.words in
        result ≡ all_of (answers free row mark) (seg row from count) }
    ensures looks { Looks W.Words m.old m.new }
    ensures touches { TouchesAtMost (2 * count) W.Words m.old m.new }
{
    // Not with `all`: nothing is known of words that its closure has touched, and so not what is_reference asks.
    for i in 0..count {
        if !is_reference(m, free, from + i, mark) {
            return false;
        }
    }
    true
}

// Is there a reference at a word: none, or to a word before the free ones that has this mark, with a low byte of 0? No lower
// bound is tested: below the objects each word has one mark throughout, and does not answer twice.
fn is_reference<W: Words>(m: &mut Manager<W>, free: usize, at: usize, mark: u32) -> bool
    requires walkable { IsWalkable free W.Words m.old }
    requires within { at < length (W.Words.row m.old.words) }
    requires few { MayTouch 2 W.Words m.old }
    ensures value { let row = W.Words.row m.old.words in
        result ≡ answers free row mark (slice_index row at) }
    ensures looks { Looks W.Words m.old m.new }
    ensures touches { TouchesAtMost 2 W.Words m.old m.new }
{
    let reference = m.reference(at);
    if reference.tag != 0 {
        return false;
    }
    match reference.target {
        Some(there) => there.0 < free && m.header(there).mark == mark,
        None => true,
    }
}
