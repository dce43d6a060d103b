// Is a row of words sound? It is decided with no memory but the row: headers are stamped meanwhile, and the row is then as it was.
#![tactic(auto)]

ghost use Rattle.std.specs.Prelude.{◌≡◌, ◌≤◌, ◌&&◌, length, ◌==◌, slice_index};
ghost use Rattle.layout.specs.Map.{base, none_at, root_at};
ghost use Rattle.layout.specs.Sound.{all_of, ends, none_header, root_header, sound};
ghost use Rattle.soundness.specs.Costs.{verdict_cost};
ghost use Rattle.soundness.specs.Stamps.{header_ok};
ghost use Rattle.soundness.specs.Walkable.{IsWalkable, MayTouch, objects};
ghost use Rattle.store.specs.Frame.{IsOpenFor, TouchesAtMost};
ghost use Rattle.store.specs.Accesses.{Looks};

mod references;

use references::{answer_twice, stamp};
use store::{Manager, NONE, Object, Objects, ROOT, none_header};
use words::Words;
use words::header::Header;
use words::names::Addr;

// Is the row sound? A reference leads to a header exactly if the word that it leads to has two marks in turn, which every header
// is given: nothing else is written in between, so that no other word has both.
pub fn is_sound<W: Words>(m: &mut Manager<W>) -> bool
    requires open { let n = length (W.Words.row m.old.words) in
        IsOpenFor (verdict_cost m.old.slots n) W.Words m.old }
    ensures value { result ≡ sound m.old.slots (W.Words.row m.old.words) }
    ensures looks { Looks W.Words m.old m.new }
    ensures touches { let n = length (W.Words.row m.old.words) in
        TouchesAtMost (verdict_cost m.old.slots n) W.Words m.old m.new }
{
    if !has_sentinels(m) {
        return false;
    }
    let free = m.free();
    if free > m.limit() {
        return false;
    }
    if !tiles(m, free) {
        return false;
    }
    let sound = answer_twice(m, free);
    stamp(m, free, 0);
    sound
}

// Have none and the root their headers?
fn has_sentinels<W: Words>(m: &mut Manager<W>) -> bool
    requires fits { base m.old.slots ≤ length (W.Words.row m.old.words) }
    requires few { MayTouch 2 W.Words m.old }
    ensures value { let row = W.Words.row m.old.words in
        result ≡ (slice_index row none_at == none_header)
        && (slice_index row root_at == root_header m.old.slots) }
    ensures looks { Looks W.Words m.old m.new }
    ensures touches { TouchesAtMost 2 W.Words m.old m.new }
{
    m.words.get(NONE) == none_header().pack()
        && m.words.get(ROOT) == Header::plain(m.slots, 0).pack()
}

// Have the objects well-formed headers, and do they end, from header to header, where the free words begin? Here and below
// `free` is no field beside the manager: a struct that borrows it would name the row behind a borrow in each clause.
fn tiles<W: Words>(m: &mut Manager<W>, free: usize) -> bool
    requires walkable { IsWalkable free W.Words m.old }
    requires few { MayTouch (length (objects W.Words m.old)) W.Words m.old }
    ensures value { let row = W.Words.row m.old.words in
        let cs = objects W.Words m.old in
        result ≡ all_of (header_ok row) cs && ends cs (base m.old.slots) free }
    ensures looks { Looks W.Words m.old m.new }
    ensures touches { TouchesAtMost (length (objects W.Words m.old)) W.Words m.old m.new }
{
    let at = Addr(m.base());
    let mut objects = Objects { at, end: free };
    while let Some(Object { header, .. }) = objects.next(m) {
        if !header.is_well_formed() {
            return false;
        }
    }
    objects.at.0 == free
}
