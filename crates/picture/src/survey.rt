// What stands at each word of a heap, read off its words.
ghost use Rattle.std.specs.Prelude.{◌≡◌, ◌+◌, ◌-◌, ◌≤◌, not, ◌==◌, [], ◌∷◌, map, length, IfOk};
ghost use Rattle.layout.specs.Cells.{base, cell, free_of, layout, seg};
ghost use Rattle.words.specs.Kinds.{place_count, weight, word_count};
ghost use Rattle.store.specs.Frame.{IsOpenFor, IsReady};
ghost use Rattle.store.specs.Lies.{word_at};
ghost use Rattle.picture.specs.Puts.{Ends, Puts, marked_objects};
ghost use Rattle.picture.specs.Spots.{cell_of, free_words, place_of, slots_of, spots, word_of};

use crate::spot::{Part, Spot};
use marking::mark;
use std::alloc::{AllocError, Global};
use store::{Manager, Object, Objects};
use words::Words;
use words::names::{Addr, Place, Slot, WordIndex};

// What stands at each word behind the manager's own. What is reached stays marked.
pub(crate) fn survey<W: Words>(m: &mut Manager<W>, heap: Global) -> Result<Vec<Spot>, AllocError>
    requires { IsReady W.Words m.old }
    ensures { IfOk result (λ v. v.items ≡ spots m.old.slots (W.Words.row m.old.words)) }
{
    mark(m);
    let mut spots = Vec::new(heap);
    put_slots(&mut spots, m)?;
    put_objects(&mut spots, m)?;
    put_free(&mut spots, m)?;
    Ok(spots)
}

fn put_slots<W: Words>(spots: &mut Vec<Spot>, m: &mut Manager<W>) -> Result<(), AllocError>
    requires { IsOpenFor m.old.slots W.Words m.old }
    ensures { IfOk result (λ _. let these = slots_of m.old.slots (W.Words.row m.old.words) in
        Puts W.Words m.old.slots these spots.old.items spots.new.items m.old m.new) }
{
    for s in 0..m.slots {
        let held = m.slot(Slot(s as u64));
        spots.push(Spot::Slot(held))?;
    }
    Ok(())
}

// The objects in order, in a row where those that are reached are marked.
fn put_objects<W: Words>(spots: &mut Vec<Spot>, m: &mut Manager<W>) -> Result<(), AllocError>
    requires open { IsOpenFor (1 + length (W.Words.row m.old.words)) W.Words m.old }
    requires ends { Ends m.old.slots (W.Words.row m.old.words) }
    ensures { IfOk result (λ _. let row = W.Words.row m.old.words in
        let these = marked_objects row (layout m.old.slots row) in
        Puts W.Words (1 + length row) these spots.old.items spots.new.items m.old m.new) }
{
    let end = m.free();
    let at = Addr(m.base());
    let mut objects = Objects { at, end };
    while let Some(object) = objects.next(m) {
        put_object(spots, m, object)?;
    }
    Ok(())
}

fn put_object<W: Words>(
    spots: &mut Vec<Spot>,
    m: &mut Manager<W>,
    object: Object,
) -> Result<(), AllocError>
    requires open { let h = object.header in
        IsOpenFor (place_count h + word_count h) W.Words m.old }
    requires within { object.at.0 + weight object.header ≤ length (W.Words.row m.old.words) }
    ensures { IfOk result (λ _. let h = object.header in
        Puts W.Words (place_count h + word_count h)
        (cell_of (not (h.mark == 0)) (W.Words.row m.old.words)
        (record { start = object.at.0; places = place_count h; count = word_count h }))
        spots.old.items spots.new.items m.old m.new) }
{
    let reached = object.header.is_marked();
    spots.push(Spot::of(reached, Part::Header))?;
    spots.push(Spot::of(reached, Part::Second))?;
    put_places(spots, m, object, reached)?;
    put_words(spots, m, object, reached)
}

fn put_places<W: Words>(
    spots: &mut Vec<Spot>,
    m: &mut Manager<W>,
    object: Object,
    reached: bool,
) -> Result<(), AllocError>
    requires open { IsOpenFor (place_count object.header) W.Words m.old }
    requires within { let n = place_count object.header in
        object.at.0 + 2 + n ≤ length (W.Words.row m.old.words) }
    ensures { IfOk result (λ _. let n = place_count object.header in
        let places = seg (W.Words.row m.old.words) (object.at.0 + 2) n in
        Puts W.Words n (map (place_of reached) places)
        spots.old.items spots.new.items m.old m.new) }
{
    for i in 0..object.header.place_count() {
        let target = m.place(object, Place(i as u64));
        spots.push(Spot::of(reached, Part::Place(target)))?;
    }
    Ok(())
}

fn put_words<W: Words>(
    spots: &mut Vec<Spot>,
    m: &mut Manager<W>,
    object: Object,
    reached: bool,
) -> Result<(), AllocError>
    requires open { IsOpenFor (word_count object.header) W.Words m.old }
    requires within { let n = word_count object.header in
        word_at object n ≤ length (W.Words.row m.old.words) }
    ensures { IfOk result (λ _. let n = word_count object.header in
        let words = seg (W.Words.row m.old.words) (word_at object 0) n in
        Puts W.Words n (map (word_of reached) words)
        spots.old.items spots.new.items m.old m.new) }
{
    for i in 0..object.header.word_count() {
        let word = m.word(object, WordIndex(i as u64));
        spots.push(Spot::of(reached, Part::Word(word)))?;
    }
    Ok(())
}

fn put_free<W: Words>(spots: &mut Vec<Spot>, m: &mut Manager<W>) -> Result<(), AllocError>
    requires { IsOpenFor 1 W.Words m.old }
    ensures { IfOk result (λ _. let these = free_words (W.Words.row m.old.words) in
        Puts W.Words 1 these spots.old.items spots.new.items m.old m.new) }
{
    for _ in m.free()..m.limit() {
        spots.push(Spot::Free)?;
    }
    Ok(())
}
