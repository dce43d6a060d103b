// Rows of words, written word by word.
ghost use Rattle.std.specs.Prelude.{◌≡◌, ◌+◌, ◌%◌, ◌^◌, ◌<◌, IfOk, vec_len};
ghost use Rattle.marking_tests.specs.Rows.{Leads, Grown, IsEmpty, IsChain, IsFan, IsTree, IsComplete, IsApart, IsEmpties, IsLast, IsNoSlots};

use std::alloc::{AllocError, Global};
use store::none_header;
use words::header::Header;

#[derive(Drop)]
pub struct Row {
    pub words: Vec<u64>,
    pub slots: u16,
}

impl Row {
    // The own words and empty slots, and no object yet.
    fn new(heap: Global, slots: u16) -> Result<Row, AllocError>
        ensures { IfOk result (λ w. IsEmpty slots w.slots w.words.items) }
    {
        let mut words = vec![in heap; 0; 64 + slots as usize]?;
        words[0] = none_header().pack();
        words[62] = Header::plain(slots, 0).pack();
        Ok(Row { words, slots })
    }

    // One object more, with empty places and words of 0; where it lies. That a row keeps its number of slots is said here and
    // below: each changes the row it is called on.
    fn object(&mut self, places: u16, words: u16) -> Result<usize, AllocError>
        ensures lies { IfOk result (λ at. at ≡ vec_len self.old.words) }
        ensures grown { IfOk result (λ _.
            Grown places words self.old.words.items self.new.words.items) }
        ensures slots { self.new.slots ≡ self.old.slots }
    {
        let at = self.words.len();
        self.words.push(Header::plain(places, words).pack())?;
        self.words
            .resize(at + 2 + places as usize + words as usize, 0)?;
        let free = self.words.len() as u64;
        if let Some(word) = self.words.get_mut(2) {
            *word = free;
        }
        Ok(at)
    }

    // A slot leads to an object.
    fn slot(&mut self, slot: usize, to: usize)
        ensures leads { Leads ((slot + 64) % 2 ^ 64) to self.old.words.items self.new.words.items }
        ensures slots { self.new.slots ≡ self.old.slots }
    {
        self.lead(slot.wrapping_add(64), to);
    }

    // A place of an object leads to another.
    fn place(&mut self, at: usize, place: usize, to: usize)
        ensures leads { let cell = ((at + 2) % 2 ^ 64 + place) % 2 ^ 64 in
            Leads cell to self.old.words.items self.new.words.items }
        ensures slots { self.new.slots ≡ self.old.slots }
    {
        self.lead(at.wrapping_add(2).wrapping_add(place), to);
    }

    // A cell, if there is such a one, leads to an object.
    fn lead(&mut self, cell: usize, to: usize)
        ensures leads { Leads cell to self.old.words.items self.new.words.items }
        ensures slots { self.new.slots ≡ self.old.slots }
    {
        if let Some(word) = self.words.get_mut(cell) {
            *word = (to as u64).wrapping_mul(256);
        }
    }
}

// Objects of one place, each of which leads to the next.
pub fn chain(heap: Global, count: usize) -> Result<Row, AllocError>
    ensures { IfOk result (λ row.
        0 < count → count < 2 ^ 32 → IsChain count row.slots row.words.items) }
{
    let mut row = Row::new(heap, 1)?;
    let first = row.object(1, 0)?;
    row.slot(0, first);
    let mut at = first;
    for _ in 1..count {
        let next = row.object(1, 0)?;
        row.place(at, 0, next);
        at = next;
    }
    Ok(row)
}

// An object of 65,535 places, which lead to itself and to one other object by turns; that leads back.
pub fn fan(heap: Global) -> Result<Row, AllocError>
    ensures { IfOk result (λ row. IsFan row.slots row.words.items) }
{
    let mut row = Row::new(heap, 2)?;
    let wide = row.object(65535, 0)?;
    let other = row.object(1, 2)?;
    row.slot(1, wide);
    row.place(other, 0, wide);
    for i in 0..65535 {
        row.place(wide, i, if i % 2 == 0 { wide } else { other });
    }
    Ok(row)
}

// A full binary tree of objects with two places; object i leads to objects 2i + 1 and 2i + 2.
pub fn tree(heap: Global, count: usize) -> Result<Row, AllocError>
    ensures { IfOk result (λ row.
        0 < count → count < 2 ^ 32 → IsTree count row.slots row.words.items) }
{
    let mut row = Row::new(heap, 1)?;
    let first = row.object(2, 0)?;
    row.slot(0, first);
    for i in 1..count {
        let next = row.object(2, 0)?;
        let parent = first.wrapping_add((i - 1).wrapping_div(2).wrapping_mul(4));
        row.place(parent, (i - 1) % 2, next);
    }
    Ok(row)
}

// Objects each of which leads to every one.
pub fn complete(heap: Global, count: u16) -> Result<Row, AllocError>
    ensures { IfOk result (λ row. IsComplete count row.slots row.words.items) }
{
    let mut row = Row::new(heap, 1)?;
    let first = row.words.len();
    for _ in 0..count {
        let _ = row.object(count, 0)?;
    }
    row.slot(0, first);
    let size = 2 + count as usize;
    for i in 0..count as usize {
        for j in 0..count as usize {
            row.place(
                first.wrapping_add(i.wrapping_mul(size)),
                j,
                first.wrapping_add(j.wrapping_mul(size)),
            );
        }
    }
    Ok(row)
}

// Three slots and six objects, none of which leads anywhere.
fn beside_no_size(heap: Global) -> Result<Row, AllocError>
    ensures { IfOk result (λ row. IsApart row.slots row.words.items) }
{
    let mut row = Row::new(heap, 3)?;
    let _lost = row.object(0, 0)?;
    let _empty = row.object(0, 0)?;
    let _looped = row.object(2, 1)?;
    let _another = row.object(0, 0)?;
    let _holder = row.object(3, 0)?;
    let _unreached = row.object(2, 0)?;
    Ok(row)
}

// Objects of no size beside others; one leads to itself by its second place; two are not reached.
pub fn empties(heap: Global) -> Result<Row, AllocError>
    ensures { IfOk result (λ row. IsEmpties row.slots row.words.items) }
{
    let mut row = beside_no_size(heap)?;
    let (lost, empty, looped, another, holder, unreached) = (67, 69, 71, 76, 78, 83);
    row.slot(0, empty);
    row.slot(2, holder);
    row.place(looped, 1, looped);
    row.place(holder, 0, empty);
    row.place(holder, 1, looped);
    row.place(holder, 2, another);
    row.place(unreached, 0, holder);
    row.place(unreached, 1, lost);
    Ok(row)
}

// The last object ends where the words end, and its last place leads to the first object.
pub fn last(heap: Global) -> Result<Row, AllocError>
    ensures { IfOk result (λ row. IsLast row.slots row.words.items) }
{
    let mut row = Row::new(heap, 1)?;
    let first = row.object(1, 4)?;
    let unreached = row.object(1, 0)?;
    let final_one = row.object(3, 0)?;
    row.slot(0, final_one);
    row.place(final_one, 2, first);
    row.place(first, 0, final_one);
    row.place(unreached, 0, first);
    Ok(row)
}

// No slots, so that nothing is reached.
pub fn no_slots(heap: Global) -> Result<Row, AllocError>
    ensures { IfOk result (λ row. IsNoSlots row.slots row.words.items) }
{
    let mut row = Row::new(heap, 0)?;
    let alone = row.object(1, 1)?;
    row.place(alone, 0, alone);
    Ok(row)
}
