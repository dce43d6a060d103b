// The calls on a small row, with what they answer and touch.
use calls::{clear, copy, get, read, same, set, sizes, write};
use mutator::{Ask, Told};
use soundness::is_sound;
use std::alloc::Global;
use std::process::Abort;
use std::test::Fail;
use store::{Manager, fits};
use traced::Traced;
use words::Words;

// Three slots and 75 words. In slot 0 is an object at 67 with two places and the word 7, in slot 2 one
// at 72 with the word 9, which is the last word of all; the first place of the first holds the second.
fn small(heap: Global) -> Result<Manager<Traced>, Fail> {
    let mut row = vec![in heap; 0u64; 75]?;
    row[0] = 4298899456;
    row[2] = 75;
    row[62] = 3;
    row[64] = 256 * 67;
    row[66] = 256 * 72;
    row[67] = 65538;
    row[69] = 256 * 72;
    row[71] = 7;
    row[72] = 65536;
    row[74] = 9;
    Ok(Manager {
        words: Traced::over(heap, row),
        slots: 3,
    })
}

// One call on a row that is sound, with a trace of its own.
fn ask(rt: &impl Abort, m: &mut Manager<Traced>, q: Ask) -> Result<Told, Fail> {
    assert!(rt; m.words.words.len() < 1000);
    assert!(rt; fits(&m.words, m.slots));
    m.words.count = 0;
    assert!(rt; is_sound(m));
    m.words.count = 0;
    if let Some(trace) = &mut m.words.trace {
        trace.clear();
    }
    // a call a function, as in the manager
    match q {
        Ask::Get(t, s, i) => Ok(get(m, t as u64, s as u64, i as u64)),
        Ask::Set(s, i, t) => Ok(set(m, s as u64, i as u64, t as u64)),
        Ask::Read(s, i) => Ok(read(m, s as u64, i as u64)),
        Ask::Write(s, i, x) => Ok(write(m, s as u64, i as u64, x)),
        Ask::Copy(t, s) => Ok(copy(m, t as u64, s as u64)),
        Ask::Clear(t) => Ok(clear(m, t as u64)),
        Ask::Same(s, t) => Ok(same(m, s as u64, t as u64)),
        Ask::Sizes(s) => Ok(sizes(m, s as u64)),
        Ask::New(_, _, _) | Ask::Collect => Err(Fail::new("no such call here")),
    }
}

// What a call answers, and which words it touches, in order. The answer is two numbers here, so that a
// call stays on one line.
fn says(
    rt: &impl Abort,
    m: &mut Manager<Traced>,
    q: Ask,
    code: u8,
    val: u64,
    touches: &[usize],
) -> Result<(), Fail> {
    assert_eq!(rt; ask(rt, m, q)?, Told { code, val });
    let Some(trace) = &m.words.trace else {
        return Err(Fail::new("no trace"));
    };
    assert!(rt; trace.as_slice() == touches);
    Ok(())
}

#[test]
fn words_are_read(rt: HostRuntime) -> Result<(), Fail> {
    let mut m = small(rt.alloc())?;
    says(&rt, &mut m, Ask::Read(0, 0), 1, 7, &[64, 67, 71])?;
    says(&rt, &mut m, Ask::Read(2, 0), 1, 9, &[66, 72, 74])?;
    says(&rt, &mut m, Ask::Read(2, 1), 4, 0, &[66, 72])?;
    says(&rt, &mut m, Ask::Read(1, 0), 3, 0, &[65])?;
    says(&rt, &mut m, Ask::Read(3, 0), 2, 0, &[])
}

#[test]
fn words_are_written(rt: HostRuntime) -> Result<(), Fail> {
    let mut m = small(rt.alloc())?;
    says(
        &rt,
        &mut m,
        Ask::Write(2, 0, 0xffff_ffff_ffff_ffff),
        1,
        0,
        &[66, 72, 74],
    )?;
    says(
        &rt,
        &mut m,
        Ask::Read(2, 0),
        1,
        0xffff_ffff_ffff_ffff,
        &[66, 72, 74],
    )?;
    says(&rt, &mut m, Ask::Read(0, 0), 1, 7, &[64, 67, 71])?;
    says(&rt, &mut m, Ask::Write(0, 1, 5), 4, 0, &[64, 67])?;
    says(&rt, &mut m, Ask::Write(1, 0, 5), 3, 0, &[65])?;
    says(&rt, &mut m, Ask::Write(3, 0, 5), 2, 0, &[])
}

#[test]
fn places_are_got(rt: HostRuntime) -> Result<(), Fail> {
    let mut m = small(rt.alloc())?;
    says(&rt, &mut m, Ask::Get(1, 0, 0), 1, 0, &[64, 67, 69, 65, 65])?;
    says(&rt, &mut m, Ask::Same(1, 2), 1, 1, &[65, 66])?;
    says(&rt, &mut m, Ask::Get(1, 0, 1), 1, 0, &[64, 67, 70, 65, 65])?;
    says(&rt, &mut m, Ask::Get(0, 1, 0), 3, 0, &[65])?;
    says(&rt, &mut m, Ask::Get(1, 0, 2), 4, 0, &[64, 67])?;
    says(&rt, &mut m, Ask::Get(3, 1, 0), 2, 0, &[])?;
    says(&rt, &mut m, Ask::Get(0, 3, 0), 2, 0, &[])
}

#[test]
fn places_are_set(rt: HostRuntime) -> Result<(), Fail> {
    let mut m = small(rt.alloc())?;
    says(&rt, &mut m, Ask::Set(0, 1, 0), 1, 0, &[64, 67, 64, 70, 70])?;
    says(&rt, &mut m, Ask::Get(1, 0, 1), 1, 0, &[64, 67, 70, 65, 65])?;
    says(&rt, &mut m, Ask::Same(1, 0), 1, 1, &[65, 64])?;
    says(&rt, &mut m, Ask::Clear(1), 1, 0, &[65, 65])?;
    says(&rt, &mut m, Ask::Set(0, 0, 1), 1, 0, &[64, 67, 65, 69, 69])?;
    says(&rt, &mut m, Ask::Set(1, 0, 0), 3, 0, &[65])?;
    says(&rt, &mut m, Ask::Set(2, 0, 0), 4, 0, &[66, 72])?;
    says(&rt, &mut m, Ask::Set(3, 0, 0), 2, 0, &[])?;
    says(&rt, &mut m, Ask::Set(1, 0, 3), 2, 0, &[])
}

#[test]
fn slots_are_copied_and_cleared(rt: HostRuntime) -> Result<(), Fail> {
    let mut m = small(rt.alloc())?;
    says(&rt, &mut m, Ask::Copy(1, 0), 1, 0, &[64, 65, 65])?;
    says(&rt, &mut m, Ask::Same(0, 1), 1, 1, &[64, 65])?;
    says(&rt, &mut m, Ask::Clear(0), 1, 0, &[64, 64])?;
    says(&rt, &mut m, Ask::Same(0, 1), 1, 0, &[64, 65])?;
    says(&rt, &mut m, Ask::Copy(1, 0), 1, 0, &[64, 65, 65])?;
    says(&rt, &mut m, Ask::Same(0, 1), 1, 1, &[64, 65])?;
    says(&rt, &mut m, Ask::Copy(3, 0), 2, 0, &[])?;
    says(&rt, &mut m, Ask::Copy(0, 3), 2, 0, &[])?;
    says(&rt, &mut m, Ask::Clear(3), 2, 0, &[])?;
    says(&rt, &mut m, Ask::Same(0, 3), 2, 0, &[])
}

#[test]
fn sizes_are_told(rt: HostRuntime) -> Result<(), Fail> {
    let mut m = small(rt.alloc())?;
    says(&rt, &mut m, Ask::Sizes(0), 1, 131073, &[64, 67])?;
    says(&rt, &mut m, Ask::Sizes(2), 1, 1, &[66, 72])?;
    says(&rt, &mut m, Ask::Sizes(1), 3, 0, &[65])?;
    says(&rt, &mut m, Ask::Sizes(3), 2, 0, &[])
}
