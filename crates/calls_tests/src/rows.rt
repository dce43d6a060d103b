// Which rows are sound, and what start leaves of any.
ghost use Rattle.std.specs.Prelude.{◌<◌};

use soundness::is_sound;
use std::alloc::Global;
use std::process::Abort;
use std::test::Fail;
use store::{Manager, start};
use traced::Traced;

// Is the row sound that start leaves of 70 words of 9 with three slots, once a word of it is another?
fn sound_with(rt: &impl Abort, heap: Global, at: usize, word: u64) -> Result<bool, Fail>
    requires { at < 70 }
{
    let mut m = Manager {
        words: Traced::over(heap, vec![in heap; 9u64; 70]?),
        slots: 3,
    };
    start(&mut m);
    assert_eq!(rt; m.words.count, 70);
    assert!(rt; m.words.words.len() == 70);
    m.words.words[at] = word;
    Ok(is_sound(&mut m))
}

#[test]
fn each_part_counts(rt: HostRuntime) -> Result<(), Fail> {
    let heap = rt.alloc();
    assert!(rt; sound_with(&rt, heap, 69, 8)?);
    assert!(rt; sound_with(&rt, heap, 1, 8)?);
    assert!(rt; !sound_with(&rt, heap, 0, 0)?);
    assert!(rt; !sound_with(&rt, heap, 62, 4)?);
    assert!(rt; !sound_with(&rt, heap, 2, 66)?);
    assert!(rt; !sound_with(&rt, heap, 2, 71)?);
    assert!(rt; !sound_with(&rt, heap, 64, 1)?);
    assert!(rt; !sound_with(&rt, heap, 66, 256 * 67)?);
    Ok(())
}
