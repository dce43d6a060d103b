// A whole script over memory: what is read of its bytes is played on the plain world, and these bytes are printed.
ghost use Rattle.driver.specs.Playing.{Answered};

use driver::{Fault, Script, print_answers, read_script};
use mutator::Told;
use reference::PlainWorld;
use std::alloc::{AllocError, Global};
use std::test::Fail;
use world::room_for;

fn answer(heap: Global, script: &Script) -> Result<Vec<Told>, AllocError>
    ensures { Answered script.now result }
{
    let room = room_for(script.size.words as usize, script.size.slots);
    PlainWorld::play(heap, room, script.size.slots, script.calls.as_slice())
}

fn play(heap: Global, text: &str, out: &mut Vec<u8>) -> Result<(), Fault> {
    let script = read_script(heap, text.as_bytes())?;
    let told = answer(heap, &script);
    print_answers(out, script, told)
}

#[test]
fn from_bytes_to_bytes(rt: HostRuntime) -> Result<(), Fail> {
    let mut out = Vec::new(rt.alloc());
    let text = "# two slots\n69 2\r\n\nNew 0 0 1\nWrite 0 0 7\nRead 0 0\nNew 1 0 0";
    let played = play(rt.alloc(), text, &mut out);
    assert!(rt; played.is_ok());
    assert_eq!(rt; out.as_slice(), "1 0\n1 0\n1 7\n0 0\n".as_bytes());
    Ok(())
}

#[test]
fn up_to_a_refused_line(rt: HostRuntime) -> Result<(), Fail> {
    let mut out = Vec::new(rt.alloc());
    let played = play(rt.alloc(), "100 1\nClear 0\nClear\nClear 1\n", &mut out);
    let Err(why) = played else {
        return Err(Fail::from("a line too short was taken"));
    };
    assert_eq!(rt;
        why.to_string(rt.alloc())?.as_str(),
        "line 3: expected one more number"
    );
    assert_eq!(rt; out.as_slice(), "1 0\n".as_bytes());
    Ok(())
}
