// Rows of two slots from 64 on and objects from 66 on. A header is 0x1_wwww_pppp if marked, else 0xwwww_pppp;
// a reference to the object at 0xaa is 0xaa00.
#![tactic(auto, using(crate::proofs::Deciding::decided), unfolding(layout::specs::Cells::layout, layout::specs::Sound::sound))]

use crate::slid;
use std::test::Fail;

#[test]
fn nothing_dead_stays(rt: HostRuntime) -> Result<(), Fail> {
    let mut room = [0u64; 80];
    room[0] = 0x1_003c_0000;
    room[2] = 74;
    room[62] = 0x3_0000_0002;
    room[64] = 0x4200;
    room[66] = 0x1_0001_0001;
    room[67] = 5;
    room[68] = 0x4600;
    room[69] = 11;
    room[70] = 0x1_0000_0002;
    room[72] = 0x4200;
    assert_eq!(rt; slid(&mut room, 2), 18);
    assert_eq!(rt; room[2], 74);
    assert_eq!(rt; room[62], 2);
    assert!(rt;
        room[64..74]
            == [
                0x4200,
                0,
                0x0001_0001,
                66,
                0x4600,
                11,
                0x0000_0002,
                70,
                0x4200,
                0,
            ]
    );
    Ok(())
}

#[test]
fn everything_dead_goes(rt: HostRuntime) -> Result<(), Fail> {
    let mut room = [0u64; 80];
    room[0] = 0x1_003c_0000;
    room[2] = 74;
    room[62] = 0x3_0000_0002;
    room[66] = 0x0001_0001;
    room[68] = 0x4600;
    room[70] = 0x0000_0002;
    room[72] = 0x4200;
    assert_eq!(rt; slid(&mut room, 2), 10);
    assert_eq!(rt; room[2], 66);
    assert_eq!(rt; room[62], 2);
    assert!(rt; room[64..66] == [0, 0]);
    Ok(())
}

#[test]
fn every_other_goes(rt: HostRuntime) -> Result<(), Fail> {
    let mut room = [0u64; 84];
    room[0] = 0x1_003c_0000;
    room[2] = 81;
    room[62] = 0x3_0000_0002;
    room[64] = 0x4b00;
    room[65] = 0x4400;
    room[68] = 0x1_0001_0001;
    room[70] = 0x4b00;
    room[71] = 7;
    room[72] = 0x0000_0001;
    room[74] = 0x4400;
    room[75] = 0x1_0002_0000;
    room[77] = 8;
    room[78] = 9;
    assert_eq!(rt; slid(&mut room, 2), 43);
    assert_eq!(rt; room[2], 74);
    assert!(rt;
        room[64..74]
            == [
                0x4600,
                0x4200,
                0x0001_0001,
                66,
                0x4600,
                7,
                0x0002_0000,
                70,
                8,
                9,
            ]
    );
    Ok(())
}

// An object of no size is dead at the bottom, and the last one ends where the words end.
#[test]
fn full_words_close_up(rt: HostRuntime) -> Result<(), Fail> {
    let mut room = [0u64; 78];
    room[0] = 0x1_003c_0000;
    room[2] = 78;
    room[62] = 0x3_0000_0002;
    room[64] = 0x4400;
    room[65] = 0x4b00;
    room[68] = 0x1_0001_0002;
    room[70] = 0x4900;
    room[71] = 0x4b00;
    room[72] = 12;
    room[73] = 0x1_0000_0000;
    room[75] = 0x1_0000_0001;
    room[77] = 0x4400;
    assert_eq!(rt; slid(&mut room, 2), 50);
    assert_eq!(rt; room[2], 76);
    assert!(rt; room[64..71] == [0x4200, 0x4900, 0x0001_0002, 66, 0x4700, 0x4900, 12]);
    assert!(rt; room[71..76] == [0, 71, 0x0000_0001, 73, 0x4200]);
    Ok(())
}

// A large object goes down by two words, onto its own.
#[test]
fn large_object_overlaps(rt: HostRuntime) -> Result<(), Fail> {
    let mut room = [0u64; 92];
    room[0] = 0x1_003c_0000;
    room[2] = 91;
    room[62] = 0x3_0000_0002;
    room[64] = 0x4400;
    room[68] = 0x1_0014_0001;
    room[70] = 0x4400;
    room[71] = 1;
    room[72] = 2;
    room[73] = 3;
    room[80] = 10;
    room[89] = 19;
    room[90] = 20;
    assert_eq!(rt; slid(&mut room, 2), 62);
    assert_eq!(rt; room[2], 89);
    assert!(rt; room[64..73] == [0x4200, 0, 0x0014_0001, 66, 0x4200, 1, 2, 3, 0]);
    assert!(rt; room[77..80] == [0, 10, 0]);
    assert!(rt; room[86..89] == [0, 19, 20]);
    Ok(())
}

// Two are dead before the one that is kept, and three behind it: each run is one filler, read once by
// the second pass and once by the third.
#[test]
fn runs_are_skipped(rt: HostRuntime) -> Result<(), Fail> {
    let mut room = [0u64; 82];
    room[0] = 0x1_003c_0000;
    room[2] = 81;
    room[62] = 0x3_0000_0002;
    room[64] = 0x4700;
    room[66] = 0x0001_0000;
    room[71] = 0x1_0001_0001;
    room[73] = 0x4700;
    room[74] = 7;
    assert_eq!(rt; slid(&mut room, 2), 32);
    assert_eq!(rt; room[2], 70);
    assert!(rt; room[64..70] == [0x4200, 0, 0x0001_0001, 66, 0x4200, 7]);
    Ok(())
}
