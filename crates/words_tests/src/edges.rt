// The edges of headers and references, and what is counted.
use std::test::Fail;
use traced::Traced;
use words::Words;
use words::header::Header;
use words::kind::Kind;
use words::lent::Lent;
use words::names::Addr;
use words::reference::Reference;

#[test]
fn full_header_comes_back(rt: HostRuntime) {
    let full = Header {
        places: 65535,
        words: 65535,
        mark: 65536,
        kind: 32767,
    };
    assert_eq!(rt; full.pack(), 0xffff_0000_ffff_ffff);
    assert_eq!(rt; Header::unpack(0xffff_0000_ffff_ffff), full);
    assert_eq!(rt; full.unmarked().pack(), 0xfffe_0000_ffff_ffff);
}

#[test]
fn unknown_kinds_are_weighed_and_not_well_formed(rt: HostRuntime) {
    assert_eq!(rt; Kind::at(0), Some(Kind::Plain));
    let odd = Header::unpack(1 << 49 | 0x2_0003);
    assert_eq!(rt; Kind::at(odd.kind), None);
    assert!(rt; !odd.is_well_formed());
    assert_eq!(rt; odd.weight(), 7);
    let plain = Header::plain(3, 2);
    assert!(rt; plain.is_well_formed());
    assert!(rt; !plain.advance().is_well_formed());
    assert_eq!(rt; plain.place_count(), 3);
    assert_eq!(rt; plain.word_count(), 2);
    assert_eq!(rt; plain.references(), 3);
}

#[test]
fn sizes_never_spill_into_marks(rt: HostRuntime) {
    let large = Header::plain(65535, 65535);
    assert!(rt; !large.is_marked());
    assert_eq!(rt; large.weight(), 131072);
    assert_eq!(rt; large.cells(), 65535);
    let met = large.advance();
    assert!(rt; met.is_marked());
    assert_eq!(rt; met.pack(), 0x1_ffff_ffff);
}

#[test]
fn far_reference_comes_back(rt: HostRuntime) {
    let far = Reference {
        target: Some(Addr(0xff_ffff_ffff_ffff)),
        tag: 255,
    };
    assert_eq!(rt; far.pack(), 0xffff_ffff_ffff_ffff);
    assert_eq!(rt; Reference::unpack(0xffff_ffff_ffff_ffff), far);
    assert_eq!(rt; far.with_target(None).pack(), 255);
    assert_eq!(rt;
        Reference::unpack(0),
        Reference {
            target: None,
            tag: 0,
        }
    );
}

#[test]
fn lent_words_count(rt: HostRuntime) {
    let mut room = [7, 8, 9];
    let mut lent = Lent {
        words: &mut room,
        count: 0,
    };
    assert_eq!(rt; lent.count(), 3);
    lent.put(1, 5);
    assert_eq!(rt; lent.get(1), 5);
    assert_eq!(rt; lent.count, 2);
    assert_eq!(rt; room[1], 5);
}

#[test]
fn traced_words_say_which(rt: HostRuntime) -> Result<(), Fail> {
    let heap = rt.alloc();
    let mut words = Traced::over(heap, vec![in heap; 7u64; 4]?);
    assert!(rt; words.count() == 4);
    words.put(3, 1);
    assert_eq!(rt; words.get(3), 1);
    assert_eq!(rt; words.get(0), 7);
    assert_eq!(rt; words.count, 3);
    let Some(trace) = &words.trace else {
        return Err(Fail::new("no trace"));
    };
    assert!(rt; trace.len() == 3);
    assert_eq!(rt; trace[0], 3);
    assert_eq!(rt; trace[2], 0);
    Ok(())
}
