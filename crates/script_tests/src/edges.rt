// Each call printed and read back, and each refusal once.
use mutator::Ask;
use script::{CallText, LineError, read_line, read_opening};
use std::test::Fail;

#[test]
fn calls_come_back(rt: HostRuntime) -> Result<(), Fail> {
    let calls = [
        Ask::New(0, 2, 1),
        Ask::Get(0, 1, 0),
        Ask::Set(0, 0, 65_535),
        Ask::Read(4, 0),
        Ask::Write(0, 3, u64::MAX),
        Ask::Copy(1, 0),
        Ask::Clear(0),
        Ask::Same(0, 1),
        Ask::Sizes(3),
        Ask::Collect,
    ];
    for call in calls {
        let text = CallText(call).to_string(rt.alloc())?;
        assert_eq!(rt; read_line(text.as_str()), Ok(Some(call)));
    }
    Ok(())
}

#[test]
fn blanks_and_zeros_are_allowed(rt: HostRuntime) {
    assert_eq!(rt;
        read_line("\t New  0 002\t1 \r"),
        Ok(Some(Ask::New(0, 2, 1)))
    );
    assert_eq!(rt; read_line("# New"), Ok(None));
    assert_eq!(rt; read_line(" \t\r"), Ok(None));
    assert_eq!(rt; read_line("New"), Err(LineError::TooFewNumbers));
}

#[test]
fn refusals(rt: HostRuntime) {
    assert_eq!(rt; read_line("new 0 2 1"), Err(LineError::UnknownCall));
    assert_eq!(rt; read_line("Copy 1"), Err(LineError::TooFewNumbers));
    assert_eq!(rt; read_line("Collect 0"), Err(LineError::TooManyNumbers));
    assert_eq!(rt; read_line("Clear +1"), Err(LineError::NotANumber));
    assert_eq!(rt;
        read_line("Clear 65536"),
        Err(LineError::NumberTooLarge(65_535))
    );
    assert_eq!(rt;
        read_line("Write 0 3 18446744073709551616"),
        Err(LineError::NumberTooLarge(u64::MAX))
    );
    assert_eq!(rt;
        read_opening("72057594037927936 4"),
        Err(LineError::WordsTooLarge)
    );
}
