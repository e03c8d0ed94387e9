// A script through readers and writers that give and take a byte at a time, are interrupted, and fail.
use faulty::{Giver, Taker, told};
use scripts::run;
use std::io::ErrorKind;
use std::test::Fail;

// A script whose last line has no end.
const SCRIPT: &[u8] =
    b"linear 0\nexact\n\nframe 12\r\nadmit 1 1 4 4 0\ninquire 1\nleave\ndismiss 2";

// What is written for each of its lines: nothing for the second and the third.
const ANSWERS: &[u8] = b"refused 3 bad accuracy\ndone\ndone\nrow 1 4 4 0 meets 1 points 1\n\
not a call at line 7: expected frame, admit, dismiss or inquire\nrefused 10 no rank\n";

// All but the answer to the line that has no end.
const ENDED: usize = ANSWERS.len() - 19;

#[test]
fn script_at_once(rt: HostRuntime) -> Result<(), Fail> {
    let mut reader = SCRIPT;
    let mut writer = Vec::new(rt.alloc());
    run(&mut reader, &mut writer)?;
    assert_eq!(rt; writer.as_slice(), ANSWERS);
    assert!(rt; reader.is_empty());
    Ok(())
}

#[test]
fn script_byte_by_byte(rt: HostRuntime) -> Result<(), Fail> {
    let mut writer = Taker::of(rt.alloc(), ANSWERS.len(), None);
    run(&mut Giver::of(SCRIPT, None), &mut writer)?;
    assert_eq!(rt; writer.bytes.as_slice(), ANSWERS);
    Ok(())
}

#[test]
fn failed_read(rt: HostRuntime) -> Result<(), Fail> {
    let mut writer = Taker::of(rt.alloc(), ANSWERS.len(), None);
    let Err(failure) = run(
        &mut Giver::of(SCRIPT, Some(ErrorKind::ConnectionReset)),
        &mut writer,
    ) else {
        return Err(Fail::from("read past an error"));
    };
    assert_eq!(rt; told(&failure), (true, ErrorKind::ConnectionReset));
    assert_eq!(rt; writer.bytes.as_slice(), &ANSWERS[..ENDED]);
    Ok(())
}

#[test]
fn failed_writes(rt: HostRuntime) -> Result<(), Fail> {
    for (fails, kind) in [
        (None, ErrorKind::WriteZero),
        (Some(ErrorKind::StorageFull), ErrorKind::StorageFull),
    ] {
        for room in 0..ANSWERS.len() {
            let mut writer = Taker::of(rt.alloc(), room, fails);
            let Err(failure) = run(&mut Giver::of(SCRIPT, None), &mut writer) else {
                return Err(Fail::from("written past an error"));
            };
            assert_eq!(rt; told(&failure), (false, kind), "after {room}");
            assert_eq!(rt; writer.bytes.as_slice(), &ANSWERS[..room], "after {room}");
        }
    }
    Ok(())
}
