// The worked sheet of docs/FORMAT.md through readers and writers that give and take a byte at a time, are interrupted,
// and fail.
use crate::surveying::run;
use faulty::{Giver, Taker, told};
use std::io;
use std::io::{ErrorKind, Read};
use std::test::Fail;

// The worked leaf: a sheet of 58 bytes, three findings and the end.
const WORKED: [u8; 90] = [
    0x46, 0, 0, 0, 12, 1, 3, // F
    0x52, 0, 0, 0, 1, 0, 0, 0, 4, 0, 0, 0, 4, 0, 0, 0, 0, // R
    0x52, 0, 0, 0, 2, 0, 0, 0, 6, 0, 0, 0, 6, 0, 0, 0, 1, // R
    0x52, 0, 0, 0, 3, 0, 0, 0, 12, 0, 0, 0, 12, 0, 0, 0, 0, // R
    0x41, 0, 0, 0, 1, 0, 0, 0, 1, // A
    0x41, 0, 0, 0, 3, 0, 0, 0, 1, // A
    0x41, 0, 0, 0, 11, 0, 0, 0, 4, // A
    0x5A, 0, 0, 0, 7, // Z
];

// How many bytes of the worked leaf are its sheet.
const SHEET: usize = 58;

#[test]
fn sheet_at_once(rt: HostRuntime) -> Result<(), Fail> {
    let mut reader = &WORKED[..SHEET];
    let mut writer = Vec::new(rt.alloc());
    run(&mut reader, &mut writer)?;
    assert_eq!(rt; writer.as_slice(), WORKED.as_slice());
    assert!(rt; reader.is_empty());
    Ok(())
}

#[test]
fn sheet_byte_by_byte(rt: HostRuntime) -> Result<(), Fail> {
    let mut writer = Taker::of(rt.alloc(), WORKED.len(), None);
    run(&mut Giver::of(&WORKED[..SHEET], None), &mut writer)?;
    assert_eq!(rt; writer.bytes.as_slice(), WORKED.as_slice());
    Ok(())
}

#[test]
fn endless_input(rt: HostRuntime) -> Result<(), Fail> {
    let mut writer = Vec::new(rt.alloc());
    run(&mut io::repeat(b'F'), &mut writer)?;
    run(&mut (&WORKED[..SHEET]).chain(io::repeat(0)), &mut writer)?;
    let answers = [b'X', 1, 0, 0, 0, 0, b'X', 14, 0, 0, 0, 58];
    assert_eq!(rt; writer.as_slice(), answers.as_slice());
    Ok(())
}

#[test]
fn failed_reads(rt: HostRuntime) -> Result<(), Fail> {
    for given in 0..=SHEET {
        let mut writer = Taker::of(rt.alloc(), WORKED.len(), None);
        let result = run(
            &mut Giver::of(&WORKED[..given], Some(ErrorKind::ConnectionReset)),
            &mut writer,
        );
        let Err(failure) = result else {
            return Err(Fail::from("read past an error"));
        };
        assert_eq!(rt;
            told(&failure),
            (true, ErrorKind::ConnectionReset),
            "after {given}"
        );
        assert!(rt; writer.bytes.is_empty(), "after {given}");
    }
    Ok(())
}

#[test]
fn failed_writes(rt: HostRuntime) -> Result<(), Fail> {
    for (fails, kind) in [
        (None, ErrorKind::WriteZero),
        (Some(ErrorKind::StorageFull), ErrorKind::StorageFull),
    ] {
        for room in 0..WORKED.len() {
            let mut writer = Taker::of(rt.alloc(), room, fails);
            let result = run(&mut Giver::of(&WORKED[..SHEET], None), &mut writer);
            let Err(failure) = result else {
                return Err(Fail::from("written past an error"));
            };
            assert_eq!(rt; told(&failure), (false, kind), "after {room}");
            assert_eq!(rt; writer.bytes.as_slice(), &WORKED[..room], "after {room}");
        }
    }
    Ok(())
}

#[test]
fn failed_flush(rt: HostRuntime) -> Result<(), Fail> {
    let mut writer = Taker::of(rt.alloc(), WORKED.len(), None);
    writer.flush = Some(ErrorKind::BrokenPipe);
    let result = run(&mut Giver::of(&WORKED[..SHEET], None), &mut writer);
    let Err(failure) = result else {
        return Err(Fail::from("flushed past an error"));
    };
    assert_eq!(rt; told(&failure), (false, ErrorKind::BrokenPipe));
    assert_eq!(rt; writer.bytes.as_slice(), WORKED.as_slice());
    Ok(())
}
