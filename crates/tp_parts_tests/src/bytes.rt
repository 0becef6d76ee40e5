//! Fields and messages as bytes.

use std::alloc::{AllocError, Global};
use std::test::Fail;
use tp_base::{
    ActorName, CommandId, Cut, CutFault, Duplicate, PartitionId, Put, Rank, SessionId, Site,
};
use tp_ops::Op;
use tp_wire::{Body, Message, WireCause, WireError, WireFault, decode, encode};

const FIELDS: [u8; 16] = [
    7, 1, 2, 3, 4, 0x10, 0x20, 0x30, 0x40, 0x50, 0x60, 0x70, 0x80, b'a', b'b', b'c',
];

#[test]
fn fields_are_written(rt: HostRuntime) -> Result<(), Fail> {
    let mut put = Put::new(rt.alloc());
    put.byte(7)?;
    put.u32_be(0x0102_0304)?;
    put.u64_be(0x1020_3040_5060_7080)?;
    put.bytes(b"abc")?;
    assert_eq!(rt; put.finish().as_slice(), FIELDS.as_slice());
    Ok(())
}

#[test]
fn fields_are_cut(rt: HostRuntime) {
    let mut cut = Cut::new(&FIELDS);
    assert_eq!(rt; cut.u8_at(), Ok(7));
    assert_eq!(rt; cut.u32_be(), Ok(0x0102_0304));
    assert_eq!(rt; cut.u64_be(), Ok(0x1020_3040_5060_7080));
    assert!(rt; cut.bytes(65, 64) == Err(CutFault::TooLong { got: 65, limit: 64 }));
    assert!(rt; cut.bytes(4, 4) == Err(CutFault::Short));
    assert!(rt; cut.bytes(3, 3) == Ok(b"abc".as_slice()));
    assert_eq!(rt; cut.place(), 16);
}

// From session 1 to process 1.1: command 1.1 with home 1, `put 61 31`.
const SUBMIT: &[u8] = b"\x01\x01\x01\x01\x01\x00\x00\x00\x01\x01\x01\x02\x01a\x011";

// A message of each kind.
const KINDS: [&[u8]; 14] = [
    SUBMIT,
    b"\x02\x01\x01\x01\x02\x01\x00\x00\x00\x01\x01\x01\x02\x01a\x011\x00\x00\x00\x00\x00\x00\x00\x01",
    b"\x03\x01\x01\x01\x03\x01\x00\x00\x00\x01\x01\x01\x02\x01a\x011",
    b"\x04\x01\x02\x01\x01\x01\x00\x00\x00\x01\x00\x00\x00\x00\x00\x00\x00\x02",
    b"\x05\x01\x01\x02\x01\x01\x00\x00\x00\x01\x00\x00\x00\x00\x00\x00\x00\x03",
    b"\x06\x01\x01\x01\x01\x01\x00\x00\x00\x01\x01\x02\x01\x01a\x03\x01b\x00\x00\x00\x00\x00\x00\x01\
      \x00\x00\x00\x00\x00\x00\x00\x00\x04",
    b"\x07\x01\x01\x01\x01\x01\x00\x00\x00\x01\x00\x00\x00\x00\x00\x00\x00\x05",
    b"\x08\x04\x07\x04\x06\x10\x00\x00\x00\x02\x07\x04\x01\x01b\x02\x01a\x00\x03\x02cd\x04\x01a\x011\
      \x0223\x03\x00\x00\x00\x00\x00\x00\x00\x09",
    b"\x09\x01\x03\x01\x02\x01\x00\x00\x00\x01\x01\x01\x02\x01a\x011\x00\x00\x00\x00\x00\x00\x00\x06",
    b"\x0a\x01\x03\x01\x02\x01\x00\x00\x03\xe8\x00\x00\xff\xff\xff\xff\xff\xff\x01\x00\x00\x00\x00\
      \x00\x00\x00\x00\x00\x00\x00\x00\x00\x00\x00\x06",
    b"\x0b\x01\x01\x01\x01\x00\x00\x00\x00\x00\x00\x00\x00\x00\x00\x00\x00\x00\x00\x00\x03\x00\x00\
      \x00\x02\x01\x00\x00\x00\x01\x00\x00\x00\x00\x00\x00\x00\x01\x02\x00\x00\x00\x01\x00\x00\x00\
      \x00\x00\x00\x00\x03",
    b"\x0c\x01\x01\x01\x01\x01\x00\x00\x00\x01\x01\x01\x02\x01a\x011\x00\x00\x00\x00\x00\x00\x00\x01",
    b"\x0d\x01\x01\x02\x01\x01\x00\x00\x00\x01",
    b"\x0e\x01\x03\x02\x02\x00\x00\x00\x07\x01\x05\x01\x02\x011\x02\x00\x03\x04",
];

// Whether bytes are decoded, and a copy of their message is encoded as they are.
fn is_decoded(alloc: Global, bytes: &[u8]) -> Result<bool, Fail> {
    let message = decode(alloc, bytes)?.copy()?;
    Ok(encode(alloc, &message)?.as_slice() == bytes)
}

#[test]
fn each_kind_of_message_is_decoded_and_encoded(rt: HostRuntime) -> Result<(), Fail> {
    for bytes in KINDS {
        assert!(rt; is_decoded(rt.alloc(), bytes)?, "{bytes:?}");
    }
    Ok(())
}

// Whether it is what SUBMIT says.
fn is_submitted(message: &Message) -> bool {
    let site = Site {
        partition: PartitionId(1),
        rank: Rank(1),
    };
    let id = CommandId {
        session: SessionId(1),
        number: 1,
    };
    let ends = message.from == ActorName::Session(SessionId(1))
        && message.to == ActorName::Process(site);
    match &message.body {
        Body::MSubmit { command } => match command.ops.as_slice() {
            [Op::Put { key, value }] => {
                ends && command.id == id
                    && command.home == Rank(1)
                    && key.as_slice() == b"a".as_slice()
                    && value.as_slice() == b"1".as_slice()
            }
            _ => false,
        },
        _ => false,
    }
}

fn changed(alloc: Global, place: usize, byte: u8) -> Result<Vec<u8>, AllocError> {
    let mut bytes = Vec::from_slice(alloc, SUBMIT)?;
    if let Some(old) = bytes.get_mut(place) {
        *old = byte;
    }
    Ok(bytes)
}

// Whether bytes are refused, at this place.
fn is_refused(alloc: Global, bytes: &[u8], place: u64, cause: WireCause) -> bool {
    decode(alloc, bytes).err() == Some(WireError::Fault(WireFault { place, cause }))
}

#[test]
fn a_submission_and_faults_in_it(rt: HostRuntime) -> Result<(), Fail> {
    let alloc = rt.alloc();
    assert!(rt; is_submitted(&decode(alloc, SUBMIT)?));
    assert!(rt; is_refused(alloc, &SUBMIT[..15], 15, WireCause::Short));
    Ok(())
}

#[test]
fn a_changed_byte_is_refused(rt: HostRuntime) -> Result<(), Fail> {
    let kind = changed(rt.alloc(), 0, 15)?;
    assert!(rt; is_refused(rt.alloc(), kind.as_slice(), 0, WireCause::Kind));
    let rank = changed(rt.alloc(), 3, 8)?;
    assert!(rt; is_refused(rt.alloc(), rank.as_slice(), 3, WireCause::Range));
    Ok(())
}

#[test]
fn a_byte_too_many_is_refused(rt: HostRuntime) -> Result<(), Fail> {
    let mut longer = Vec::from_slice(rt.alloc(), SUBMIT)?;
    longer.push(0)?;
    assert!(rt; is_refused(rt.alloc(), longer.as_slice(), 16, WireCause::Trailing));
    Ok(())
}
