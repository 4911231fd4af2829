//! The bytes of one window, cut in every way, and what is refused.
use super::{Decoder, Message, WireFault, first_message, payload_number, write, write_payload};
use apx_tuple::{Key, Tuple};
use std::alloc::{AllocError, Global};
use std::process::Abort;
use std::test::Fail;

/// Window 1 over base 1,000,000,000 with the rows `a` 2 and `b` 1.
const WINDOW: [u8; 55] = [
    5, 0x3b, 0x9a, 0xca, 0x00, // Reset
    2, 0x3b, 0x9a, 0xca, 0x00, 0, 0, 0, 0, // Begin
    1, 0, 0, 0, 0x61, 0, 1, 0x61, 0, 0, 0, 0, 0, 0, 0, 2, // a 2
    1, 0, 0, 0, 0x62, 0, 1, 0x62, 0, 0, 0, 0, 0, 0, 0, 1, // b 1
    3, 0x3b, 0x9a, 0xca, 0x00, 0, 0, 0, 0, // End
];

/// The id of that window.
const FIRST: u64 = 4_294_967_296_000_000_000;

fn payload(alloc: Global, key: &[u8], value: i64) -> Result<Message, Fail> {
    Ok(Message::Payload(Tuple {
        key: Key::of(alloc, key)?,
        value,
    }))
}

fn window(alloc: Global) -> Result<Vec<Message>, Fail> {
    let mut messages = Vec::new(alloc);
    messages.push(Message::Reset(1_000_000_000))?;
    messages.push(Message::Begin(FIRST))?;
    messages.push(payload(alloc, b"a", 2)?)?;
    messages.push(payload(alloc, b"b", 1)?)?;
    messages.push(Message::End(FIRST))?;
    Ok(messages)
}

fn feed(rt: &impl Abort, decoder: &mut Decoder, piece: &[u8]) -> Result<(), WireFault> {
    assert!(rt; decoder.fed() < 1000);
    assert!(rt; piece.len() < 1000);
    decoder.feed(piece)
}

/// Adds what the decoder hands out.
fn hand_out(decoder: &mut Decoder, into: &mut Vec<Message>) -> Result<(), AllocError> {
    while let Some(message) = decoder.next() {
        into.push(message)?;
    }
    Ok(())
}

#[test]
fn messages_are_written_as_they_are_spelled(rt: HostRuntime) -> Result<(), Fail> {
    let mut bytes = Vec::new(rt.alloc());
    for message in &window(rt.alloc())? {
        write(message, &mut bytes)?;
    }
    assert_eq!(rt; bytes.as_slice(), WINDOW.as_slice());
    bytes.clear();
    write(&payload(rt.alloc(), b"", -2)?, &mut bytes)?;
    write(&Message::Checkpoint(1), &mut bytes)?;
    write(&Message::EndOfStream, &mut bytes)?;
    assert_eq!(rt; bytes.as_slice(), [
        1, 0, 0, 0, 0, 0, 0, 255, 255, 255, 255, 255, 255, 255, 254, // "" -2
        4, 0, 0, 0, 0, 0, 0, 0, 1, // Checkpoint
        6,
    ].as_slice());
    Ok(())
}

#[test]
fn any_two_pieces_give_the_same_messages(rt: HostRuntime) -> Result<(), Fail> {
    let want = window(rt.alloc())?;
    for cut in 0..=WINDOW.len() {
        let (first, second) = WINDOW.split_at(cut);
        let mut decoder = Decoder::new(rt.alloc());
        let mut messages = Vec::new(rt.alloc());
        feed(&rt, &mut decoder, first)?;
        hand_out(&mut decoder, &mut messages)?;
        let early = messages.len();
        let whole = [5, 14, 30, 46, 55]
            .iter()
            .filter(|end| **end <= cut)
            .count();
        assert_eq!(rt; early, whole, "cut at {cut}");
        feed(&rt, &mut decoder, second)?;
        hand_out(&mut decoder, &mut messages)?;
        assert_eq!(rt; messages.as_slice(), want.as_slice(), "cut at {cut}");
        assert_eq!(rt; decoder.fed(), 55);
    }
    Ok(())
}

#[test]
fn single_bytes_give_the_same_messages(rt: HostRuntime) -> Result<(), Fail> {
    let mut decoder = Decoder::new(rt.alloc());
    let mut messages = Vec::new(rt.alloc());
    for byte in &WINDOW {
        feed(&rt, &mut decoder, &[*byte])?;
        hand_out(&mut decoder, &mut messages)?;
    }
    assert_eq!(rt; messages.as_slice(), window(rt.alloc())?.as_slice());
    Ok(())
}

/// The window's bytes with another byte at one place.
fn changed(alloc: Global, place: usize, byte: u8) -> Result<Vec<u8>, AllocError> {
    let mut bytes = Vec::from_slice(alloc, &WINDOW)?;
    if let Some(old) = bytes.get_mut(place) {
        *old = byte;
    }
    Ok(bytes)
}

#[test]
fn the_first_fault_is_told_however_the_stream_is_cut(rt: HostRuntime) -> Result<(), Fail> {
    for (place, byte, fault) in [
        (0, 7, WireFault::BadType { at: 0 }),
        (14, 0, WireFault::BadType { at: 14 }),
        (18, 0x62, WireFault::BadNumber { at: 14 }),
        (19, 4, WireFault::BadKey { at: 14 }),
        (0, 6, WireFault::BadType { at: 1 }),
        (9, 1, WireFault::BadOrder { at: 5 }),
        (13, 1, WireFault::BadOrder { at: 5 }),
        (37, 3, WireFault::BadNumber { at: 30 }),
        (54, 1, WireFault::BadOrder { at: 46 }),
        (46, 4, WireFault::BadOrder { at: 46 }),
    ] {
        let bytes = changed(rt.alloc(), place, byte)?;
        for cut in 0..=bytes.len() {
            let (first, second) = bytes.split_at(cut);
            let mut decoder = Decoder::new(rt.alloc());
            let told = feed(&rt, &mut decoder, first);
            let taken = decoder.fed();
            let told = match told {
                Ok(()) => feed(&rt, &mut decoder, second),
                Err(fault) => Err(fault),
            };
            assert_eq!(rt; told.err().as_ref(), Some(&fault), "cut at {cut}");
            assert_eq!(rt; decoder.fed(), taken, "cut at {cut}");
        }
    }
    Ok(())
}

fn control(kind: u8, number: u32) -> Message {
    match kind {
        2 => Message::Begin(u64::from(number)),
        3 => Message::End(u64::from(number)),
        4 => Message::Checkpoint(u64::from(number)),
        5 => Message::Reset(number),
        _ => Message::EndOfStream,
    }
}

#[test]
fn the_last_message_is_in_order_or_refused_at_its_place(rt: HostRuntime) -> Result<(), Fail> {
    for (front, last, in_order) in [
        ([].as_slice(), (2, 15999), true),
        ([].as_slice(), (2, 16000), false),
        ([].as_slice(), (3, 0), false),
        ([(2, 7)].as_slice(), (3, 7), true),
        ([(2, 7)].as_slice(), (3, 8), false),
        ([(2, 7)].as_slice(), (2, 8), false),
        ([(2, 7), (3, 7)].as_slice(), (2, 8), true),
        ([(2, 7), (3, 7)].as_slice(), (2, 9), false),
        ([(2, 7), (3, 7)].as_slice(), (4, 7), true),
        ([(2, 7), (3, 7)].as_slice(), (4, 8), false),
        ([(2, 7), (3, 7), (4, 7)].as_slice(), (4, 7), false),
        ([(2, 7), (3, 7)].as_slice(), (5, 8000), false),
        ([(2, 15999), (3, 15999)].as_slice(), (2, 16000), false),
        ([(2, 15999), (3, 15999)].as_slice(), (5, 8000), true),
        ([(2, 15999), (3, 15999)].as_slice(), (5, 8001), false),
        ([(5, 0)].as_slice(), (2, 0), true),
        ([(5, 0)].as_slice(), (2, 1), false),
        ([(5, 0)].as_slice(), (6, 0), false),
        ([(6, 0)].as_slice(), (6, 0), false),
    ] {
        let mut bytes = Vec::new(rt.alloc());
        for (kind, number) in front {
            write(&control(*kind, *number), &mut bytes)?;
        }
        let at = bytes.len() as u64;
        write(&control(last.0, last.1), &mut bytes)?;
        let mut decoder = Decoder::new(rt.alloc());
        let told = feed(&rt, &mut decoder, &bytes);
        let want = if in_order {
            None
        } else {
            Some(WireFault::BadOrder { at })
        };
        assert_eq!(rt; told.err(), want, "{last:?} behind {front:?}");
    }
    Ok(())
}

#[test]
fn payloads_come_inside_a_window_in_ascending_order(rt: HostRuntime) -> Result<(), Fail> {
    let mut first = Decoder::new(rt.alloc());
    let (_, rows) = WINDOW.split_at(14);
    assert_eq!(rt;
        feed(&rt, &mut first, rows).err(),
        Some(WireFault::BadOrder { at: 0 })
    );
    for (key, value, in_order) in [
        ("b", 1, true),
        ("b", 0, false),
        ("a", 9, false),
        ("ba", -9, true),
    ] {
        let (front, _) = WINDOW.split_at(46);
        let mut decoder = Decoder::new(rt.alloc());
        feed(&rt, &mut decoder, front)?;
        let mut bytes = Vec::new(rt.alloc());
        write(&payload(rt.alloc(), key.as_bytes(), value)?, &mut bytes)?;
        let want = if in_order {
            None
        } else {
            Some(WireFault::BadOrder { at: 46 })
        };
        assert_eq!(rt;
            feed(&rt, &mut decoder, &bytes).err(),
            want,
            "{key} {value}"
        );
    }
    Ok(())
}

#[test]
fn a_payload_tells_its_number_and_its_length(rt: HostRuntime) {
    assert_eq!(rt; payload_number(&WINDOW[14..]), Some((97, 16)));
    assert_eq!(rt; payload_number(&WINDOW[30..]), Some((98, 16)));
    assert_eq!(rt; payload_number(&WINDOW[5..]), None);
    assert_eq!(rt; payload_number(&WINDOW[14..20]), None);
    assert_eq!(rt; payload_number(&[]), None);
}

#[test]
fn the_message_in_front_is_read_with_its_length(rt: HostRuntime) -> Result<(), Fail> {
    let alloc = rt.alloc();
    let reset = Message::Reset(1_000_000_000);
    assert_eq!(rt; first_message(alloc, 0, &WINDOW)?, Some((reset, 5)));
    let begin = Message::Begin(FIRST);
    assert_eq!(rt; first_message(alloc, 0, &WINDOW[5..])?, Some((begin, 9)));
    let row = payload(alloc, b"a", 2)?;
    assert_eq!(rt; first_message(alloc, 0, &WINDOW[14..])?, Some((row, 16)));
    assert_eq!(rt; first_message(alloc, 0, &WINDOW[14..29])?, None);
    assert_eq!(rt; first_message(alloc, 0, &[])?, None);
    let told = first_message(alloc, 7, &[9]);
    assert_eq!(rt; told.err(), Some(WireFault::BadType { at: 7 }));
    Ok(())
}

#[test]
fn a_tuple_is_written_as_its_payload(rt: HostRuntime) -> Result<(), Fail> {
    let mut bytes = Vec::new(rt.alloc());
    let tuple = Tuple {
        key: Key::of(rt.alloc(), b"b")?,
        value: 1,
    };
    write_payload(&tuple, &mut bytes)?;
    assert_eq!(rt; bytes.as_slice(), &WINDOW[30..46]);
    Ok(())
}
