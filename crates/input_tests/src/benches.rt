use answers::Numbered;
use input::{Bench, Input, Refusal, SliceInput};
use replay::{Call, replay};

fn front<I: Input>(input: &I) -> [Option<u8>; 4] {
    [input.byte(0), input.byte(1), input.byte(2), input.byte(3)]
}

#[test]
fn the_latest_patch_shows(rt: HostRuntime) {
    let mut bench = Bench::new(SliceInput::new(&[0, 0, 0]));
    assert_eq!(rt; bench.patch(1, &[0x11, 0x22]), Ok(()));
    assert_eq!(rt; bench.patch(2, &[0x33]), Ok(()));
    assert_eq!(rt; front(&bench), [Some(0), Some(0x11), Some(0x33), None]);
    assert_eq!(rt; bench.undo(), Ok(()));
    assert_eq!(rt; front(&bench), [Some(0), Some(0x11), Some(0x22), None]);
    assert_eq!(rt; bench.patch(2, &[0x11, 0x22]), Err(Refusal::PatchPlace));
    assert_eq!(rt; front(&bench), [Some(0), Some(0x11), Some(0x22), None]);
    assert_eq!(rt;
        front(&bench.into_below()),
        [Some(0), Some(0), Some(0), None]
    );
}

#[test]
fn lengths_and_places(rt: HostRuntime) {
    let mut bench = Bench::new(SliceInput::new(&[0; 8]));
    assert_eq!(rt; bench.patch(0, &[]), Err(Refusal::PatchLength));
    assert_eq!(rt; bench.patch(usize::MAX, &[]), Err(Refusal::PatchLength));
    assert_eq!(rt; bench.patch(0, &[1; 9]), Err(Refusal::PatchLength));
    assert_eq!(rt; bench.patch(0, &[1; 8]), Ok(()));
    assert_eq!(rt; bench.patch(1, &[1; 8]), Err(Refusal::PatchPlace));
    assert_eq!(rt; bench.patch(7, &[1]), Ok(()));
    assert_eq!(rt; bench.patch(8, &[1]), Err(Refusal::PatchPlace));
    assert_eq!(rt; bench.patch(usize::MAX, &[1]), Err(Refusal::PatchPlace));
    assert_eq!(rt;
        bench.patch(usize::MAX - 1, &[1; 8]),
        Err(Refusal::PatchPlace)
    );
}

#[test]
fn the_table_is_full(rt: HostRuntime) {
    let mut bench = Bench::new(SliceInput::new(&[0]));
    assert_eq!(rt; bench.undo(), Err(Refusal::NoPatch));
    for i in 0..32u8 {
        assert_eq!(rt; bench.patch(0, &[i]), Ok(()));
    }
    assert_eq!(rt; bench.byte(0), Some(31));
    assert_eq!(rt; bench.patch(0, &[99]), Err(Refusal::PatchesFull));
    assert_eq!(rt; bench.patch(1, &[99]), Err(Refusal::PatchPlace));
    assert_eq!(rt; bench.undo(), Ok(()));
    assert_eq!(rt; bench.byte(0), Some(30));
    assert_eq!(rt; bench.patch(0, &[99]), Ok(()));
    assert_eq!(rt; bench.byte(0), Some(99));
}

#[test]
fn the_numbers(rt: HostRuntime) {
    assert_eq!(rt; Refusal::PatchLength.number(), 30);
    assert_eq!(rt; Refusal::PatchPlace.number(), 31);
    assert_eq!(rt; Refusal::PatchesFull.number(), 32);
    assert_eq!(rt; Refusal::NoPatch.number(), 33);
    let accepted: Result<(), Refusal> = Ok(());
    assert_eq!(rt; accepted.number(), 0);
    let refused: Result<(), Refusal> = Err(Refusal::NoPatch);
    assert_eq!(rt; refused.number(), 33);
}

#[test]
fn calls_are_replayed(rt: HostRuntime) {
    let calls = [
        Call::Undo,
        Call::Patch {
            place: 1,
            bytes: b"xy",
        },
        Call::Patch {
            place: 3,
            bytes: b"z",
        },
        Call::Patch {
            place: 2,
            bytes: b"w",
        },
        Call::Undo,
    ];
    let mut answers = [Ok(()); 6];
    let bench = replay(SliceInput::new(b"abc"), &calls, &mut answers);
    assert_eq!(rt; front(&bench), [Some(b'a'), Some(b'x'), Some(b'y'), None]);
    assert_eq!(rt; answers[0], Err(Refusal::NoPatch));
    assert_eq!(rt; answers[1], Ok(()));
    assert_eq!(rt; answers[2], Err(Refusal::PatchPlace));
    assert_eq!(rt; answers[4], Ok(()));
}

#[test]
fn answers_past_the_table_are_dropped(rt: HostRuntime) {
    let calls = [
        Call::Undo,
        Call::Patch {
            place: 0,
            bytes: b"x",
        },
    ];
    let mut answers = [Ok(()); 1];
    let bench = replay(SliceInput::new(b"abc"), &calls, &mut answers);
    assert_eq!(rt; bench.byte(0), Some(b'x'));
    assert_eq!(rt; answers[0], Err(Refusal::NoPatch));
}
