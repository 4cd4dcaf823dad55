// What another crate than `script` can do with a case: read the numbers that stand before something else, and build a case of its own parts.

use super::*;

#[test]
fn numbers_before_something_else(rt: HostRuntime) {
    let case = script::read(b"insert x45 1 2 three 4");
    assert!(rt; case.is_there());
    assert!(rt; !case.whole);
    assert!(rt; case.given().is_none());
    assert_eq!(rt; case.bytes(), [0x45u8].as_slice());
    assert_eq!(rt; case.given[..case.given_count], [1u32, 2][..]);
}

#[test]
fn sixteen_of_seventeen_numbers(rt: HostRuntime) {
    let case = script::read(b"read 1 2 3 4 5 6 7 8 9 10 11 12 13 14 15 16 17");
    assert!(rt; !case.whole);
    assert_eq!(rt;
        case.given[..case.given_count],
        [1u32, 2, 3, 4, 5, 6, 7, 8, 9, 10, 11, 12, 13, 14, 15, 16][..]
    );
}

#[test]
fn a_case_of_ones_own(rt: HostRuntime) {
    let case = Case {
        word: b"room",
        wanted: first(3),
        bytes: [0; 128],
        byte_count: 0,
        given: padded(&[3, 7]),
        given_count: 2,
        whole: true,
    };
    let mut words = [0u32; 4];
    assert!(rt; case.is_there());
    assert_eq!(rt;
        answers(Call::of(case.word), &case, &mut words),
        case.wanted
    );
    assert_eq!(rt; words, [7u32; 4]);
}

#[test]
fn bytes_of_ones_own(rt: HostRuntime) {
    let read = script::read(b"header x4500001c0000000040010000c0a801090a0000050800000000000000");
    let cut = Case {
        word: read.word,
        wanted: read.wanted,
        bytes: read.bytes,
        byte_count: 19,
        given: read.given,
        given_count: read.given_count,
        whole: read.whole,
    };
    let mut words = [0u32; 4];
    assert_eq!(rt;
        answers(Some(Call::Header), &read, &mut words),
        padded(&[0, 167772165, 3232235785, 1, 0, 0, 1])
    );
    assert_eq!(rt; answers(Some(Call::Header), &cut, &mut words), first(7));
}
