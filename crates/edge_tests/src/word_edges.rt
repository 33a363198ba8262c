// House words at their edges: each word of a row broken in turn, and buffers of every awkward length.
use bounds::Bound;
use faults::{Fault, Layer};
use std::alloc::Global;
use std::test::Fail;
use words::{BoundWords, WordFault, check as check_words, round_trip};

const ROW: [u32; 3] = [0x4000_0001, 0xbfff_ffec, 0xc000_0000];

fn at(place: u64) -> WordFault {
    WordFault::Word { place }
}

#[test]
fn words_of_bounds(rt: HostRuntime) -> Result<(), Fail> {
    let table = [
        ([0, 1, -20, 0], ROW),
        ([0, 0, 0, 0], [0x4000_0000, 0x8000_0000, 0xc000_0000]),
        ([4095, 4095, -1, 1], [0x40ff_ffff, 0xbfff_ffff, 0xc000_0001]),
        (
            [1, 0, 500_000_000, -500_000_000],
            [0x4000_1000, 0x9dcd_6500, 0xe232_9b00],
        ),
    ];
    for ([left, right, t, s], words) in table {
        let bound = Bound::new(left, right, t, s)?;
        let words = BoundWords(words);
        let told = (
            BoundWords::from(bound),
            Bound::try_from(words),
            round_trip(bound),
        );
        assert_eq!(rt; told, (words, Ok(bound), Ok(bound)));
    }
    Ok(())
}

#[test]
fn each_word_broken(rt: HostRuntime) {
    let table = [
        ([0, 0xbfff_ffec, 0xc000_0000], 0),
        ([0x0000_0001, 0xbfff_ffec, 0xc000_0000], 0),
        ([0x4100_0001, 0xbfff_ffec, 0xc000_0000], 0),
        ([0x6000_0001, 0xbfff_ffec, 0xc000_0000], 0),
        ([0xc000_0001, 0, 0], 0),
        ([0x4000_0001, 0x9dcd_6501, 0xc000_0000], 1),
        ([0x4000_0001, 0xa232_9aff, 0xc000_0000], 1),
        ([0x4000_0001, 0xc000_0000, 0xc000_0000], 1),
        ([0x4000_0001, 0x4000_0001, 0], 1),
        ([0x4000_0001, 0xbfff_ffec, 0xddcd_6501], 2),
        ([0x4000_0001, 0xbfff_ffec, 0xe232_9aff], 2),
        ([0x4000_0001, 0xbfff_ffec, 0x8000_0000], 2),
    ];
    for (words, place) in table {
        assert_eq!(rt; Bound::try_from(BoundWords(words)), Err(at(place)));
    }
}

// A buffer is the front of nine words.
#[test]
fn short_buffers(rt: HostRuntime) {
    let [head, t, s] = ROW;
    let table: [([u32; 9], usize, Result<usize, WordFault>); 11] = [
        ([7; 9], 0, Ok(0)),
        (
            [head, 7, 7, 7, 7, 7, 7, 7, 7],
            1,
            Err(WordFault::Length { words: 1 }),
        ),
        (
            [0, 0, 7, 7, 7, 7, 7, 7, 7],
            2,
            Err(WordFault::Length { words: 2 }),
        ),
        (
            [head, t, s, head, 7, 7, 7, 7, 7],
            4,
            Err(WordFault::Length { words: 4 }),
        ),
        ([0, 7, 7, 7, 7, 7, 7, 7, 7], 3, Ok(0)),
        ([head, t, s, 7, 7, 7, 7, 7, 7], 3, Ok(1)),
        ([head, t, s, 0, 7, 7, 7, 7, 7], 6, Ok(1)),
        ([head, t, s, 0, 7, 7, 1, 1, 1], 9, Ok(1)),
        ([head, t, s, 7, t, s, 7, 7, 7], 6, Err(at(3))),
        ([head, t, s, head, s, s, 7, 7, 7], 6, Err(at(4))),
        ([head, t, s, head, t, t, 7, 7, 7], 6, Err(at(5))),
    ];
    for (words, length, answer) in table {
        assert_eq!(rt; words.get(..length).map(check_words), Some(answer));
    }
}

// Room for so many bounds, full of one bound, and then the words that follow it.
fn buffer(heap: Global, bounds: usize, after: &[u32]) -> Result<Vec<u32>, Fail> {
    let mut words = Vec::new(heap);
    for _ in 0..bounds {
        words.extend_from_slice(&ROW)?;
    }
    words.extend_from_slice(after)?;
    Ok(words)
}

#[test]
fn the_longest_buffers(rt: HostRuntime) -> Result<(), Fail> {
    let heap = rt.alloc();
    let table: [(usize, &[u32], usize, Result<usize, WordFault>); 4] = [
        (
            65_534,
            &[0x4000_0001, 0x9dcd_6501, 0xc000_0000],
            196_605,
            Err(at(196_603)),
        ),
        (65_535, &[], 196_605, Ok(65_535)),
        (65_535, &[7, 7, 7], 196_608, Ok(65_535)),
        (
            65_535,
            &[7, 7, 7, 7],
            196_609,
            Err(WordFault::Length { words: 196_609 }),
        ),
    ];
    for (bounds, after, length, answer) in table {
        let words = buffer(heap, bounds, after)?;
        assert_eq!(rt;
            (words.len(), check_words(words.as_slice())),
            (length, answer)
        );
    }
    Ok(())
}

#[test]
fn faults_of_words(rt: HostRuntime) {
    let told = Fault {
        number: 13,
        layer: Layer::Books,
        place: 4,
    };
    let faults = (
        Fault::from(WordFault::Length { words: 4 }),
        Fault::from(at(4)),
    );
    assert_eq!(rt; faults, (told, told));
}
