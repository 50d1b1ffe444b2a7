// Lines of progress by hand, by times of a clock that are given.

use run_progress::{Count, progress_words};
use std::alloc::Global;
use std::test::Fail;
use view_commands::{calls_words, is_large, size_words};

// What is told of three slices, which begin and are finished at these times, and when the work ends.
fn lines_at(alloc: Global, count: &Count, times: &[u64]) -> Result<String, Fail> {
    let mut output_of = Vec::new(alloc);
    for time in times {
        if let Some(line) = count.finish(alloc, *time) {
            output_of.extend_from_slice(&line)?;
        }
    }
    if count.end() {
        output_of.extend_from_slice(b"!")?;
    }
    Ok(String::from_utf8(output_of)?)
}

// When three slices are begun, when each is finished, and what is told, with a mark where a line stands in the end.
const TIMES: &[(u64, &[u64], &str)] = &[
    (0, &[], ""),
    (0, &[1, 2, 3], ""),
    (700, &[1000, 2699, 2699], ""),
    (700, &[1000, 2699, 2700], "\rtacview: 3 of 3 slices\x1b[K!"),
    (0, &[2000, 2001, 2099], "\rtacview: 1 of 3 slices\x1b[K!"),
    (
        0,
        &[2000, 2099, 2100],
        "\rtacview: 1 of 3 slices\x1b[K\rtacview: 3 of 3 slices\x1b[K!",
    ),
    (9, &[8, 5000, 7], "\rtacview: 2 of 3 slices\x1b[K!"),
];

#[test]
fn lines_by_the_clock(rt: HostRuntime) -> Result<(), Fail> {
    for (begun, times, want) in TIMES {
        let count = Count::new("tacview");
        count.begin(3, *begun);
        let output_of = lines_at(rt.alloc(), &count, times)?;
        assert_eq!(rt; output_of.as_str(), *want, "{times:?}");
    }
    Ok(())
}

// Later work is told from its first slice on, and counted from 0.
#[test]
fn lines_of_later_work(rt: HostRuntime) -> Result<(), Fail> {
    let count = Count::new("tacview");
    count.begin(2, 1);
    let first = lines_at(rt.alloc(), &count, &[5, 1900])?;
    assert_eq!(rt; first.as_str(), "");
    count.begin(4, 2000);
    let second = lines_at(rt.alloc(), &count, &[2000, 2001])?;
    assert_eq!(rt; second.as_str(), "\rtacview: 2 of 4 slices\x1b[K!");
    assert!(rt; !count.end());
    Ok(())
}

const NUMBERS: &[(u32, u32, &str)] = &[
    (0, 0, "tacview: 0 of 0 slices"),
    (1, 1, "tacview: 1 of 1 slices"),
    (37, 128, "tacview: 37 of 128 slices"),
    (
        u32::MAX,
        u32::MAX,
        "tacview: 4294967295 of 4294967295 slices",
    ),
];

#[test]
fn numbers_in_words(rt: HostRuntime) -> Result<(), Fail> {
    for (finished, slices, want) in NUMBERS {
        let words = progress_words(rt.alloc(), "tacview", *finished, *slices)?;
        assert_eq!(rt; words.as_slice(), want.as_bytes());
    }
    Ok(())
}

#[test]
fn large_pictures_in_words(rt: HostRuntime) -> Result<(), Fail> {
    assert!(rt; !is_large(400) && is_large(401));
    let words = size_words(rt.alloc(), 401)?;
    let want: &[u8] =
        b"tacview: 401 points are many for a picture: --procedure NAME draws one procedure, --format html makes a page\n";
    assert_eq!(rt; words.as_slice(), want);
    let words = calls_words(rt.alloc(), 401)?;
    let want: &[u8] = b"tacview: 401 procedures are many for a picture\n";
    assert_eq!(rt; words.as_slice(), want);
    Ok(())
}
