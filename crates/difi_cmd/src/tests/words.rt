use crate::options::WordsFault;
use crate::words::{Line, ListOptions, line_of};
use difi_texts::Listing;
use std::alloc::{AllocError, Global};
use std::test::Fail;

// What these words ask for.
fn read(alloc: Global, words: &[&str]) -> Result<Result<Line, WordsFault>, AllocError> {
    let mut owned = Vec::new(alloc);
    for word in words {
        owned.push(String::from_str(alloc, *word)?)?;
    }
    Ok(line_of(alloc, &owned))
}

const USAGE: Result<Line, WordsFault> = Err(WordsFault::Usage);

// A check of so many bytes at most.
fn check(max_bytes: u64) -> Result<Line, WordsFault> {
    Ok(Line::List(ListOptions {
        listing: Listing::Check,
        max_bytes,
    }))
}

#[test]
fn the_first_word_names_the_listing(rt: HostRuntime) -> Result<(), Fail> {
    let alloc = rt.alloc();
    assert_eq!(rt; read(alloc, &[])?, USAGE);
    assert_eq!(rt; read(alloc, &["paint"])?, USAGE);
    assert_eq!(rt; read(alloc, &["--max-bytes=5", "check"])?, USAGE);
    Ok(())
}

#[test]
fn without_the_option_its_default_holds(rt: HostRuntime) -> Result<(), Fail> {
    let alloc = rt.alloc();
    let show = ListOptions {
        listing: Listing::Show,
        max_bytes: 1_099_511_627_776,
    };
    assert_eq!(rt; read(alloc, &["show"])?, Ok(Line::List(show)));
    assert_eq!(rt; read(alloc, &["check"])?, check(1_099_511_627_776));
    Ok(())
}

#[test]
fn replay_has_no_other_option_so_far(rt: HostRuntime) -> Result<(), Fail> {
    let alloc = rt.alloc();
    let max_bytes = 1_099_511_627_776;
    assert_eq!(rt; read(alloc, &["replay"])?, Ok(Line::Replay { max_bytes }));
    let line = ["replay", "--max-bytes", "331"];
    assert_eq!(rt; read(alloc, &line)?, Ok(Line::Replay { max_bytes: 331 }));
    assert_eq!(rt; read(alloc, &["replay", "--ring", "1"])?, USAGE);
    assert_eq!(rt; read(alloc, &["replay", "--stages=3"])?, USAGE);
    Ok(())
}

#[test]
fn a_value_stands_in_one_word_or_in_two(rt: HostRuntime) -> Result<(), Fail> {
    let alloc = rt.alloc();
    assert_eq!(rt; read(alloc, &["check", "--max-bytes=332"])?, check(332));
    assert_eq!(rt;
        read(alloc, &["check", "--max-bytes", "00332"])?,
        check(332)
    );
    assert_eq!(rt; read(alloc, &["check", "--max-bytes"])?, USAGE);
    assert_eq!(rt; read(alloc, &["check", "--max-bytes="])?, USAGE);
    assert_eq!(rt; read(alloc, &["check", "--max-bytes", "-5"])?, USAGE);
    assert_eq!(rt; read(alloc, &["check", "--max-bytes", "5", "6"])?, USAGE);
    Ok(())
}

#[test]
fn a_value_has_up_to_nineteen_digits(rt: HostRuntime) -> Result<(), Fail> {
    let alloc = rt.alloc();
    let short = ["check", "--max-bytes", "0000000000000000332"];
    assert_eq!(rt; read(alloc, &short)?, check(332));
    let long = ["check", "--max-bytes", "00000000000000000332"];
    assert_eq!(rt; read(alloc, &long)?, USAGE);
    assert_eq!(rt; read(alloc, &["check", "--max-bytes=+5"])?, USAGE);
    assert_eq!(rt; read(alloc, &["check", "--max-bytes=0x5"])?, USAGE);
    Ok(())
}

#[test]
fn a_value_is_in_its_range(rt: HostRuntime) -> Result<(), Fail> {
    let alloc = rt.alloc();
    assert_eq!(rt; read(alloc, &["check", "--max-bytes", "0"])?, USAGE);
    assert_eq!(rt; read(alloc, &["check", "--max-bytes", "1"])?, check(1));
    let greatest = ["check", "--max-bytes=4611686018427387904"];
    assert_eq!(rt; read(alloc, &greatest)?, check(4_611_686_018_427_387_904));
    let above = ["check", "--max-bytes=4611686018427387905"];
    assert_eq!(rt; read(alloc, &above)?, USAGE);
    Ok(())
}

#[test]
fn other_words_are_no_options(rt: HostRuntime) -> Result<(), Fail> {
    let alloc = rt.alloc();
    let twice = ["check", "--max-bytes=5", "--max-bytes", "5"];
    assert_eq!(rt; read(alloc, &twice)?, USAGE);
    assert_eq!(rt; read(alloc, &["check", "--"])?, USAGE);
    assert_eq!(rt; read(alloc, &["check", "--max", "5"])?, USAGE);
    assert_eq!(rt; read(alloc, &["check", "--help"])?, USAGE);
    assert_eq!(rt; read(alloc, &["check", "--version"])?, USAGE);
    assert_eq!(rt; read(alloc, &["check", "-h"])?, USAGE);
    assert_eq!(rt; read(alloc, &["check", "5"])?, USAGE);
    Ok(())
}
