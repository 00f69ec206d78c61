ghost use Rattle.std.specs.Prelude.{◌≡◌, true};
ghost use Rattle.difi_cmd.specs.LineOfWords.{are_rows, option_rows};

use crate::options::{LeftOut, OptionRow, WordsFault, numbers_given};
use std::alloc::{AllocError, Global};
use std::test::Fail;

const RING: OptionRow = OptionRow {
    name: "ring",
    least: 1,
    greatest: 4096,
    left_out: LeftOut::Default(64),
};

const PORT: OptionRow = OptionRow {
    name: "port",
    least: 0,
    greatest: 65_535,
    left_out: LeftOut::Refused,
};

const RINGS: OptionRow = OptionRow {
    name: "rings",
    least: 3,
    greatest: 5,
    left_out: LeftOut::NoNumber,
};

// A word that stands alone, which the words must have.
const SEED: OptionRow = OptionRow {
    name: "",
    least: 0,
    greatest: 4_294_967_295,
    left_out: LeftOut::Refused,
};

type Numbers = [Option<u64>; 3];

const USAGE: Result<Numbers, WordsFault> = Err(WordsFault::Usage);

// The numbers that words behind a first one give ring, port and rings.
fn read(alloc: Global, words: &[&str]) -> Result<Result<Numbers, WordsFault>, AllocError> {
    read_rows(alloc, &[RING, PORT, RINGS], words)
}

// The numbers that they give ring, the word that stands alone, and rings.
fn read_word(alloc: Global, words: &[&str]) -> Result<Result<Numbers, WordsFault>, AllocError> {
    read_rows(alloc, &[RING, SEED, RINGS], words)
}

fn read_rows(
    alloc: Global,
    rows: &[OptionRow; 3],
    words: &[&str],
) -> Result<Result<Numbers, WordsFault>, AllocError>
    requires { are_rows (option_rows rows.now) ≡ true }
{
    let mut owned = Vec::new(alloc);
    owned.push(String::from_str(alloc, "egress")?)?;
    for word in words {
        owned.push(String::from_str(alloc, *word)?)?;
    }
    Ok(match numbers_given(alloc, rows, &owned) {
        Ok(numbers) => Ok(numbers_of(numbers.as_slice())),
        Err(fault) => Err(fault),
    })
}

fn numbers_of(numbers: &[Option<u64>]) -> Numbers {
    match numbers {
        [first, second, third] => [*first, *second, *third],
        _ => [None, None, None],
    }
}

#[test]
fn what_is_left_out_has_its_default_or_no_number(rt: HostRuntime) -> Result<(), Fail> {
    let alloc = rt.alloc();
    let numbers = [Some(64), Some(7), None];
    assert_eq!(rt; read(alloc, &["--port=7"])?, Ok(numbers));
    assert_eq!(rt; read(alloc, &["--port", "7"])?, Ok(numbers));
    Ok(())
}

#[test]
fn an_option_that_is_left_out_may_be_refused(rt: HostRuntime) -> Result<(), Fail> {
    let alloc = rt.alloc();
    assert_eq!(rt; read(alloc, &[])?, USAGE);
    assert_eq!(rt; read(alloc, &["--ring=5", "--rings=5"])?, USAGE);
    Ok(())
}

#[test]
fn each_option_has_its_own_range(rt: HostRuntime) -> Result<(), Fail> {
    let alloc = rt.alloc();
    let least = ["--ring=1", "--port=0", "--rings=3"];
    assert_eq!(rt; read(alloc, &least)?, Ok([Some(1), Some(0), Some(3)]));
    let greatest = ["--ring=4096", "--port=65535", "--rings=5"];
    assert_eq!(rt;
        read(alloc, &greatest)?,
        Ok([Some(4096), Some(65_535), Some(5)])
    );
    assert_eq!(rt; read(alloc, &["--port=0", "--ring=0"])?, USAGE);
    assert_eq!(rt; read(alloc, &["--port=0", "--ring=4097"])?, USAGE);
    assert_eq!(rt; read(alloc, &["--port=65536"])?, USAGE);
    assert_eq!(rt; read(alloc, &["--port=0", "--rings=2"])?, USAGE);
    assert_eq!(rt; read(alloc, &["--port=0", "--rings=6"])?, USAGE);
    Ok(())
}

#[test]
fn options_stand_in_any_order(rt: HostRuntime) -> Result<(), Fail> {
    let alloc = rt.alloc();
    let numbers = [Some(2), Some(7), Some(4)];
    let one = ["--rings", "4", "--ring=2", "--port", "7"];
    assert_eq!(rt; read(alloc, &one)?, Ok(numbers));
    let other = ["--port=7", "--rings=4", "--ring", "2"];
    assert_eq!(rt; read(alloc, &other)?, Ok(numbers));
    Ok(())
}

#[test]
fn each_option_stands_at_most_once(rt: HostRuntime) -> Result<(), Fail> {
    let alloc = rt.alloc();
    assert_eq!(rt; read(alloc, &["--port=7", "--port=7"])?, USAGE);
    let twice = ["--ring", "2", "--port=7", "--ring=2"];
    assert_eq!(rt; read(alloc, &twice)?, USAGE);
    Ok(())
}

#[test]
fn a_word_with_a_hyphen_is_no_value(rt: HostRuntime) -> Result<(), Fail> {
    let alloc = rt.alloc();
    assert_eq!(rt; read(alloc, &["--port", "-7"])?, USAGE);
    assert_eq!(rt; read(alloc, &["--port", "--ring", "2"])?, USAGE);
    assert_eq!(rt; read(alloc, &["--port"])?, USAGE);
    assert_eq!(rt; read(alloc, &["--port=-7"])?, USAGE);
    Ok(())
}

#[test]
fn names_are_whole(rt: HostRuntime) -> Result<(), Fail> {
    let alloc = rt.alloc();
    assert_eq!(rt; read(alloc, &["--port=7", "--rin=2"])?, USAGE);
    assert_eq!(rt; read(alloc, &["--port=7", "--por=2"])?, USAGE);
    assert_eq!(rt; read(alloc, &["--port=7", "--ports=2"])?, USAGE);
    assert_eq!(rt; read(alloc, &["--port=7", "-r", "2"])?, USAGE);
    Ok(())
}

#[test]
fn a_word_may_stand_alone(rt: HostRuntime) -> Result<(), Fail> {
    let alloc = rt.alloc();
    let numbers = [Some(2), Some(7), Some(4)];
    let one = ["7", "--ring=2", "--rings", "4"];
    assert_eq!(rt; read_word(alloc, &one)?, Ok(numbers));
    let other = ["--rings=4", "7", "--ring", "2"];
    assert_eq!(rt; read_word(alloc, &other)?, Ok(numbers));
    let last = ["--rings", "4", "--ring=2", "007"];
    assert_eq!(rt; read_word(alloc, &last)?, Ok(numbers));
    let alone = [Some(64), Some(4_294_967_295), None];
    assert_eq!(rt; read_word(alloc, &["4294967295"])?, Ok(alone));
    Ok(())
}

#[test]
fn one_word_stands_alone(rt: HostRuntime) -> Result<(), Fail> {
    let alloc = rt.alloc();
    assert_eq!(rt; read_word(alloc, &["7", "8"])?, USAGE);
    assert_eq!(rt; read_word(alloc, &["7", "--ring=2", "7"])?, USAGE);
    assert_eq!(rt; read_word(alloc, &[])?, USAGE);
    assert_eq!(rt; read_word(alloc, &["--ring", "7"])?, USAGE);
    assert_eq!(rt; read_word(alloc, &["4294967296"])?, USAGE);
    assert_eq!(rt; read_word(alloc, &[""])?, USAGE);
    assert_eq!(rt; read_word(alloc, &["-7"])?, USAGE);
    assert_eq!(rt; read_word(alloc, &["-"])?, USAGE);
    assert_eq!(rt; read_word(alloc, &["--", "7"])?, USAGE);
    assert_eq!(rt; read_word(alloc, &["--=7"])?, USAGE);
    Ok(())
}
