//! Worked examples of words that are no command, and of samples.

use super::devices::check_writes;
use crate::program::Case;
use crate::tables::text_size;
use std::alloc::{AllocError, Global};
use std::test::Fail;

/// The line on words that are no command.
const USAGE: &str = "usage: educe expand | educe sample N\n";

/// The words are no command. Nothing is read: the first read would fail.
fn check_usage<'a>(alloc: Global, words: &'a [&'a str]) -> Result<(), Fail> {
    let case = Case {
        words,
        failing_reads: &[0],
        ..Case::of(b"", 2, "", USAGE)
    };
    case.check(alloc)
}

#[test]
fn words_that_are_no_command_show_the_usage(rt: HostRuntime) -> Result<(), Fail> {
    let alloc = rt.alloc();
    check_usage(alloc, &[])?;
    check_usage(alloc, &["--help"])?;
    check_usage(alloc, &["expnd"])?;
    check_usage(alloc, &[""])?;
    check_usage(alloc, &["expand", "1"])?;
    check_usage(alloc, &["expand", "expand"])?;
    check_usage(alloc, &["sample"])?;
    check_usage(alloc, &["sample", "1", "2"])
}

#[test]
fn other_numbers_than_1_to_1000_are_no_sample(rt: HostRuntime) -> Result<(), Fail> {
    let alloc = rt.alloc();
    check_usage(alloc, &["sample", "0"])?;
    check_usage(alloc, &["sample", "01"])?;
    check_usage(alloc, &["sample", "1001"])?;
    check_usage(alloc, &["sample", "65537"])?;
    check_usage(alloc, &["sample", "+1"])?;
    check_usage(alloc, &["sample", "-1"])?;
    check_usage(alloc, &["sample", "1 "])?;
    check_usage(alloc, &["sample", ""])
}

/// The line on a sample. It has these numbers, and then the number of bytes that the definition with these
/// variants is expanded to.
fn sample_line(alloc: Global, number: &str, variants: &str, numbers: &str) -> Result<String, Fail> {
    let source = format!(in alloc;
        "#[educe(PartialEq, PartialOrd, Ord, Hash)] #[repr(u16)] enum Sample<T> {{{variants} }}"
    )?;
    let written = text_size(alloc, source.as_str())?;
    Ok(format!(in alloc; "sample {number}: {numbers}, 4 impls, {written} bytes out\n")?)
}

/// The run of a sample, over a source whose first read would fail, writes this line.
fn check_sample(alloc: Global, number: &str, variants: &str, numbers: &str) -> Result<(), Fail> {
    let line = sample_line(alloc, number, variants, numbers)?;
    let words = ["sample", number];
    let case = Case {
        words: &words,
        failing_reads: &[0],
        ..Case::of(b"", 0, line.as_str(), "")
    };
    case.check(alloc)
}

#[test]
fn samples_write_a_line_of_numbers(rt: HostRuntime) -> Result<(), Fail> {
    let alloc = rt.alloc();
    check_sample(alloc, "1", " V0,", "78 bytes, 29 tokens")?;
    check_sample(alloc, "2", " V0, V1(u32, T),", "90 bytes, 36 tokens")?;
    check_sample(
        alloc,
        "3",
        " V0, V1(u32, T), V2 { #[educe(PartialOrd(rank = 2), Ord(rank = 2), Hash(ignore))] a: u32, b: T },",
        "171 bytes, 71 tokens",
    )
}

/// So many variants of a sample.
fn variants(alloc: Global, count: u32) -> Result<String, AllocError> {
    let mut text = String::new(alloc);
    for place in 0..count {
        if place % 3 == 0 {
            write!(text, " V{place},")?;
        } else if place % 3 == 1 {
            write!(text, " V{place}(u32, T),")?;
        } else {
            write!(
                text,
                " V{place} {{ #[educe(PartialOrd(rank = 2), Ord(rank = 2), Hash(ignore))] a: u32, b: T }},"
            )?;
        }
    }
    Ok(text)
}

#[test]
fn a_large_sample_writes_the_same_line_twice(rt: HostRuntime) -> Result<(), Fail> {
    let alloc = rt.alloc();
    let variants = variants(alloc, 1000)?;
    let numbers = "34269 bytes, 14681 tokens";
    let line = sample_line(alloc, "1000", variants.as_str(), numbers)?;
    let case = Case {
        words: &["sample", "1000"],
        failing_reads: &[0],
        ..Case::of(b"", 0, line.as_str(), "")
    };
    case.check(alloc)?;
    case.check(alloc)
}

#[test]
fn a_failed_write_of_a_line_is_a_fault(rt: HostRuntime) -> Result<(), Fail> {
    let alloc = rt.alloc();
    let line = sample_line(alloc, "1", " V0,", "78 bytes, 29 tokens")?;
    check_writes(alloc, &["sample", "1"], b"", line.as_str(), 6)
}
