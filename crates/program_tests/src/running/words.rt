//! The words of the command line.

use command_line::{Request, WordsFault, parse};
use std::alloc::Global;
use std::test::Fail;

/// Words, and what they are read as: the files in their order, and `unverified`.
const ROWS: &str = "
    verify a.img | verify a.img
    run a.img a.events | run a.img a.events
    run -- - --x | run - --x
    run a - | run a -
    run --unverified a - | run a - unverified
    build a.txt a.img | build a.txt a.img
    run --unverified a b | run a b unverified
    run a --unverified b | run a b unverified
    run a b --unverified | run a b unverified
    run -- a --unverified | run a --unverified
    | usage
    verify | usage
    verify a b | usage
    run a | usage
    run a b c | usage
    run a b --unverified --unverified | usage
    verify a --unverified | usage
    build a | usage
    build a b c | usage
    build a b --unverified | usage
    boot a | usage
    --help | usage
    help | usage
    verify --help | usage
    --verify a | usage
    Verify a | usage
";

/// A request in words.
fn told(alloc: Global, request: Result<Request, WordsFault>) -> Result<String, Fail> {
    Ok(match request {
        Ok(Request::Verify { image }) => format!(in alloc; "verify {image}")?,
        Ok(Request::Build { source, image }) => format!(in alloc; "build {source} {image}")?,
        Ok(
            Request::Run {
                image,
                events,
                unverified: false,
            },
        ) => { format!(in alloc; "run {image} {events}")? }
        Ok(
            Request::Run {
                image,
                events,
                unverified: true,
            },
        ) => { format!(in alloc; "run {image} {events} unverified")? }
        Err(WordsFault::Usage) => format!(in alloc; "usage")?,
        Err(_) => return Err(Fail::new("memory")),
    })
}

#[test]
fn words_are_read_as_the_usage_says(rt: HostRuntime) -> Result<(), Fail> {
    for row in ROWS.trim().lines() {
        let (words, want) = row.trim().split_once("| ").ok_or(row)?;
        let mut list = Vec::new(rt.alloc());
        for word in words.split_whitespace() {
            list.push(word)?;
        }
        let found = told(rt.alloc(), parse(rt.alloc(), list.as_slice()))?;
        assert_eq!(rt; found.as_str(), want, "{row}");
    }
    Ok(())
}
