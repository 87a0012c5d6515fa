//! What no clause says of the work that is counted: the sums that are printed, and which frames are read.

use qc_bench_run::run;
use std::alloc::Global;
use std::test::Fail;

/// What a run with these words prints, and its status.
fn printed(alloc: Global, words: &[&str]) -> Result<(String, u8), Fail> {
    let mut list = Vec::new(alloc);
    for word in words {
        list.push(String::from_str(alloc, word)?)?;
    }
    let outcome = run(alloc, list.as_slice());
    Ok((format!(in alloc; "{outcome}")?, outcome.status()))
}

#[test]
fn words_end_in_their_text(rt: HostRuntime) -> Result<(), Fail> {
    let usage =
        "usage: qc_bench frames COUNT TIMES | qc_bench keys COUNT | qc_bench packets COUNT SIZE\n";
    let cases: [(&[&str], &str, u8); 14] = [
        (
            &["frames", "28", "1"],
            "frames 28\nbytes 279\nweight 145247719583028902\n",
            0,
        ),
        (&["frames", "29", "0"], "frames 0\nbytes 0\nweight 0\n", 0),
        (&["frames", "0", "3"], "frames 0\nbytes 0\nweight 0\n", 0),
        (&["keys", "0"], "packets 0\nsum 0\n", 0),
        (&["keys", "10"], "packets 10\nsum 55\n", 0),
        (&["packets", "0", "1200"], "packets 0\nsum 0\n", 0),
        (&["packets", "5", "34"], "packets 5\nsum 10\n", 0),
        (&["packets", "3", "16383"], "packets 3\nsum 3\n", 0),
        (&["packets", "1", "33"], usage, 2),
        (&["packets", "1", "16384"], usage, 2),
        (&["frames", "28"], usage, 2),
        (&["frames", "28", "x"], usage, 2),
        (&["keys", "4294967296"], usage, 2),
        (&[], usage, 2),
    ];
    for (words, text, status) in cases {
        let (said, was) = printed(rt.alloc(), words)?;
        assert_eq!(rt; said.as_str(), text);
        assert_eq!(rt; was, status);
    }
    Ok(())
}
