//! What a run over lines requests from its source.

ghost use Rattle.std.specs.Prelude.{◌≡◌, ◌<◌};

use fixed_respell::{MemorySink, MemorySource, run};
use fixed_steps::Steps;
use std::alloc::{AllocError, Global};
use std::marker::Brand;
use std::sync::ledger::{Blank, Ledger};
use std::test::Fail;

/// Returns the furthest byte and the longest buffer that a run with a limit requests, over `bytes` bytes of which
/// `most` move at a time.
fn asked_by<L: Ledger>(
    alloc: Global,
    limit: u64,
    bytes: usize,
    most: usize,
    blank: Blank,
) -> Result<(usize, usize), AllocError>
    requires name { blank.name ≡ L.name }
    requires parts { blank.parts ≡ L.parts }
    requires some { 0 < blank.parts }
{
    let mut steps = Steps::<L>::new(blank);
    let mut args = vec![in alloc; String::from_str(alloc, "limit")?]?;
    args.push(format!(in alloc; "{limit}")?)?;
    let input = vec![in alloc; b'x'; bytes]?;
    let mut source = MemorySource::new(input, most.max(1), Vec::new(alloc));
    let mut sink = MemorySink::new(vec![in alloc; 0; 100]?, 4096, Vec::new(alloc));
    run(alloc, args.as_slice(), &mut source, &mut sink, &mut steps);
    Ok((source.furthest(), source.longest()))
}

/// However few bytes move at a time, the furthest requested byte is the one past the limit, and the longest request is
/// 4,096 bytes: over an input that is longer than the limit, one that is as long, and one that ends before it.
#[test]
fn no_read_asks_for_too_much(rt: HostRuntime) -> Result<(), Fail> {
    let rows = [
        (6, 9, 7, 7),
        (6, 6, 7, 7),
        (6, 2, 7, 7),
        (4095, 5000, 4096, 4096),
        (4096, 5000, 4097, 4096),
        (5000, 5000, 5001, 4096),
        (4_294_967_296, 10, 4106, 4096),
    ];
    for (limit, bytes, furthest, longest) in &rows {
        for most in 1..=8 {
            let asked = asked_by::<Brand>(rt.alloc(), *limit, *bytes, most, Blank::new(1))?;
            assert!(rt; asked.0 == *furthest, "at {most} of {limit}");
            assert!(rt; asked.1 == *longest, "at {most} of {limit}");
        }
    }
    Ok(())
}
