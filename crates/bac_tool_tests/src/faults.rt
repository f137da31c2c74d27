//! The lines of faults.

use crate::running::assert_same;
use bac_stream::{Counted, RunFault, StreamFault};
use bac_tag::{Refusal, Why};
use bac_tool::layers::tell_fault;
use bac_tool::{JobFault, PackFault};
use std::alloc::Global;
use std::process::Abort;

/// Stops the test unless the line of the fault has this text.
fn is_told(rt: &impl Abort, alloc: Global, fault: JobFault, text: &str) {
    let mut errors = Counted::new(Vec::new(alloc));
    tell_fault(fault, &mut errors);
    let line = format!(in alloc; "bactool: {text}\n").expect(rt, "memory");
    assert_same(rt, errors.device.as_slice(), line.as_bytes(), fault);
}

// The line of each fault. It has the number of the record or of the line, unless these are too many or memory was
// refused.
#[test]
fn faults_are_told(rt: HostRuntime) {
    let alloc = rt.alloc();
    let (at, place, why) = (u32::MAX, usize::MAX, Why::NotCanonical);
    let refusal = Refusal { place, why };
    let text = "record 4294967295: refused NotCanonical at 18446744073709551615";
    is_told(
        &rt,
        alloc,
        JobFault::Run(RunFault::Frame { at, refusal }),
        text,
    );
    let faults = [
        (StreamFault::Truncated, "record 3: truncated"),
        (StreamFault::RecordTooLong, "record 3: too long"),
        (StreamFault::ReadFault, "record 3: read fault"),
        (StreamFault::TooManyFrames, "more than 1000000 records"),
        (StreamFault::OutOfMemory, "out of memory"),
    ];
    for (fault, text) in faults {
        is_told(
            &rt,
            alloc,
            JobFault::Run(RunFault::Stream { at: 3, fault }),
            text,
        );
    }
    let faults = [
        (PackFault::LineTooLong(2), "line 2: too long"),
        (PackFault::NotHex(2), "line 2: not hexadecimal"),
        (PackFault::RecordTooLong(2), "line 2: too long"),
        (PackFault::ReadFault(2), "line 2: read fault"),
        (PackFault::TooManyLines, "more than 1000000 records"),
        (PackFault::OutOfMemory(2), "out of memory"),
        (PackFault::Refused(2), "line 2: refused"),
    ];
    for (fault, text) in faults {
        is_told(&rt, alloc, JobFault::Pack(fault), text);
    }
    let (line, column) = (u32::MAX, usize::MAX);
    let fault = PackFault::Unreadable { line, column };
    let text = "line 4294967295: unreadable at column 18446744073709551615";
    is_told(&rt, alloc, JobFault::Pack(fault), text);
}

// 2^64 and the largest number have more digits than a number of 64 bits.
#[test]
fn write_faults_are_told(rt: HostRuntime) {
    let alloc = rt.alloc();
    let counts = [
        0,
        9,
        10,
        u128::from(u64::MAX),
        u128::from(u64::MAX) + 1,
        u128::MAX,
    ];
    for count in counts {
        let text = format!(in alloc; "write fault after {count} octets").expect(&rt, "memory");
        let fault = StreamFault::WriteFault(count);
        is_told(
            &rt,
            alloc,
            JobFault::Run(RunFault::Stream { at: 1, fault }),
            &text,
        );
        is_told(
            &rt,
            alloc,
            JobFault::Pack(PackFault::WriteFault(count)),
            &text,
        );
    }
}
