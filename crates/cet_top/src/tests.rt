//! The codes and lines of statuses.

use crate::Status;
use std::test::Fail;

#[test]
fn each_status_has_its_code_and_line(rt: HostRuntime) -> Result<(), Fail> {
    let lines = [
        (Status::Done, 0, ""),
        (Status::Usage(3), 1, "cetvm: usage: word 3"),
        (Status::ReadFault, 2, "cetvm: read fault"),
        (Status::WriteFault, 3, "cetvm: write fault"),
        (
            Status::Refused {
                rule: 6,
                offset: 54,
            },
            4,
            "cetvm: refused: rule 6 at 54",
        ),
        (
            Status::AsmRefused { line: 2, rule: 5 },
            5,
            "cetvm: line 2: rule 5",
        ),
        (Status::TooLong, 6, "cetvm: input too long"),
        (Status::Killed(11), 7, "cetvm: killed by 11"),
        (Status::Limit(0), 8, "cetvm: limit in thread 0"),
        (Status::NoMemory, 9, "cetvm: out of memory"),
    ];
    for (status, code, line) in lines {
        assert_eq!(rt; status.code(), code);
        assert_eq!(rt; status.to_string(rt.alloc())?.as_str(), line);
    }
    Ok(())
}
