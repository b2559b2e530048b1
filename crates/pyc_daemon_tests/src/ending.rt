//! Faults that stop a session, as they are reported.

use pyc_daemon::RunFault;
use std::test::Fail;

// Faults, with how they are reported.
const FAULTS: &[(RunFault, &str)] = &[
    (RunFault::Read, "the input cannot be read"),
    (RunFault::Write, "the output cannot be written"),
    (RunFault::TooManyTurns, "the input does not end"),
    (RunFault::Memory, "out of memory"),
];

#[test]
fn faults_as_they_are_reported(rt: HostRuntime) -> Result<(), Fail> {
    for (fault, text) in FAULTS {
        assert_eq!(rt; fault.to_string(rt.alloc())?.as_str(), *text);
    }
    Ok(())
}
