//! Units that are checked, and the report on their checks, where a growth is refused.

use crate::files::{OPTIONS, name_in, two_files, world_of};
use crate::spending::spend;
use pyc_body::{Checked, Checker, Meter, numbered_units};
use pyc_iface::Key;
use pyc_keys::ReadSet;
use pyc_known_answers::World;
use pyc_workspace::{File, report};
use std::alloc::{AllocError, Global};
use std::process::Abort;
use std::rc::Rc;
use std::test::Fail;

const TEXT: &str =
    "Incompatible types in assignment (expression has type \"str\", variable has type \"int\")";

const REPORT: &str =
    "a.py:2: error: Incompatible types in assignment (expression has type \"str\", variable has type \"int\")  [assignment]\nFound 1 error in 1 file (checked 2 source files)\n";

/// Asserts that the keys of the header of `a.py` have the numbers of its reads, and that only `count` keys have one.
fn assert_keys(rt: &impl Abort, world: &World, header: &Checked, own: &[Key], count: usize) {
    assert_eq!(rt; header.reads().len(), own.len());
    for i in 0..own.len() {
        assert!(rt; world.keys().find(&own[i]) == Some(header.reads()[i]));
    }
    let held = (0..world.keys().bound()).filter(|number| world.keys().holds(*number));
    assert_eq!(rt; held.count(), count);
}

/// The keys that the header of `a.py` reads: whether the name that it imports is there and is passed on, and whether
/// its own one is on a ring.
fn header_keys(alloc: Global) -> Result<Vec<Key>, AllocError> {
    let mut keys = Vec::new(alloc);
    keys.push(Key::HasName(name_in(alloc, "b.py", "f")?))?;
    keys.push(Key::Export(name_in(alloc, "b.py", "f")?))?;
    keys.push(Key::HasName(name_in(alloc, "a.py", "f")?))?;
    Ok(keys)
}

/// Checks the body of `a.py` after its header. A refused check leaves the meter and the keys as before.
// growths: 380 to 560
pub(crate) fn checking(rt: &impl Abort, alloc: Global, spent: usize) -> Result<bool, Fail> {
    let files = two_files(alloc)?;
    let mut world = world_of(alloc, &files)?;
    let mut meter = Meter::new(alloc);
    let checker = Checker::new(alloc, OPTIONS);
    let units = numbered_units(alloc, files[0].source())?;
    let own = header_keys(alloc)?;
    let header = checker.check_unit(&mut meter, &mut world, &units[0])?;
    spend(alloc, spent);
    let first = checker.check_unit(&mut meter, &mut world, &units[1]);
    let is_refused = first.is_err();
    let body = match first {
        Ok(body) => body,
        Err(_) => {
            assert_eq!(rt; meter.len(), 1);
            assert_keys(rt, &world, &header, &own, 3);
            checker.check_unit(&mut meter, &mut world, &units[1])?
        }
    };
    assert_eq!(rt; meter.len(), 2);
    // (the body reads its two names, `int` and `f`)
    assert_eq!(rt; body.reads().len(), 2);
    assert_keys(rt, &world, &header, &own, 5);
    assert_eq!(rt; body.messages().len(), 1);
    assert_eq!(rt; body.messages()[0].text.as_str(), TEXT);
    Ok(is_refused)
}

/// Adds the checks of the units of a file to `checks`.
fn push_checks(
    alloc: Global,
    world: &mut World,
    file: &File,
    checks: &mut Vec<Checked>,
) -> Result<(), AllocError> {
    let mut meter = Meter::new(alloc);
    let checker = Checker::new(alloc, OPTIONS);
    for unit in &numbered_units(alloc, file.source())? {
        checks.push(checker.check_unit(&mut meter, world, unit)?)?;
    }
    Ok(())
}

/// The checks of the units of both files.
fn checks_of(alloc: Global, files: &[Rc<File>]) -> Result<Vec<Checked>, AllocError> {
    let mut world = world_of(alloc, files)?;
    let mut checks = Vec::new(alloc);
    for file in files {
        push_checks(alloc, &mut world, file, &mut checks)?;
    }
    Ok(checks)
}

/// Reports the checks of both files. A refused report is formed again from the checks, which are as before.
// growths: 430 to 620
pub(crate) fn reporting(rt: &impl Abort, alloc: Global, spent: usize) -> Result<bool, Fail> {
    let files = two_files(alloc)?;
    let checks = checks_of(alloc, &files)?;
    spend(alloc, spent);
    let first = report(alloc, &files, &checks);
    let is_refused = first.is_err();
    let report = match first {
        Ok(report) => report,
        Err(_) => report(alloc, &files, &checks)?,
    };
    assert_eq!(rt; report.text.as_str(), REPORT);
    assert!(rt; !report.clean);
    Ok(is_refused)
}

#[test]
fn checks_without_a_refusal(rt: HostRuntime) -> Result<(), Fail> {
    assert!(rt; !checking(&rt, rt.alloc(), 0)?);
    assert!(rt; !reporting(&rt, rt.alloc(), 0)?);
    Ok(())
}
