//! Whether keys have other answers in one world than in another.

use pyc_body::{Checked, Checker, Meter, numbered_units};
use pyc_iface::{Options, PlainWorld};
use pyc_interfaces::{Common, RevisedWorld, revised_world};
use pyc_keys::ReadSet;
use pyc_known_answers::{ChangedKeys, World};
use pyc_names::ModuleName;
use pyc_workspace::{File, interfaces_of};
use std::alloc::{AllocError, Global};
use std::rc::Rc;
use std::test::Fail;

/// What each file is looked at with.
const OPTIONS: Options = Options {
    ignore_missing: false,
    check_untyped: false,
    turns: 1_000_000,
};

/// A file that reads `x` of `a.py` in its second unit.
const READER: &str = "from a import x\n\ny: int = x\n";

/// The files `a.py`, of this text, and `b.py`, which reads it.
fn files_of(alloc: Global, text: &str) -> Result<Vec<Rc<File>>, AllocError> {
    let mut files = Vec::new(alloc);
    for (path, text) in [("a.py", text), ("b.py", READER)] {
        let name = ModuleName::of_path(alloc, path)?;
        let file = File::new(alloc, path, name, text.as_bytes().to_vec(alloc)?)?;
        files.push(Rc::new(alloc, file)?)?;
    }
    Ok(files)
}

/// The world in which `a.py` has this text.
fn world_of(alloc: Global, text: &str) -> Result<Rc<PlainWorld>, AllocError> {
    let files = files_of(alloc, text)?;
    let world = PlainWorld::build(alloc, &interfaces_of(alloc, &files)?)?;
    Ok(Rc::new(alloc, world)?)
}

/// What is found in `b.py`, where `a.py` has this text, with the keys that it reads.
fn checked(alloc: Global, text: &str) -> Result<(World, Vec<Checked>), AllocError> {
    let files = files_of(alloc, text)?;
    let mut keys = World::new(alloc, world_of(alloc, text)?);
    let mut meter = Meter::new(alloc);
    let checker = Checker::new(alloc, OPTIONS);
    let mut checks = Vec::new(alloc);
    for unit in &numbered_units(alloc, files[1].source())? {
        checks.push(checker.check_unit(&mut meter, &mut keys, unit)?)?;
    }
    Ok((keys, checks))
}

/// Verdicts on none of the keys, of which a second world, in which `a.py` has this text, answers some otherwise.
fn changed_in<'a>(
    alloc: Global,
    keys: &'a World,
    text: &str,
) -> Result<ChangedKeys<'a>, AllocError> {
    let nothing = Common { front: 0, back: 0 };
    let interfaces = interfaces_of(alloc, &files_of(alloc, text)?)?;
    let last = keys.answers().world();
    let RevisedWorld { world, flags } = revised_world(alloc, last, &interfaces, nothing)?;
    ChangedKeys::new(alloc, keys, world, &flags)
}

#[test]
fn other_type_is_another_answer(rt: HostRuntime) -> Result<(), Fail> {
    let (keys, checks) = checked(rt.alloc(), "x: int = 1\n")?;
    let mut changed_keys = changed_in(rt.alloc(), &keys, "x: str = \"\"\n")?;
    assert!(rt; !changed_keys.is_any_changed(checks[0].reads())?);
    assert!(rt; changed_keys.is_any_changed(checks[1].reads())?);
    Ok(())
}

#[test]
fn other_value_is_no_other_answer(rt: HostRuntime) -> Result<(), Fail> {
    let (keys, checks) = checked(rt.alloc(), "x: int = 1\n")?;
    let mut changed_keys = changed_in(rt.alloc(), &keys, "x: int = 2\n")?;
    assert!(rt; !changed_keys.is_any_changed(checks[0].reads())?);
    assert!(rt; !changed_keys.is_any_changed(checks[1].reads())?);
    Ok(())
}

#[test]
fn keys_are_compared_once(rt: HostRuntime) -> Result<(), Fail> {
    let (keys, checks) = checked(rt.alloc(), "x: int = 1\n")?;
    let mut changed_keys = changed_in(rt.alloc(), &keys, "x: str = \"\"\n")?;
    let count = checks[1].reads().len();
    assert!(rt; count > 0);
    for _ in 0..2 {
        assert!(rt; changed_keys.is_any_changed(checks[1].reads())?);
        assert_eq!(rt; changed_keys.compared().len(), count);
    }
    Ok(())
}

#[test]
fn compared_keys_have_answers(rt: HostRuntime) -> Result<(), Fail> {
    let (keys, checks) = checked(rt.alloc(), "x: int = 1\n")?;
    let mut changed_keys = changed_in(rt.alloc(), &keys, "x: str = \"\"\n")?;
    let reads = checks[1].reads();
    for id in reads {
        let _ = changed_keys.is_any_changed(&[*id])?;
    }
    let known = changed_keys.into_second();
    for id in reads {
        assert!(rt; known.find(*id).is_some());
    }
    Ok(())
}

/// An answer for which nothing that differs was looked at is known in the second world from the first, and shared; one
/// for which something was is not.
#[test]
fn answers_are_carried_over(rt: HostRuntime) -> Result<(), Fail> {
    let (keys, checks) = checked(rt.alloc(), "x: int = 1\ny: int = 1\n")?;
    let known = changed_in(rt.alloc(), &keys, "x: int = 1\ny: str = \"\"\n")?.into_second();
    for id in checks[1].reads() {
        let before = keys.answers().find(*id);
        assert!(rt;
            known
                .find(*id)
                .is_some_and(|now| before.is_some_and(|own| Rc::ptr_eq(own, now)))
        );
    }
    let known = changed_in(rt.alloc(), &keys, "x: str = \"\"\ny: int = 1\n")?.into_second();
    assert!(rt; checks[1].reads().iter().any(|id| known.find(*id).is_none()));
    Ok(())
}
