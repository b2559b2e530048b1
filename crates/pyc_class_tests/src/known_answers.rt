//! Known answers by the numbers of their keys.

use crate::keys::keys_of;
use crate::sources::world_of;
use pyc_keys::{KeyId, Keys};
use pyc_known_answers::{KnownAnswers, LookedAnswer, is_same};
use std::alloc::{AllocError, Global};
use std::rc::Rc;
use std::test::Fail;

/// Answers of the world in which `m` has this source. None is known yet.
fn answers_of(alloc: Global, source: &str) -> Result<KnownAnswers, AllocError> {
    let world = world_of(alloc, &[("m.py", source)])?;
    Ok(KnownAnswers::new(alloc, Rc::new(alloc, world)?))
}

/// The answer of a number, which is known from then on.
fn known(
    answers: &mut KnownAnswers,
    keys: &Keys,
    id: KeyId,
) -> Result<Rc<LookedAnswer>, AllocError> {
    let found = answers.find_or_form(keys, id)?;
    answers.keep(id, found.clone()?)?;
    Ok(found)
}

/// How many of these numbers have the answer that the world gives to their keys.
fn right(
    alloc: Global,
    answers: &mut KnownAnswers,
    keys: &Keys,
    ids: &[KeyId],
) -> Result<usize, AllocError> {
    let mut count = 0;
    for id in ids {
        let found = known(answers, keys, *id)?;
        if is_same(found.answer(), &answers.world().ask(alloc, keys.key(*id))?) {
            count += 1;
        }
    }
    Ok(count)
}

/// Which of these numbers have the same answers in two worlds.
fn same(
    alloc: Global,
    first: &mut KnownAnswers,
    second: &mut KnownAnswers,
    keys: &Keys,
    ids: &[KeyId],
) -> Result<Vec<bool>, AllocError> {
    let mut reported = Vec::new(alloc);
    for id in ids {
        let own = known(first, keys, *id)?;
        let other = known(second, keys, *id)?;
        reported.push(is_same(own.answer(), other.answer()))?;
    }
    Ok(reported)
}

const SOURCE: &str = "class C:\n    C: int\nclass D(C): ...\n";

/// Each number has the answer to its key, which is shared from the first asking on.
#[test]
fn answers_are_known(rt: HostRuntime) -> Result<(), Fail> {
    let alloc = rt.alloc();
    let mut keys = Keys::new(alloc);
    let ids = keys.intern_all(alloc, &keys_of(alloc, "m.py", "C")?)?.ids;
    let mut answers = answers_of(alloc, SOURCE)?;
    let last = known(&mut answers, &keys, ids[4])?;
    assert!(rt; right(alloc, &mut answers, &keys, &ids)? == 6);
    assert!(rt; Rc::ptr_eq(&last, &known(&mut answers, &keys, ids[4])?));
    let more = keys.intern_all(alloc, &keys_of(alloc, "m.py", "D")?)?.ids;
    assert!(rt; right(alloc, &mut answers, &keys, &more)? == 6);
    assert!(rt; right(alloc, &mut answers, &keys, &ids)? == 6);
    Ok(())
}

/// An answer that was formed elsewhere is kept and shared like any other.
#[test]
fn answers_formed_elsewhere_are_kept(rt: HostRuntime) -> Result<(), Fail> {
    let alloc = rt.alloc();
    let mut keys = Keys::new(alloc);
    let ids = keys.intern_all(alloc, &keys_of(alloc, "m.py", "C")?)?.ids;
    let mut answers = answers_of(alloc, SOURCE)?;
    assert!(rt; answers.find(ids[3]).is_none());
    let formed = answers.form(keys.key(ids[3]))?;
    answers.keep(ids[3], formed.clone()?)?;
    assert!(rt; answers.find(ids[2]).is_none());
    assert!(rt;
        answers
            .find(ids[3])
            .is_some_and(|known| Rc::ptr_eq(known, &formed))
    );
    assert!(rt; Rc::ptr_eq(&formed, &known(&mut answers, &keys, ids[3])?));
    assert!(rt; right(alloc, &mut answers, &keys, &ids)? == 6);
    Ok(())
}

/// Another world has answers of its own, some of them the same.
#[test]
fn other_worlds_have_other_answers(rt: HostRuntime) -> Result<(), Fail> {
    let alloc = rt.alloc();
    let mut keys = Keys::new(alloc);
    let ids = keys.intern_all(alloc, &keys_of(alloc, "m.py", "C")?)?.ids;
    let mut first = answers_of(alloc, SOURCE)?;
    let mut second = answers_of(alloc, "class C(int):\n    C: str\n")?;
    let own = known(&mut first, &keys, ids[3])?;
    for _ in 0..2 {
        assert_eq!(rt;
            same(alloc, &mut first, &mut second, &keys, &ids)?.as_slice(),
            [true, true, true, false, false, true].as_slice()
        );
    }
    assert!(rt; Rc::ptr_eq(&own, &known(&mut first, &keys, ids[3])?));
    assert!(rt; right(alloc, &mut first, &keys, &ids)? == 6);
    assert!(rt; right(alloc, &mut second, &keys, &ids)? == 6);
    Ok(())
}

/// A number that is given anew has the answer to its new key.
#[test]
fn forgotten_answers_are_formed_anew(rt: HostRuntime) -> Result<(), Fail> {
    let alloc = rt.alloc();
    let mut keys = Keys::new(alloc);
    let ids = keys.intern_all(alloc, &keys_of(alloc, "m.py", "C")?)?.ids;
    let mut answers = answers_of(alloc, SOURCE)?;
    assert!(rt; right(alloc, &mut answers, &keys, &ids)? == 6);
    keys.forget(ids[3]);
    answers.keep_held(&keys);
    let id = keys.intern(&keys_of(alloc, "m.py", "D")?[3])?;
    assert!(rt; id == ids[3]);
    assert!(rt; right(alloc, &mut answers, &keys, &ids)? == 6);
    keys.forget(id);
    answers.keep_held(&keys);
    assert!(rt; answers.find(id).is_none());
    assert!(rt; right(alloc, &mut answers, &keys, &ids[..3])? == 3);
    Ok(())
}

/// Where numbers are let go, their answers go with them, and no others.
#[test]
fn answers_go_with_their_numbers(rt: HostRuntime) -> Result<(), Fail> {
    let alloc = rt.alloc();
    let mut keys = Keys::new(alloc);
    let ids = keys.intern_all(alloc, &keys_of(alloc, "m.py", "C")?)?.ids;
    let mut answers = answers_of(alloc, SOURCE)?;
    assert!(rt; right(alloc, &mut answers, &keys, &ids)? == 6);
    let kept = known(&mut answers, &keys, ids[1])?;
    let mut read = Vec::new(alloc);
    read.push(ids[1])?;
    keys.keep_only(&[read]);
    answers.keep_held(&keys);
    assert!(rt; Rc::ptr_eq(&kept, &known(&mut answers, &keys, ids[1])?));
    let more = keys.intern_all(alloc, &keys_of(alloc, "m.py", "D")?)?.ids;
    assert!(rt; keys.bound() == 7);
    assert!(rt; right(alloc, &mut answers, &keys, &more)? == 6);
    assert!(rt; right(alloc, &mut answers, &keys, &ids[1..2])? == 1);
    Ok(())
}
