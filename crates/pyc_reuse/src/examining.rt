//! The examination of the units of files.

ghost use Rattle.std.specs.Prelude.{◌≡◌, ◌++◌, ◌∷◌, [], ℕ, filter, length, map, slice_index_or, IfOk, OnOk};
ghost use Rattle.std.specs.Prelude.{if◌then◌else◌};
ghost use Rattle.std.specs.declared.alloc.Global.{Global as GlobalOf};
ghost use Rattle.std.specs.declared.rc.Rc.{Rc as RcOf};
ghost use Rattle.pyc_body.specs.FileUnits.{file_units, id_of};
ghost use Rattle.pyc_body.specs.FileUnitView.{file_unit_in};
ghost use Rattle.pyc_body.specs.FoundMessages.{checked};
ghost use Rattle.pyc_recorder.specs.CheckedView.{checked_in};
ghost use Rattle.pyc_keys.specs.Numbering.{Extends};
ghost use Rattle.pyc_known_answers.specs.WorldView.{held_by, interfaces_by};
ghost use Rattle.pyc_reuse.specs.Answering.{StandFor};
ghost use Rattle.pyc_reuse.specs.Examination.{HasOptions, last_in, options_in, present_in};
ghost use Rattle.pyc_reuse.specs.Examined.{examined, examined_in, reads_anew};
ghost use Rattle.pyc_reuse.specs.Revision.{file_result_among, file_results_among};
ghost use Rattle.pyc_reuse.specs.FileResultView.{file_result_in, file_results_in};
ghost use Rattle.pyc_reuse.specs.FileStatuses.{AreInPlace, flags_of, file_status_in, file_status_of, nothing};
ghost use Rattle.pyc_reuse.specs.declared.file_result.FileResult.{FileResult as FileResultOf};
ghost use Rattle.pyc_workspace.specs.Files.{file_in};
ghost use Rattle.pyc_workspace.specs.Fresh.{source_of, sources_of};

use crate::file_result::FileResult;
use crate::file_status::FileStatus;
use crate::recheck::Recheck;
use pyc_body::{Checked, Checker, FileUnit, Meter, numbered_units};
use pyc_known_answers::World;
use pyc_workspace::File;
use std::alloc::AllocError;
use std::rc::Rc;

/// The examination of the units of files that are present.
#[derive(Clone, Copy)]
pub(crate) struct Examination<'a> {
    pub(crate) recheck: Recheck<'a>,
    pub(crate) checker: Checker,
}

impl Examination<'_> {
    /// What comes of the files that are present, by what is to be done for each.
    pub(crate) fn next_file_results(
        &self,
        meter: &mut Meter,
        keys: &mut World,
        list: &[FileStatus],
    ) -> Result<Vec<Rc<FileResult>>, AllocError>
        requires options { HasOptions self.now }
        requires answers { StandFor (interfaces_by keys.old) (present_in self.now) }
        requires file_results { ∥ file_results_in (held_by keys.old) self.now.recheck.last.now.file_results.items
            ≡ file_results_among (options_in self.now) (last_in self.now) ∥₁ }
        requires list { map file_status_in list.now ≡ map (file_status_of (options_in self.now) (last_in self.now)
            (present_in self.now)) (present_in self.now) }
        ensures file_results { IfOk result (λ file_results. file_results_in (held_by keys.new) file_results.items
            ≡ file_results_among (options_in self.now) (present_in self.now)) }
        ensures metered { OnOk result (meter.new
            ≡ meter.old ++ examined (options_in self.now) (last_in self.now) (present_in self.now)) }
        ensures extends { Extends (held_by keys.old) (held_by keys.new) }
        // Where nothing is to be done, the keys and the rows are those of before.
        ensures held { OnOk result (AreInPlace list.now (length self.now.recheck.last.now.file_results.items)
            → held_by keys.new ≡ held_by keys.old) }
        ensures own { IfOk result (λ file_results.
            AreInPlace list.now (length self.now.recheck.last.now.file_results.items)
            → map (λ file_result. file_result.value) file_results.items
            ≡ map (λ file_result. file_result.value) self.now.recheck.last.now.file_results.items) }
        ensures world { interfaces_by keys.new ≡ interfaces_by keys.old }
    {
        let files = self.recheck.present;
        let mut file_results = Vec::with_capacity(self.recheck.alloc, files.len())?;
        for index in 0..files.len() {
            let file_result = self.next_file_result(meter, keys, &files[index], &list[index])?;
            file_results.push(file_result)?;
        }
        Ok(file_results)
    }

    /// What comes of a file, by what is to be done for it.
    fn next_file_result(
        &self,
        meter: &mut Meter,
        keys: &mut World,
        file: &File,
        file_status: &FileStatus,
    ) -> Result<Rc<FileResult>, AllocError>
        requires options { HasOptions self.now }
        requires answers { StandFor (interfaces_by keys.old) (present_in self.now) }
        requires file_results { ∥ file_results_in (held_by keys.old) self.now.recheck.last.now.file_results.items
            ≡ file_results_among (options_in self.now) (last_in self.now) ∥₁ }
        requires file_status { file_status_in file_status.now
            ≡ file_status_of (options_in self.now) (last_in self.now) (present_in self.now) (file_in file.now) }
        ensures file_result { IfOk result (λ file_result. file_result_in (held_by keys.new) file_result.value
            ≡ file_result_among (options_in self.now) (present_in self.now) (file_in file.now)) }
        ensures metered { OnOk result (meter.new ≡ meter.old
            ++ examined_in (options_in self.now) (last_in self.now) (present_in self.now) (file_in file.now)) }
        ensures extends { Extends (held_by keys.old) (held_by keys.new) }
        ensures held { OnOk result ((place : ℕ) → file_status_in file_status.now ≡ nothing place
            → held_by keys.new ≡ held_by keys.old) }
        ensures own { IfOk result (λ file_result. (place : ℕ) (own : RcOf FileResultOf GlobalOf)
            → file_status_in file_status.now ≡ nothing place
            → own ≡ slice_index_or self.now.recheck.last.now.file_results.items place own
            → file_result.value ≡ own.value) }
        ensures world { interfaces_by keys.new ≡ interfaces_by keys.old }
    {
        match file_status {
            FileStatus::All => {
                let file_result = self.first_file_result(meter, keys, file)?;
                let shared = Rc::new(self.recheck.alloc, file_result)?;
                Ok(shared)
            }
            FileStatus::Nothing(place) => {
                let kept = self.recheck.last.file_results[*place].clone()?;
                Ok(kept)
            }
            FileStatus::Flagged(place, flags) => {
                let revision = &self.recheck.last.file_results[*place];
                let file_result = self.changed_file_result(meter, keys, file, revision, flags)?;
                let shared = Rc::new(self.recheck.alloc, file_result)?;
                Ok(shared)
            }
        }
    }

    /// What comes of a file all of whose units are examined.
    fn first_file_result(
        &self,
        meter: &mut Meter,
        keys: &mut World,
        file: &File,
    ) -> Result<FileResult, AllocError>
        requires options { HasOptions self.now }
        requires answers { StandFor (interfaces_by keys.old) (present_in self.now) }
        ensures file_result { IfOk result (λ file_result. file_result_in (held_by keys.new) file_result
            ≡ file_result_among (options_in self.now) (present_in self.now) (file_in file.now)) }
        ensures metered { OnOk result (meter.new
            ≡ meter.old ++ map id_of (file_units (source_of (file_in file.now)))) }
        ensures extends { Extends (held_by keys.old) (held_by keys.new) }
        ensures world { interfaces_by keys.new ≡ interfaces_by keys.old }
    {
        let units = numbered_units(self.recheck.alloc, file.source())?;
        let mut checks = Vec::with_capacity(self.recheck.alloc, units.len())?;
        for unit in &units {
            let check = self.first_check(meter, keys, unit)?;
            checks.push(check)?;
        }
        FileResult::new(self.recheck.alloc, file, checks)
    }

    /// What comes of a file whose flagged units are examined again.
    fn changed_file_result(
        &self,
        meter: &mut Meter,
        keys: &mut World,
        file: &File,
        revision: &FileResult,
        flags: &[bool],
    ) -> Result<FileResult, AllocError>
        requires options { HasOptions self.now }
        requires answers { StandFor (interfaces_by keys.old) (present_in self.now) }
        requires revision { file_result_in (held_by keys.old) revision.now
            ≡ file_result_among (options_in self.now) (last_in self.now) (file_in file.now) }
        requires flags { flags.now
            ≡ flags_of (options_in self.now) (last_in self.now) (present_in self.now) (file_in file.now) }
        ensures file_result { IfOk result (λ file_result. file_result_in (held_by keys.new) file_result
            ≡ file_result_among (options_in self.now) (present_in self.now) (file_in file.now)) }
        ensures metered { OnOk result (meter.new ≡ meter.old ++ map id_of (filter
            (reads_anew (options_in self.now) (last_in self.now) (present_in self.now))
            (file_units (source_of (file_in file.now))))) }
        ensures extends { Extends (held_by keys.old) (held_by keys.new) }
        ensures world { interfaces_by keys.new ≡ interfaces_by keys.old }
    {
        let units = numbered_units(self.recheck.alloc, file.source())?;
        let mut checks = Vec::with_capacity(self.recheck.alloc, units.len())?;
        for index in 0..units.len() {
            let check = self.next_check(
                meter,
                keys,
                &units[index],
                &revision.checks[index],
                flags[index],
            )?;
            checks.push(check)?;
        }
        FileResult::new(self.recheck.alloc, file, checks)
    }

    /// What comes of a unit: what came of it, unless it is flagged.
    fn next_check(
        &self,
        meter: &mut Meter,
        keys: &mut World,
        unit: &FileUnit<'_>,
        revision: &Rc<Checked>,
        flag: bool,
    ) -> Result<Rc<Checked>, AllocError>
        requires options { HasOptions self.now }
        requires answers { StandFor (interfaces_by keys.old) (present_in self.now) }
        requires revision { checked_in (held_by keys.old) revision.now.value
            ≡ checked (options_in self.now) (sources_of (last_in self.now)) (file_unit_in unit.now) }
        requires flag { flag
            ≡ reads_anew (options_in self.now) (last_in self.now) (present_in self.now) (file_unit_in unit.now) }
        ensures checked { IfOk result (λ check. checked_in (held_by keys.new) check.value
            ≡ checked (options_in self.now) (sources_of (present_in self.now)) (file_unit_in unit.now)) }
        ensures metered { OnOk result (meter.new
            ≡ meter.old ++ (if flag then id_of (file_unit_in unit.now) ∷ [] else [])) }
        ensures extends { Extends (held_by keys.old) (held_by keys.new) }
        ensures world { interfaces_by keys.new ≡ interfaces_by keys.old }
    {
        if flag {
            return self.first_check(meter, keys, unit);
        }
        let kept = revision.clone()?;
        Ok(kept)
    }

    /// What comes of a unit that is examined.
    fn first_check(
        &self,
        meter: &mut Meter,
        keys: &mut World,
        unit: &FileUnit<'_>,
    ) -> Result<Rc<Checked>, AllocError>
        requires options { HasOptions self.now }
        requires answers { StandFor (interfaces_by keys.old) (present_in self.now) }
        ensures checked { IfOk result (λ check. checked_in (held_by keys.new) check.value
            ≡ checked (options_in self.now) (sources_of (present_in self.now)) (file_unit_in unit.now)) }
        ensures metered { OnOk result (meter.new ≡ meter.old ++ (id_of (file_unit_in unit.now) ∷ [])) }
        ensures extends { Extends (held_by keys.old) (held_by keys.new) }
        ensures world { interfaces_by keys.new ≡ interfaces_by keys.old }
    {
        let checked = self.checker.check_unit(meter, keys, unit)?;
        let shared = Rc::new(self.recheck.alloc, checked)?;
        Ok(shared)
    }
}
