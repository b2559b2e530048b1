//! The files of a session, and what its last check left.

ghost use Rattle.std.specs.Prelude.{◌≡◌, ◌∷◌, [], ℕ, Bool, List, None, Some, true, false, length, IfOk, IfErr, OnOk};
ghost use Rattle.std.specs.Prelude.{OnErr, vec_len, if◌then◌else◌};
ghost use Rattle.pyc_session.specs.Event.{Event, FetchStep};
ghost use Rattle.pyc_workspace.specs.Fresh.{fresh, units_of};
ghost use Rattle.pyc_names.specs.ModuleName.{module_of};
ghost use Rattle.pyc_workspace.specs.Path.{is_file_path};
ghost use Rattle.pyc_session.specs.Refusal.{early_refusal, late_refusal, keep_refusal, remove_refusal, kept_as};
ghost use Rattle.pyc_session.specs.Refusal.{first_standing, presence};
ghost use Rattle.pyc_report.specs.Report.{report_in};
ghost use Rattle.pyc_reuse.specs.Exact.{IsExact};
ghost use Rattle.pyc_reuse.specs.RevisionView.{revision_in};
ghost use Rattle.pyc_session.specs.DaemonView.{revision_of};
ghost use Rattle.pyc_session.specs.Session.{after_check, checked, keeping, dropping, updated, refusal_in};
ghost use Rattle.pyc_session.specs.State.{State, start};
ghost use Rattle.pyc_workspace.specs.Workspace.{has_file, taken};

use crate::keep::Keep;
use crate::refusal::Refusal;
use crate::sources::{FetchFault, Sources};
use crate::status::Status;
use indexmap::IndexSet;
use pyc_iface::Options;
use pyc_names::ModuleName;
use pyc_report::Report;
use pyc_reuse::{LastCheck, check_again};
use pyc_workspace::{File, Workspace, is_file_path};
use std::alloc::{AllocError, Global};
use std::marker::Model;
use std::str;

/// How many files a session may hold.
pub const MOST_FILES: usize = 1024;

/// How many bytes a file may have.
pub const LARGEST_FILE: usize = 1_048_576;

/// The files of a session, and what its last check left. Contracts see its state: the files that are present, those of
/// them that were put since the last completed check, those that were taken at it, and the units that it examined.
#[derive(Drop)]
pub struct Daemon {
    alloc: Global,
    options: Options,
    present: Workspace,
    /// The paths of the files that were put since the last completed check.
    touched: IndexSet<String>,
    /// What the last completed check left, if there was one.
    last: Option<LastCheck>,
}

impl Model for Daemon {
    ghost use Rattle.pyc_session.specs.DaemonView.{KeepsUp, revision_of, touched_in};
    ghost use Rattle.pyc_session.specs.State.{State};

    ghost Value = { State };

    ghost view = { λ d.
        record {
          options = d.options;
          present = d.present;
          touched = touched_in d.present d.touched;
          last = (revision_of d.options d.last).files;
          examined = (revision_of d.options d.last).examined;
        } };

    ghost invariant = { λ d. KeepsUp d.options d.present d.touched d.last };
}

impl Daemon {
    /// A daemon with no file, that has checked nothing. It takes no memory.
    pub fn new(alloc: Global, options: Options) -> Self
        ensures { result ≡ start options }
    {
        Daemon {
            alloc,
            options,
            present: Workspace::new(alloc),
            touched: IndexSet::new(alloc),
            last: None,
        }
    }

    /// Why a file of this path and size would not be kept so, as far as that takes no memory to tell.
    pub fn early_refusal(&self, keep: Keep, path: &[u8], size: usize) -> Option<Refusal>
        ensures { result ≡ early_refusal keep self.now.present path.now size }
    {
        early_refusal(&self.present, keep, path, size)
    }

    /// Adds a file. Where it is refused all is as before. The call is for users of the library: the program does not
    /// make it.
    pub fn add(&mut self, path: &[u8], bytes: Vec<u8>) -> Result<(), Refusal>
        ensures ok { OnOk result (keep_refusal Keep.Add self.old.present path.now (vec_len bytes) false ≡ None) }
        ensures after { OnOk result (self.new ≡ keeping self.old (record { path = path.now; bytes = bytes.items })) }
        ensures refusal { IfErr result
            (λ why. (wanting : Bool)
            × (keep_refusal Keep.Add self.old.present path.now (vec_len bytes) wanting ≡ Some why)) }
        ensures same { OnErr result (self.new ≡ self.old) }
    {
        self.keep_unless(Keep::Add, path, bytes)
    }

    /// Puts other bytes in place of those of a file that is present. Where that is refused all is as before. The call
    /// is for users of the library: the program does not make it.
    pub fn change(&mut self, path: &[u8], bytes: Vec<u8>) -> Result<(), Refusal>
        ensures ok { OnOk result (keep_refusal Keep.Change self.old.present path.now (vec_len bytes) false ≡ None) }
        ensures after { OnOk result (self.new ≡ keeping self.old (record { path = path.now; bytes = bytes.items })) }
        ensures refusal { IfErr result
            (λ why. (wanting : Bool)
            × (keep_refusal Keep.Change self.old.present path.now (vec_len bytes) wanting ≡ Some why)) }
        ensures same { OnErr result (self.new ≡ self.old) }
    {
        self.keep_unless(Keep::Change, path, bytes)
    }

    /// Adds the file whose bytes the source hands over at this path, or changes it if it is present. Where that is
    /// refused all is as before.
    pub fn update<S: Sources>(&mut self, sources: &mut S, path: &[u8]) -> Result<(), Refusal>
        ensures reported { (event : Event) × FetchStep S.step sources.old event.fetched sources.new
            × (updated self.old path.now event ≡ Some (record { refusal = refusal_in result; state = self.new })) }
        ensures same { OnErr result (self.new ≡ self.old) }
    {
        if !is_file_path(path) {
            return Err(Refusal::Path);
        }
        match sources.fetch(self.alloc, str::from_utf8(path).unwrap()) {
            Ok(bytes) => {
                let keep = self.kept_as(path);
                self.keep_unless(keep, path, bytes)
            }
            Err(FetchFault::Unreadable) => Err(Refusal::Unreadable),
            Err(FetchFault::Memory) => Err(Refusal::Memory),
        }
    }

    /// Removes the file of this path. It takes no memory; where it is refused all is as before.
    pub fn remove(&mut self, path: &[u8]) -> Result<(), Refusal>
        ensures ok { OnOk result (remove_refusal self.old.present path.now ≡ None) }
        ensures after { OnOk result (self.new ≡ dropping self.old path.now) }
        ensures refusal { IfErr result (λ why. remove_refusal self.old.present path.now ≡ Some why) }
        ensures same { OnErr result (self.new ≡ self.old) }
    {
        if let Some(why) = remove_refusal(&self.present, path) {
            return Err(why);
        }
        self.present.take(path);
        self.touched.swap_remove(str::from_utf8(path).unwrap());
        Ok(())
    }

    /// Checks the files that are taken; after that none counts as put since. Where memory is refused all is as before.
    pub fn check(&mut self) -> Result<Report, AllocError>
        ensures fresh { IfOk result (λ report. report_in report ≡ fresh self.old.options (taken self.old.present)) }
        ensures after { OnOk result (self.new ≡ after_check self.old) }
        ensures exact { IfOk result (λ report. IsExact self.old.options self.old.last (taken self.old.present)
            (report_in report) self.new.examined) }
        ensures same { OnErr result (self.new ≡ self.old) }
    {
        let report = self.check_all_files()?;
        self.touched.clear();
        Ok(report)
    }

    /// How many files and units the last completed check saw, and how many units it examined. It takes no memory.
    pub fn status(&self) -> Status
        ensures files { result.files ≡ length self.now.last }
        ensures bodies { result.bodies ≡ length (units_of self.now.last) }
        ensures rechecked { result.rechecked ≡ length self.now.examined }
    {
        match &self.last {
            Some(last) => Status {
                files: last.count_files(),
                bodies: last.count_units(),
                rechecked: last.count_examined(),
            },
            None => Status {
                files: 0,
                bodies: 0,
                rechecked: 0,
            },
        }
    }

    /// A check of the files that are taken, after the last completed one if there was one. Where memory is refused all
    /// is as before.
    fn check_all_files(&mut self) -> Result<Report, AllocError>
        ensures fresh { IfOk result (λ report. report_in report ≡ fresh self.old.options (taken self.old.present)) }
        ensures after { OnOk result (self.new ≡ checked self.old) }
        ensures exact { IfOk result (λ report. IsExact self.old.options self.old.last (taken self.old.present)
            (report_in report) self.new.examined) }
        ensures same { OnErr result (self.new ≡ self.old) }
    {
        let taken = self.present.taken(self.alloc)?;
        let last = last_or_nothing(self.alloc, self.options, self.last.take())?;
        let (next, report) = check_again(self.alloc, last, &taken, &self.touched);
        self.last = Some(next);
        report
    }

    /// How bytes that a source hands over are kept.
    fn kept_as(&self, path: &[u8]) -> Keep
        ensures { result ≡ kept_as self.now.present path.now }
    {
        if self.present.contains(path) {
            Keep::Change
        } else {
            Keep::Add
        }
    }

    /// Keeps a file, unless it is refused.
    fn keep_unless(&mut self, keep: Keep, path: &[u8], bytes: Vec<u8>) -> Result<(), Refusal>
        ensures ok { OnOk result (keep_refusal keep self.old.present path.now (vec_len bytes) false ≡ None) }
        ensures after { OnOk result (self.new ≡ keeping self.old (record { path = path.now; bytes = bytes.items })) }
        ensures refusal { IfErr result
            (λ why. (wanting : Bool)
            × (keep_refusal keep self.old.present path.now (vec_len bytes) wanting ≡ Some why)) }
        ensures same { OnErr result (self.new ≡ self.old) }
    {
        if let Some(why) = self.early_refusal(keep, path, bytes.len()) {
            return Err(why);
        }
        self.keep(keep, path, bytes)
    }

    /// Keeps a file of which nothing is reported before the name of its module is formed. Where it is refused all is as
    /// before.
    pub fn keep(&mut self, keep: Keep, path: &[u8], bytes: Vec<u8>) -> Result<(), Refusal>
        requires { early_refusal keep self.old.present path.now (vec_len bytes) ≡ None }
        ensures ok { OnOk result (late_refusal keep self.old.present path.now (vec_len bytes) false ≡ None) }
        ensures after { OnOk result (self.new ≡ keeping self.old (record { path = path.now; bytes = bytes.items })) }
        ensures refusal { IfErr result
            (λ why. (wanting : Bool)
            × (late_refusal keep self.old.present path.now (vec_len bytes) wanting ≡ Some why)) }
        ensures same { OnErr result (self.new ≡ self.old) }
    {
        let path = str::from_utf8(path).unwrap();
        let Ok(name) = ModuleName::of_path(self.alloc, path) else {
            return Err(Refusal::Memory);
        };
        if let Some(why) = module_refusal(&self.present, keep, path, &name) {
            return Err(why);
        }
        match self.put(path, name, bytes) {
            Ok(()) => Ok(()),
            Err(_) => Err(Refusal::Memory),
        }
    }

    /// Keeps a file of this path, module and bytes.
    fn put(&mut self, path: &str, name: ModuleName, bytes: Vec<u8>) -> Result<(), AllocError>
        requires { name ≡ module_of path.now }
        ensures after { OnOk result (self.new ≡ keeping self.old (record { path = path.now; bytes = bytes.items })) }
        ensures same { OnErr result (self.new ≡ self.old) }
    {
        let file = File::new(self.alloc, path, name, bytes)?;
        let touched = String::from_str(self.alloc, path)?;
        self.touched.reserve(1)?;
        self.present.put(file)?;
        self.touched.insert(touched)?;
        Ok(())
    }
}

/// What the last completed check left; nothing, where there was none.
fn last_or_nothing(
    alloc: Global,
    options: Options,
    last: Option<LastCheck>,
) -> Result<LastCheck, AllocError>
    ensures revision { IfOk result (λ found. revision_in found ≡ revision_of options last) }
    ensures none { OnErr result (last ≡ None) }
{
    match last {
        Some(last) => Ok(last),
        None => LastCheck::of_nothing(alloc, options),
    }
}

/// Why a file of this path and size is not kept so among these files, as far as that takes no memory to tell.
#[tactic(auto, unfolding(crate::specs::Refusal::reasons))]
fn early_refusal(files: &Workspace, keep: Keep, path: &[u8], size: usize) -> Option<Refusal>
    ensures { result ≡ early_refusal keep files.now path.now size }
{
    if !is_file_path(path) {
        Some(Refusal::Path)
    } else if size > LARGEST_FILE {
        Some(Refusal::Large)
    } else {
        presence_refusal(files, keep, path)
    }
}

/// Why a file is not kept so, for a file of its path that is present, or none.
fn presence_refusal(files: &Workspace, keep: Keep, path: &[u8]) -> Option<Refusal>
    ensures { result ≡ first_standing (presence keep files.now path.now ∷ []) }
{
    let is_present = files.contains(path);
    match keep {
        Keep::Add if is_present => Some(Refusal::Present),
        Keep::Change if !is_present => Some(Refusal::Absent),
        _ => None,
    }
}

/// Why no file of this path is removed.
#[tactic(auto, unfolding(crate::specs::Refusal::remove_refusal))]
fn remove_refusal(files: &Workspace, path: &[u8]) -> Option<Refusal>
    ensures { result ≡ remove_refusal files.now path.now }
{
    if !is_file_path(path) {
        Some(Refusal::Path)
    } else if !files.contains(path) {
        Some(Refusal::Absent)
    } else {
        None
    }
}

/// Why the module that its path names refuses a file that is kept so.
#[tactic(auto, unfolding(crate::specs::Refusal::reasons))]
fn module_refusal(files: &Workspace, keep: Keep, path: &str, name: &ModuleName) -> Option<Refusal>
    requires { name.now ≡ module_of path.now }
    ensures { (size : ℕ) → result ≡ late_refusal keep files.now path.now size false }
{
    if keep == Keep::Change {
        None
    } else if files.names_module(path, name) {
        Some(Refusal::Module)
    } else if files.len() >= MOST_FILES {
        Some(Refusal::Many)
    } else {
        None
    }
}
