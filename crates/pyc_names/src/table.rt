//! The interfaces of the files of a workspace, and what the names of their modules stand for.

ghost use Rattle.std.specs.Prelude.{◌≡◌, ◌∷◌, [], ℕ, List, suc, ◌+◌, ◌^◌, ◌<◌, map, count_by, IfOk, OnOk, option_map};
ghost use Rattle.std.specs.List.{list_any, position_from};
ghost use Rattle.pyc_bindings.specs.BindingView.{binding_of, binding_form_of};
ghost use Rattle.pyc_names.specs.FixedModules.{fixed_module as fixed_module_of};
ghost use Rattle.pyc_names.specs.Following as spec;
ghost use Rattle.pyc_names.specs.Following.{import_count};
ghost use Rattle.pyc_names.specs.FollowingView.{qualified_of, referent_of, step_of};
ghost use Rattle.pyc_names.specs.Presence.{is_within};
ghost use Rattle.pyc_names.specs.Interfaces.{file_of};
ghost use Rattle.pyc_names.specs.InterfaceView.{interface_in, interfaces_in};
ghost use Rattle.pyc_names.specs.Looks as look;
ghost use Rattle.pyc_names.specs.NotedLooks.{with_looks};
ghost use Rattle.pyc_names.specs.NotedLooksView.{noted_in};
ghost use Rattle.pyc_names.specs.ModuleName.{same_module};
ghost use Rattle.indexmap.specs.IndexMap.{get_by};
ghost use Rattle.indexmap.specs.IndexSet.{contains_by};

use crate::fixed::{FixedName, fixed_module, fixed_name};
use crate::imports::{module_of_parts, named_module};
use crate::interface::Interface;
use crate::looks::Looks;
use crate::module_name::ModuleName;
use crate::outer_modules::outer_modules;
use crate::qualified_name::{QualifiedName, Referent, Step};
use indexmap::{IndexMap, IndexSet};
use pyc_ast::Text;
use pyc_bindings::{Binding, BindingForm};
use std::alloc::{AllocError, Global};
use std::rc::Rc;
use std::slice;

/// The interfaces of the files of a workspace, shared, and what the names of their modules stand for.
#[derive(Drop)]
pub struct Table {
    files: Vec<Rc<Interface>>,
    /// The index of the file that each module is.
    places: IndexMap<Vec<Text>, usize>,
    /// The modules that the files name or lie under.
    outer: IndexSet<Vec<Text>>,
    /// How many steps following takes at most: one for each from-import at the top level of the files, and a last one.
    steps: u128,
    ghost places_are: { (m : List (List ℕ)) → get_by (λ parts. same_module m parts.items) places
        ≡ position_from (λ file. same_module m file.name) 0 (interfaces_in files.items) },
    ghost outer_are: { (m : List (List ℕ)) → contains_by (λ parts. same_module m parts.items) outer
        ≡ list_any (is_within m) (map (λ file. file.name) (interfaces_in files.items)) },
    ghost steps_is: { steps ≡ suc (import_count (interfaces_in files.items)) },
}

impl Table {
    ghost use Rattle.pyc_names.specs.TableView.{table_in};

    /// The table of files with these interfaces, which it shares. The only error is that memory runs out.
    pub fn build(alloc: Global, files: &[Rc<Interface>]) -> Result<Table, AllocError>
        ensures { IfOk result (λ table. table_in table ≡ interfaces_in files.now) }
    {
        let mut shared = Vec::with_capacity(alloc, files.len())?;
        for file in files {
            shared.push(file.clone()?)?;
        }
        Ok(Table {
            places: places_of(alloc, &shared)?,
            outer: outer_modules(alloc, &shared)?,
            steps: count_imports(&shared) + 1,
            files: shared,
        })
    }

    /// The interfaces of the files, in their order.
    pub fn files(&self) -> &[Rc<Interface>]
        ensures { interfaces_in result.now ≡ table_in self.now }
    {
        &self.files
    }

    /// Whether the module with these parts is there: the root, a fixed one, or one that a file names or lies under. It
    /// takes no memory.
    pub fn has_module(&self, parts: &[Text]) -> bool
        ensures { result ≡ spec.has_module (table_in self.now) parts.now }
    {
        parts.is_empty() || fixed_module(parts).is_some() || self.outer.contains(parts)
    }

    /// The interface of the file that is the module with these parts. It takes no memory.
    pub fn file(&self, parts: &[Text]) -> Option<&Interface>
        ensures { option_map (λ file. interface_in file.now) result ≡ file_of (table_in self.now) parts.now }
    {
        match self.places.get(parts) {
            Some(place) => Some(&self.files[*place]),
            None => None,
        }
    }

    /// What a name stands for; what is looked at for that is noted. The only error is that memory runs out.
    #[tactic(auto, using(crate::proofs::NotedLemmas::noting), unfolding(crate::specs::Following::follow, crate::specs::Looks::follow_looks))]
    pub fn follow(
        &self,
        alloc: Global,
        q: &QualifiedName,
        looks: &mut Looks,
    ) -> Result<Referent, AllocError>
        ensures found { IfOk result (λ found. referent_of found
            ≡ spec.follow (table_in self.now) (qualified_of q.now)) }
        ensures looks { IfOk result (λ found. noted_in looks.new
            ≡ with_looks (noted_in looks.old) (look.follow_looks (table_in self.now) (qualified_of q.now))) }
    {
        let mut at = q.clone()?;
        for turn in 0..self.steps {
            match self.step(alloc, &at, looks)? {
                Step::Ends(found) => return Ok(found),
                Step::Leads(next) => at = next,
            }
        }
        Ok(Referent::Cycle)
    }

    /// Whether a name is on a ring: following it comes back to it. What is looked at for that is noted, and where it
    /// does not come back one step more. The only error is that memory runs out.
    #[tactic(auto, using(crate::proofs::NotedLemmas::noting), unfolding(crate::specs::Following::on_ring, crate::specs::Looks::on_ring_looks))]
    pub fn is_on_ring(
        &self,
        alloc: Global,
        q: &QualifiedName,
        looks: &mut Looks,
    ) -> Result<bool, AllocError>
        ensures found { IfOk result (λ found. found ≡ spec.on_ring (table_in self.now) (qualified_of q.now)) }
        ensures looks { IfOk result (λ found. noted_in looks.new
            ≡ with_looks (noted_in looks.old) (look.on_ring_looks (table_in self.now) (qualified_of q.now))) }
    {
        let mut at = q.clone()?;
        for turn in 1..self.steps {
            match self.step(alloc, &at, looks)? {
                Step::Ends(_) => return Ok(false),
                Step::Leads(next) => at = next,
            }
            if at.is_same(q) {
                return Ok(true);
            }
        }
        self.step(alloc, &at, looks)?;
        Ok(false)
    }

    /// The step from a name.
    #[tactic(auto, using(crate::proofs::NotedLemmas::noting), unfolding(crate::specs::Following::step, crate::specs::Looks::step_looks))]
    fn step(&self, alloc: Global, q: &QualifiedName, looks: &mut Looks) -> Result<Step, AllocError>
        ensures found { IfOk result (λ found. step_of found ≡ spec.step (table_in self.now) (qualified_of q.now)) }
        ensures looks { IfOk result (λ found. noted_in looks.new
            ≡ with_looks (noted_in looks.old) (look.step_looks (table_in self.now) (qualified_of q.now))) }
    {
        looks.note_name(q)?;
        if !self.has_module(q.module_path.parts()) {
            looks.note_module(q.module_path.parts())?;
            return Ok(Step::Ends(Referent::NoModule));
        }
        self.module_step(alloc, q, looks)
    }

    /// The step from a name of a module that is there.
    #[tactic(auto, using(crate::proofs::NotedLemmas::noting))]
    fn module_step(
        &self,
        alloc: Global,
        q: &QualifiedName,
        looks: &mut Looks,
    ) -> Result<Step, AllocError>
        ensures found { IfOk result (λ found. step_of found
            ≡ spec.module_step (table_in self.now) (qualified_of q.now) (fixed_module_of q.now.module_path)) }
        ensures looks { IfOk result (λ found. noted_in looks.new
            ≡ with_looks (noted_in looks.old)
            (look.module_looks (table_in self.now) (qualified_of q.now) (fixed_module_of q.now.module_path))) }
    {
        match fixed_module(q.module_path.parts()) {
            Some(fixed) => Ok(Step::Ends(fixed_referent(q, fixed_name(fixed, q.name.as_str()))?)),
            None => self.file_step(alloc, q, looks),
        }
    }

    /// The step from a name of a module that is no fixed one.
    fn file_step(
        &self,
        alloc: Global,
        q: &QualifiedName,
        looks: &mut Looks,
    ) -> Result<Step, AllocError>
        ensures found { IfOk result (λ found. step_of found
            ≡ spec.file_step (table_in self.now) (qualified_of q.now)
            (file_of (table_in self.now) q.now.module_path)) }
        ensures looks { IfOk result (λ found. noted_in looks.new
            ≡ with_looks (noted_in looks.old)
            (look.file_looks (table_in self.now) (qualified_of q.now)
            (file_of (table_in self.now) q.now.module_path))) }
    {
        match self.file(q.module_path.parts()) {
            Some(file) => self.source_step(alloc, q, file, looks),
            None => self.unbound_step(alloc, q, looks),
        }
    }

    /// The step from a name of a file.
    fn source_step(
        &self,
        alloc: Global,
        q: &QualifiedName,
        file: &Interface,
        looks: &mut Looks,
    ) -> Result<Step, AllocError>
        ensures found { IfOk result (λ found. step_of found
            ≡ spec.source_step (table_in self.now) (qualified_of q.now) (interface_in file.now)
            (interface_in file.now).has_fault) }
        ensures looks { IfOk result (λ found. noted_in looks.new
            ≡ with_looks (noted_in looks.old)
            (look.source_looks (table_in self.now) (qualified_of q.now) (interface_in file.now)
            (interface_in file.now).has_fault)) }
    {
        if file.has_fault() {
            looks.note_module(q.module_path.parts())?;
            return Ok(Step::Ends(Referent::Opaque));
        }
        self.binding_step(alloc, q, file, file.declaration(&q.name), looks)
    }

    /// The step from a name of a file with this declaration.
    fn binding_step(
        &self,
        alloc: Global,
        q: &QualifiedName,
        file: &Interface,
        found: Option<&Binding>,
        looks: &mut Looks,
    ) -> Result<Step, AllocError>
        ensures found { IfOk result (λ step. step_of step
            ≡ spec.binding_step (table_in self.now) (qualified_of q.now) (interface_in file.now)
            (option_map (λ b. binding_of b.now) found.entry)) }
        ensures looks { IfOk result (λ step. noted_in looks.new
            ≡ with_looks (noted_in looks.old)
            (look.binding_looks (table_in self.now) (qualified_of q.now) (interface_in file.now)
            (option_map (λ b. binding_of b.now) found.entry))) }
    {
        match found {
            Some(binding) => self.form_step(alloc, q, file, &binding.form, looks),
            None => self.unbound_step(alloc, q, looks),
        }
    }

    /// The step from a declaration of this form in a file.
    #[tactic(auto, using(crate::proofs::NotedLemmas::noting))]
    fn form_step(
        &self,
        alloc: Global,
        q: &QualifiedName,
        file: &Interface,
        form: &BindingForm,
        looks: &mut Looks,
    ) -> Result<Step, AllocError>
        ensures found { IfOk result (λ found. step_of found
            ≡ spec.form_step (table_in self.now) (qualified_of q.now) (interface_in file.now)
            (binding_form_of form.now)) }
        ensures looks { IfOk result (λ found. noted_in looks.new
            ≡ with_looks (noted_in looks.old)
            (look.form_looks (table_in self.now) (qualified_of q.now) (interface_in file.now)
            (binding_form_of form.now))) }
    {
        match form {
            BindingForm::ImportFrom(from, name) => {
                let module_path = named_module(
                    alloc,
                    file.name(),
                    file.is_package(),
                    from.dots,
                    &from.path,
                )?;
                self.import_step(alloc, q, module_path, name, looks)
            }
            BindingForm::Import(imported) => self.imported_step(alloc, &imported.path, looks),
            BindingForm::ImportFirst(first) => {
                self.imported_step(alloc, slice::from_ref(first), looks)
            }
            _ => Ok(Step::Ends(Referent::Declared(q.clone()?))),
        }
    }

    /// The step from an import of the module with these parts.
    fn imported_step(
        &self,
        alloc: Global,
        parts: &[Text],
        looks: &mut Looks,
    ) -> Result<Step, AllocError>
        ensures found { IfOk result (λ found. step_of found
            ≡ spec.ends (spec.module_referent (table_in self.now) parts.now)) }
        ensures looks { IfOk result (λ found. noted_in looks.new
            ≡ with_looks (noted_in looks.old) (look.of_module parts.now ∷ [])) }
    {
        looks.note_module(parts)?;
        Ok(Step::Ends(self.module_referent(alloc, parts)?))
    }

    /// The step from a from-import of a name from a module, or from above the root.
    #[tactic(auto, using(crate::proofs::NotedLemmas::noting))]
    fn import_step(
        &self,
        alloc: Global,
        q: &QualifiedName,
        module_path: Option<ModuleName>,
        name: &Text,
        looks: &mut Looks,
    ) -> Result<Step, AllocError>
        ensures found { IfOk result (λ found. step_of found
            ≡ spec.import_step (table_in self.now) (qualified_of q.now) module_path name.now) }
        ensures looks { IfOk result (λ found. noted_in looks.new
            ≡ with_looks (noted_in looks.old)
            (look.to_looks (table_in self.now) (qualified_of q.now) module_path name.now)) }
    {
        match module_path {
            Some(module_path) => self.step_to(
                alloc,
                q,
                QualifiedName {
                    module_path,
                    name: name.clone()?,
                },
                looks,
            ),
            None => Ok(Step::Ends(Referent::NoModule)),
        }
    }

    /// The step from a from-import that leads to a name.
    #[tactic(auto, using(crate::proofs::NotedLemmas::noting))]
    fn step_to(
        &self,
        alloc: Global,
        q: &QualifiedName,
        next: QualifiedName,
        looks: &mut Looks,
    ) -> Result<Step, AllocError>
        ensures found { IfOk result (λ found. step_of found
            ≡ spec.step_to (table_in self.now) (qualified_of q.now) (qualified_of next)) }
        ensures looks { IfOk result (λ found. noted_in looks.new
            ≡ with_looks (noted_in looks.old)
            (look.next_looks (table_in self.now) (qualified_of q.now) (qualified_of next))) }
    {
        if !next.is_same(q) {
            return self.seen_step(alloc, next, looks);
        }
        looks.note_submodule(q)?;
        let under = module_of_parts(alloc, q.module_path.parts(), slice::from_ref(&q.name))?;
        if self.has_module(under.parts()) {
            self.note_seen(&next, looks)?;
            return Ok(Step::Ends(Referent::Module(under)));
        }
        self.seen_step(alloc, next, looks)
    }

    /// The step to a name that another file sees: one that its module hides stands for its submodule alone.
    #[tactic(auto, using(crate::proofs::NotedLemmas::noting))]
    fn seen_step(
        &self,
        alloc: Global,
        next: QualifiedName,
        looks: &mut Looks,
    ) -> Result<Step, AllocError>
        ensures found { IfOk result (λ found. step_of found
            ≡ spec.seen_step (table_in self.now) (qualified_of next)) }
        ensures looks { IfOk result (λ found. noted_in looks.new
            ≡ with_looks (noted_in looks.old) (look.seen_looks (table_in self.now) (qualified_of next))) }
    {
        looks.note_name(&next)?;
        if !self.hides(&next) {
            return Ok(Step::Leads(next));
        }
        looks.note_submodule(&next)?;
        Ok(Step::Ends(self.unbound_referent(alloc, &next)?))
    }

    /// The step from a name that its module does not bind.
    fn unbound_step(
        &self,
        alloc: Global,
        q: &QualifiedName,
        looks: &mut Looks,
    ) -> Result<Step, AllocError>
        ensures found { IfOk result (λ found. step_of found
            ≡ spec.ends (spec.unbound_referent (table_in self.now) (qualified_of q.now))) }
        ensures looks { IfOk result (λ found. noted_in looks.new
            ≡ with_looks (noted_in looks.old) (look.unbound_looks (qualified_of q.now))) }
    {
        looks.note_unbound(q)?;
        Ok(Step::Ends(self.unbound_referent(alloc, q)?))
    }

    /// What a name that its module does not bind stands for. The only error is that memory runs out.
    pub fn unbound_referent(&self, alloc: Global, q: &QualifiedName) -> Result<Referent, AllocError>
        ensures { IfOk result (λ found. referent_of found
            ≡ spec.unbound_referent (table_in self.now) (qualified_of q.now)) }
    {
        let under = module_of_parts(alloc, q.module_path.parts(), slice::from_ref(&q.name))?;
        if self.has_module(under.parts()) {
            Ok(Referent::Module(under))
        } else {
            Ok(Referent::NoName)
        }
    }

    /// The module with these parts, if it is there.
    fn module_referent(&self, alloc: Global, parts: &[Text]) -> Result<Referent, AllocError>
        ensures { IfOk result (λ found. referent_of found
            ≡ spec.module_referent (table_in self.now) parts.now) }
    {
        if self.has_module(parts) {
            Ok(Referent::Module(module_of_parts(alloc, &[], parts)?))
        } else {
            Ok(Referent::NoModule)
        }
    }
}

/// What a name of a fixed module stands for.
fn fixed_referent(q: &QualifiedName, found: Option<FixedName>) -> Result<Referent, AllocError>
    ensures { IfOk result (λ referent. referent_of referent ≡ spec.fixed_referent (qualified_of q.now) found) }
{
    match found {
        Some(_) => Ok(Referent::Declared(q.clone()?)),
        None => Ok(Referent::FixedAny),
    }
}

/// The index of the file that each module is, which is the first that names it.
fn places_of(
    alloc: Global,
    files: &[Rc<Interface>],
) -> Result<IndexMap<Vec<Text>, usize>, AllocError>
    ensures { IfOk result (λ places. (m : List (List ℕ)) → get_by (λ parts. same_module m parts.items) places
        ≡ position_from (λ file. same_module m file.name) 0 (interfaces_in files.now)) }
{
    let mut places = IndexMap::new(alloc);
    let mut left = files.len();
    while left > 0 {
        left -= 1;
        let name = files[left].name().clone()?;
        places.insert(name.parts, left)?;
    }
    Ok(places)
}

/// How many from-imports stand at the top level of files.
fn count_imports(files: &[Rc<Interface>]) -> u128
    ensures counted { result ≡ spec.import_count (interfaces_in files.now) }
    ensures fits { result + 1 < 2 ^ 128 }
{
    let mut count = 0u128;
    for file in files {
        count += count_file_imports(file.bindings()) as u128;
    }
    count
}

/// How many of these bindings are from-imports.
fn count_file_imports(bindings: &[Binding]) -> usize
    ensures { result ≡ count_by (λ b. spec.is_import_from b.form) (map binding_of bindings.now) }
{
    let mut count = 0usize;
    for binding in bindings {
        if matches!(binding.form, BindingForm::ImportFrom(..)) {
            count += 1;
        }
    }
    count
}
